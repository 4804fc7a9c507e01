//! Writing a journal text, line by line.
ghost use Rattle.std.specs.Prelude.{◌≡◌, ◌<◌, ◌^◌, ◌++◌, length, IfOk, OnOk};
ghost use Rattle.std.specs.List.{All, enumerate_from, flat_map};
ghost use Rattle.st_events.specs.Sizes.{AreWithinLimits};
ghost use Rattle.st_journal.specs.Format.{HasUsedArgs, IsFile, event_words, journal_text, line, numbered, sizes_words, verdict_words, version_words};
ghost use Rattle.st_journal.specs.Spaced.{spaced, event_part, verdict_part};

use crate::fitting::{events_fit, verdicts_fit};
use crate::versions::VERSION;
use itoa::Buffer;
use st_events::{Event, NoMemory, Sizes, Verdict};
use st_texts::VerdictText;
use std::alloc::{AllocError, Global};

/// The journal text of a file with these sizes, events and verdicts.
pub fn write(
    alloc: Global,
    sizes: &Sizes,
    events: &[Event],
    verdicts: &[Verdict],
) -> Result<Vec<u8>, NoMemory>
    requires sizes { AreWithinLimits sizes.now }
    requires args { All HasUsedArgs events.now }
    requires few_events { length events.now < 2 ^ 32 }
    requires few_verdicts { length verdicts.now < 2 ^ 32 }
    ensures text { IfOk result (λ text. text.items
        ≡ journal_text (record { sizes = sizes.now; events = events.now; verdicts = verdicts.now })) }
    ensures file { IsFile (record { sizes = sizes.now; events = events.now; verdicts = verdicts.now }) }
{
    events_fit(events);
    verdicts_fit(verdicts);
    let mut out = Vec::new(alloc);
    put_version(&mut out, alloc)?;
    put_sizes(&mut out, sizes)?;
    put_events(&mut out, events)?;
    put_verdicts(&mut out, alloc, verdicts)?;
    put_numbered(
        &mut out,
        b"end",
        &[events.len() as u64, verdicts.len() as u64],
    )?;
    Ok(out)
}

/// Puts the first line.
fn put_version(out: &mut Vec<u8>, alloc: Global) -> Result<(), AllocError>
    ensures { OnOk result (out.new.items ≡ out.old.items ++ line (version_words VERSION)) }
{
    let first = format!(in alloc; "strobe journal {VERSION}\n")?;
    out.extend_from_slice(first.as_bytes())
}

/// Puts the second line.
fn put_sizes(out: &mut Vec<u8>, sizes: &Sizes) -> Result<(), AllocError>
    ensures { OnOk result (out.new.items ≡ out.old.items ++ line (sizes_words sizes.now)) }
{
    let numbers = [
        u64::from(sizes.mutators),
        u64::from(sizes.lanes),
        u64::from(sizes.objects),
        u64::from(sizes.copies),
        u64::from(sizes.events),
        u64::from(sizes.calls),
    ];
    put_numbered(out, b"sizes", &numbers)
}

/// Puts a line for each event.
fn put_events(out: &mut Vec<u8>, events: &[Event]) -> Result<(), AllocError>
    requires { All HasUsedArgs events.now }
    ensures { OnOk result (out.new.items ≡ out.old.items ++ flat_map event_part events.now) }
{
    for event in events {
        put_event(out, *event)?;
    }
    Ok(())
}

/// Puts a line for each verdict, with its number.
fn put_verdicts(out: &mut Vec<u8>, alloc: Global, verdicts: &[Verdict]) -> Result<(), AllocError>
    ensures { OnOk result (out.new.items ≡ out.old.items ++ flat_map verdict_part (enumerate_from 1 verdicts.now)) }
{
    for (before, verdict) in verdicts.iter().enumerate() {
        put_verdict(out, alloc, before + 1, *verdict)?;
    }
    Ok(())
}

/// Puts the line of the verdict of this number.
#[tactic(auto, using(crate::proofs::WriteLemmas::verdict_line_is_put))]
fn put_verdict(
    out: &mut Vec<u8>,
    alloc: Global,
    number: usize,
    verdict: Verdict,
) -> Result<(), AllocError>
    ensures { OnOk result (out.new.items ≡ out.old.items ++ line (verdict_words (number, verdict))) }
{
    let text = format!(in alloc; "V {number} {}\n", VerdictText(verdict))?;
    out.extend_from_slice(text.as_bytes())
}

/// Puts the line of an event.
fn put_event(out: &mut Vec<u8>, event: Event) -> Result<(), AllocError>
    requires { HasUsedArgs event }
    ensures { OnOk result (out.new.items ≡ out.old.items ++ line (event_words event)) }
{
    match event {
        Event::New { m, obj, class } => {
            put_numbered(out, b"N", &[u64::from(m), u64::from(obj), u64::from(class)])
        }
        Event::Load {
            m,
            obj,
            field,
            value,
        } => put_numbered(
            out,
            b"L",
            &[u64::from(m), u64::from(obj), u64::from(field), value],
        ),
        Event::Store {
            m,
            obj,
            field,
            value,
        } => put_numbered(
            out,
            b"S",
            &[u64::from(m), u64::from(obj), u64::from(field), value],
        ),
        Event::Cas {
            m,
            obj,
            field,
            expect,
            value,
            done,
        } => {
            let head = [u64::from(m), u64::from(obj), u64::from(field)];
            put_two(out, b"C", &head, &[expect, value, u64::from(done)])
        }
        Event::Launch {
            m,
            number,
            site,
            args,
        } => {
            let head = [
                u64::from(m),
                u64::from(number),
                u64::from(site),
                u64::from(args.count),
            ];
            put_two(out, b"K", &head, &args.words[..usize::from(args.count)])
        }
        Event::Retire { m, number } => put_numbered(out, b"R", &[u64::from(m), u64::from(number)]),
    }
}

/// Puts a line of a tag and numbers.
fn put_numbered(out: &mut Vec<u8>, tag: &[u8], numbers: &[u64]) -> Result<(), AllocError>
    ensures { OnOk result (out.new.items ≡ out.old.items ++ line (numbered tag.now numbers.now)) }
{
    put_two(out, tag, numbers, &[])
}

/// Puts a line of a tag and numbers, which come in two parts.
fn put_two(out: &mut Vec<u8>, tag: &[u8], numbers: &[u64], more: &[u64]) -> Result<(), AllocError>
    ensures { OnOk result (out.new.items ≡ out.old.items ++ line (numbered tag.now (numbers.now ++ more.now))) }
{
    out.extend_from_slice(tag)?;
    put_numbers(out, numbers)?;
    put_numbers(out, more)?;
    Ok(out.push(b'\n')?)
}

/// Puts numbers, each after a blank.
fn put_numbers(out: &mut Vec<u8>, numbers: &[u64]) -> Result<(), AllocError>
    ensures { OnOk result (out.new.items ≡ out.old.items ++ spaced numbers.now) }
{
    let mut buffer = Buffer::new();
    for number in numbers {
        out.push(b' ')?;
        out.extend_from_slice(buffer.format(*number).as_bytes())?;
    }
    Ok(())
}
