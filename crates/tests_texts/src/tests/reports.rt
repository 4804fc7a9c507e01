//! The reports of small runs.

use st_events::{Args, End, Event, Plain, Ran, Site, Verdict};
use st_report::{report, report_json, run_status};
use std::alloc::{AllocError, Global};
use std::test::Fail;

/// What is left by a run of one thread that makes an object, checks it and changes it.
fn ran_two(alloc: Global, verdict: Verdict, end: End) -> Result<Ran, AllocError> {
    let args = Args {
        count: 1,
        words: [2, 0, 0, 0],
    };
    let journal = [
        Event::New {
            m: 0,
            obj: 2,
            class: 1,
        },
        Event::Launch {
            m: 0,
            site: 0,
            number: 1,
            args,
        },
        Event::Store {
            m: 0,
            obj: 2,
            field: 0,
            value: 1,
        },
        Event::Retire { m: 1, number: 1 },
    ];
    Ok(Ran {
        journal: journal.to_vec(alloc)?,
        verdicts: [verdict].to_vec(alloc)?,
        ends: [end].to_vec(alloc)?,
        free: 4_096,
    })
}

#[test]
fn a_run_has_its_report_and_its_status(rt: HostRuntime) -> Result<(), Fail> {
    let place = Site { line: 4, column: 3 };
    let at = Site {
        line: 4,
        column: 10,
    };
    for (verdict, end, text, status) in [
        (
            Verdict::Plain(Plain::Holds),
            End::Finished,
            "check t 2 4:3 holds\nthread t finished\nchecks 1 holds 1 fails 0 other 0\n",
            0,
        ),
        (
            Verdict::Plain(Plain::Null(at)),
            End::Finished,
            "check t 2 4:3 fault null 4:10\nthread t finished\nchecks 1 holds 0 fails 0 other 1\n",
            1,
        ),
        (
            Verdict::Abandoned { obj: 1 },
            End::Finished,
            "check t 2 4:3 abandoned 1\nthread t finished\nchecks 1 holds 0 fails 0 other 1\n",
            8,
        ),
        (
            Verdict::Plain(Plain::Fails),
            End::EventsSpent,
            "check t 2 4:3 fails\nthread t fault events spent\nchecks 1 holds 0 fails 1 other 0\n",
            4,
        ),
    ] {
        let ran = ran_two(rt.alloc(), verdict, end)?;
        let written = report(rt.alloc(), &[b"t".as_slice()], &[place], &ran)?;
        assert_eq!(rt; written.as_slice(), text.as_bytes());
        assert_eq!(rt; run_status(&ran), status);
    }
    Ok(())
}

#[test]
fn a_run_has_its_report_as_json(rt: HostRuntime) -> Result<(), Fail> {
    let place = Site { line: 4, column: 3 };
    let ran = ran_two(rt.alloc(), Verdict::Plain(Plain::Holds), End::Finished)?;
    let text =
        "{\"checks\":[{\"column\":3,\"event\":2,\"line\":4,\"thread\":\"t\",\"verdict\":\"holds\"}],\
        \"counts\":{\"checks\":1,\"fails\":0,\"holds\":1,\"other\":0},\
        \"threads\":[{\"end\":\"finished\",\"name\":\"t\"}]}\n";
    let written = report_json(rt.alloc(), &[b"t".as_slice()], &[place], &ran)?;
    assert_eq!(rt; written.as_slice(), text.as_bytes());
    let other =
        "{\"checks\":[],\"counts\":{\"checks\":1,\"fails\":0,\"holds\":1,\"other\":0},\"threads\":[]}\n";
    let written = report_json(rt.alloc(), &[], &[place], &ran)?;
    assert_eq!(rt; written.as_slice(), other.as_bytes());
    Ok(())
}
