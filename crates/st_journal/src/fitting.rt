//! Each number of an event or a verdict fits the type of its field. These calls compute nothing.
ghost use Rattle.std.specs.List.{All};
ghost use Rattle.st_journal.specs.Format.{FitsFields, FitsPlace, FitsVerdict, HasArgWords, HasUsedArgs, HasUsedWords};

use st_events::{Args, Event, Plain, Site, Verdict};

/// The numbers of events fit their fields.
pub(crate) fn events_fit(events: &[Event])
    requires { All HasUsedArgs events.now }
    ensures { All FitsFields events.now }
{
    for event in events {
        event_fits(*event);
    }
}

/// The numbers of verdicts fit their fields.
pub(crate) fn verdicts_fit(verdicts: &[Verdict])
    ensures { All FitsVerdict verdicts.now }
{
    for verdict in verdicts {
        verdict_fits(*verdict);
    }
}

/// The numbers of an event fit their fields.
fn event_fits(event: Event)
    requires { HasUsedArgs event }
    ensures { FitsFields event }
{
    match event {
        Event::New {
            m: _,
            obj: _,
            class: _,
        } => {}
        Event::Load {
            m: _,
            obj: _,
            field: _,
            value: _,
        } => {}
        Event::Store {
            m: _,
            obj: _,
            field: _,
            value: _,
        } => {}
        Event::Cas {
            m: _,
            obj: _,
            field: _,
            expect: _,
            value: _,
            done: _,
        } => {}
        Event::Launch {
            m: _,
            number: _,
            site: _,
            args,
        } => args_fit(args),
        Event::Retire { m: _, number: _ } => {}
    }
}

/// The words of a launch are words, as many as it has room for.
fn args_fit(args: Args)
    requires { HasUsedWords args }
    ensures { HasArgWords args }
{
    let Args { count: _, words: _ } = args;
}

/// The numbers of a verdict fit their fields.
fn verdict_fits(verdict: Verdict)
    ensures { FitsVerdict verdict }
{
    match verdict {
        Verdict::Plain(Plain::Null(place)) => place_fits(place),
        Verdict::Plain(Plain::Divide(place)) => place_fits(place),
        Verdict::Plain(Plain::Overflow(place)) => place_fits(place),
        Verdict::Plain(Plain::Holds) => {}
        Verdict::Plain(Plain::Fails) => {}
        Verdict::Plain(Plain::Spent) => {}
        Verdict::Plain(Plain::Deep) => {}
        Verdict::Abandoned { obj: _ } => {}
    }
}

/// The numbers of a place fit their fields.
fn place_fits(place: Site)
    ensures { FitsPlace place }
{
    let Site { line: _, column: _ } = place;
}
