//! How many checks are launched, beside how many verdicts there are.
ghost use Rattle.std.specs.Prelude.{◌≡◌, ◌≢◌, ◌<◌, ◌≤◌, ◌^◌, if◌then◌else◌, length, filter, IfSome, IfNone};
ghost use Rattle.st_events.specs.History.{is_launch};

use st_events::Event;

/// Two numbers that should be the same.
#[derive(Clone, Copy, Debug)]
pub(crate) struct Counts {
    pub(crate) launches: u32,
    pub(crate) verdicts: u32,
}

/// The counts of launches and verdicts, where they differ.
pub(crate) fn other_count(launches: u32, verdicts: u32) -> Option<Counts>
    ensures differ { IfSome result (λ counts. (launches ≢ verdicts) × (counts.launches ≡ launches) × (counts.verdicts ≡ verdicts)) }
    ensures same { IfNone result (launches ≡ verdicts) }
{
    if launches == verdicts {
        return None;
    }
    Some(Counts { launches, verdicts })
}

/// How many checks are launched.
pub(crate) fn count_launches(events: &[Event]) -> u32
    requires { length events.now < 2 ^ 32 }
    ensures { result ≡ length (filter is_launch events.now) }
{
    let mut count = 0;
    for event in events {
        count += one_if(is_launch(*event));
    }
    count
}

/// 1 where the test holds, else 0.
fn one_if(test: bool) -> u32
    ensures is { result ≡ (if test then 1 else 0) }
    ensures few { result ≤ 1 }
{
    if test { 1 } else { 0 }
}

/// Whether the event launches a check.
fn is_launch(event: Event) -> bool
    ensures { result ≡ is_launch event }
{
    match event {
        Event::Launch { .. } => true,
        _ => false,
    }
}
