//! A table from its start to its end, by one thread.
ghost use Rattle.std.specs.Prelude.{◌≡◌};
ghost use Rattle.st_events.specs.Sizes.{AreWithinLimits};
ghost use Rattle.st_rule.specs.Rule.{first_view};
ghost use Rattle.st_rule.specs.Seats.{IsSeatOf, sizes_of, terms_of};

use super::judges::quiet_judge;
use st_events::{Judge, Sizes};
use st_rule::{MutSeat, Shared};
use std::alloc::Global;
use std::process::Abort;
use std::test::Fail;

/// The sizes of the rows.
pub fn small_sizes() -> Sizes
    ensures sizes { result.mutators ≡ 2 }
    ensures fits { AreWithinLimits result }
{
    Sizes {
        mutators: 2,
        lanes: 2,
        objects: 4,
        copies: 3,
        events: 10,
        calls: 0,
    }
}

/// Both mutators' seats are split, one goes in and out, and both are joined.
fn in_and_out<J: Judge, R: Abort>(
    rt: &R,
    alloc: Global,
    shared: Shared<J>,
    mut main: MutSeat<J>,
) -> Result<(), Fail>
    requires table { IsSeatOf J.meant shared main }
    requires first { main.view ≡ first_view (terms_of J.meant shared) }
    requires mutators { (sizes_of shared).mutators ≡ 2 }
{
    let mut one = shared.split_mut(alloc, &mut main, 0)?;
    let two = shared.split_mut(alloc, &mut main, 1)?;
    assert_eq!(rt; (one.number(), two.number(), main.number()), (0, 1, 2));
    assert_eq!(rt;
        (one.spare(), one.room(), main.spare(), main.room()),
        (10, 4, 0, 0)
    );
    assert_eq!(rt; shared.plan().words(), 321);
    shared.flag_in(&mut one);
    let found_open = shared.look(&mut one);
    shared.flag_out(&mut one);
    assert!(rt; found_open);
    assert!(rt; shared.join_mut(&mut main, one).entries().is_empty());
    assert!(rt; shared.join_mut(&mut main, two).entries().is_empty());
    let closed = shared.close(main);
    assert_eq!(rt; (closed.free(), closed.events()), (3, 0));
    Ok(())
}

#[test]
fn a_seat_goes_in_and_out(rt: HostRuntime) -> Result<(), Fail> {
    let judge = quiet_judge(rt.alloc())?;
    let sizes = small_sizes();
    let (shared, main) = Shared::make(rt.alloc(), &judge, &sizes)?;
    assert_eq!(rt; shared.sizes(), sizes);
    in_and_out(&rt, rt.alloc(), shared, main)
}
