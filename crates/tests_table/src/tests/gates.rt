//! The gate by one thread, and by three at once.
ghost use Rattle.std.specs.Prelude.{◌≡◌};
ghost use Rattle.std.specs.Thread.{IsSync};
ghost use Rattle.st_gate.specs.Later.{IsLater};
ghost use Rattle.st_gate.specs.Phases.{IsOutside};
ghost use Rattle.st_rule.specs.Named.{IsNamedSeat, IsNamedTable};
ghost use Rattle.st_rule.specs.Rule.{first_view};
ghost use Rattle.st_rule.specs.Seats.{IsSeatOf, sizes_of, terms_of};

use super::judges::quiet_judge;
use super::seats::small_sizes;
use st_events::Judge;
use st_gate::{close_gate, enter, leave, open_gate};
use st_rule::{MutSeat, Naming, Shared};
use std::alloc::Global;
use std::marker::{Brand, PhantomData};
use std::sync::atomic::{AtomicU64, Ordering};
use std::sync::{Mutex, Wait};
use std::test::Fail;
use std::thread::{Threads, join};

/// Goes in and out so many times. While it is inside it is counted.
fn visit<J: Judge, R: Wait>(
    rt: &R,
    shared: &Shared<J>,
    inside: &AtomicU64,
    mut seat: MutSeat<J>,
    times: u32,
) -> MutSeat<J>
    requires table { IsSeatOf J.meant shared.now seat }
    requires phase { IsOutside seat }
    ensures later { IsLater seat result }
    ensures phase { IsOutside result }
{
    for _ in 0..times {
        let visitor = enter(rt, shared, seat);
        inside.fetch_add(1, Ordering::SeqCst);
        inside.fetch_sub(1, Ordering::SeqCst);
        seat = leave(shared, visitor);
    }
    seat
}

/// Closes the gate and opens it so many times. Gives how many visitors it met inside while it was alone, in all.
fn visit_alone<J: Judge, R: Wait>(
    rt: &R,
    shared: &Shared<J>,
    inside: &AtomicU64,
    mut seat: MutSeat<J>,
    times: u32,
) -> (MutSeat<J>, u64)
    requires table { IsSeatOf J.meant shared.now seat }
    requires phase { IsOutside seat }
    ensures later { IsLater seat result.0 }
    ensures phase { IsOutside result.0 }
{
    let mut met = 0u64;
    for _ in 0..times {
        let alone = close_gate(rt, shared, seat);
        met = met.saturating_add(inside.load(Ordering::SeqCst));
        seat = open_gate(shared, alone);
    }
    (seat, met)
}

/// Two threads enter and leave 1,000 times each while a third closes and opens 100 times. Gives how many the third met inside.
fn crowd<J: Judge + Sync + Send, R: Threads + Wait + Sync>(
    rt: &R,
    alloc: Global,
    shared: Shared<J>,
    mut main: MutSeat<J>,
) -> Result<u64, Fail>
    requires table { IsSeatOf J.meant shared main }
    requires first { main.view ≡ first_view (terms_of J.meant shared) }
    requires mutators { (sizes_of shared).mutators ≡ 2 }
{
    let one = shared.split_mut(alloc, &mut main, 0)?;
    let two = shared.split_mut(alloc, &mut main, 1)?;
    let inside = AtomicU64::new(0);
    let table = &shared;
    let counter = &inside;
    let (one, (two, (mut main, met))) = join(
        rt,
        move || -> MutSeat<J>
            requires { IsSeatOf J.meant table.now one × IsOutside one }
            ensures { IsLater one result × IsOutside result }
        { visit(rt, table, counter, one, 1000) },
        move || -> (MutSeat<J>, (MutSeat<J>, u64))
            requires { IsSeatOf J.meant table.now two × IsOutside two × IsSeatOf J.meant table.now main × IsOutside main × IsSync R.row }
            ensures { IsLater two result.0 × IsOutside result.0 × IsLater main result.1.0 × IsOutside result.1.0 }
        {
            join(
                rt,
                move || -> MutSeat<J>
                    requires { IsSeatOf J.meant table.now two × IsOutside two }
                    ensures { IsLater two result × IsOutside result }
                { visit(rt, table, counter, two, 1000) },
                move || -> (MutSeat<J>, u64)
                    requires { IsSeatOf J.meant table.now main × IsOutside main }
                    ensures { IsLater main result.0 × IsOutside result.0 }
                { visit_alone(rt, table, counter, main, 100) },
            )
        },
    );
    shared.join_mut(&mut main, one);
    shared.join_mut(&mut main, two);
    shared.close(main);
    Ok(met)
}

#[test]
fn nobody_is_inside_while_a_third_is_alone(rt: HostRuntime) -> Result<(), Fail> {
    let judge = quiet_judge(rt.alloc())?;
    let (shared, main) = Shared::make(rt.alloc(), &judge, &small_sizes())?;
    assert_eq!(rt; crowd(&rt, rt.alloc(), shared, main)?, 0);
    Ok(())
}

/// Closes the gate, which no other thread does, and opens it.
fn close_and_open<J: Judge, R: Wait>(rt: &R, shared: &Shared<J>, seat: MutSeat<J>) -> MutSeat<J>
    requires table { IsSeatOf J.meant shared.now seat }
    requires phase { IsOutside seat }
    ensures later { IsLater seat result }
    ensures phase { IsOutside result }
{
    let alone = close_gate(rt, shared, seat);
    open_gate(shared, alone)
}

/// Whether a second closer, who has closed the gate alone before, gets it while it is closed, and once it is open.
fn second_closer<J: Judge, R: Wait>(
    rt: &R,
    alloc: Global,
    shared: Shared<J>,
    mut main: MutSeat<J>,
) -> Result<(bool, bool), Fail>
    requires table { IsSeatOf J.meant shared main }
    requires first { main.view ≡ first_view (terms_of J.meant shared) }
    requires mutators { (sizes_of shared).mutators ≡ 2 }
{
    let one = shared.split_mut(alloc, &mut main, 0)?;
    let mut one = close_and_open(rt, &shared, one);
    let alone = close_gate(rt, &shared, main);
    let while_closed = shared.take_gate(&mut one);
    open_gate(&shared, alone);
    // Only who is outside may ask for the gate.
    if while_closed {
        return Ok((true, false));
    }
    let once_open = shared.take_gate(&mut one);
    Ok((false, once_open))
}

#[test]
fn a_closed_gate_refuses_a_second_closer(rt: HostRuntime) -> Result<(), Fail> {
    let judge = quiet_judge(rt.alloc())?;
    let (shared, main) = Shared::make(rt.alloc(), &judge, &small_sizes())?;
    let (while_closed, once_open) = second_closer(&rt, rt.alloc(), shared, main)?;
    assert!(rt; !while_closed && once_open);
    Ok(())
}

/// A seat that lies behind a lock. Its type says of which table it is.
#[derive(Drop)]
struct Kept<J: Judge, N: Naming<J>> {
    seat: MutSeat<J>,
    of: PhantomData<N>,
    ghost named: { IsNamedSeat J.meant N.table N.judge N.sizes seat },
    ghost outside: { IsOutside seat },
}

impl<J: Judge, N: Naming<J>> Kept<J, N> {
    /// Steps with the seat at the table that its type names. Gives the clock's word.
    fn look(&mut self, shared: &Shared<J>) -> u64
        requires { IsNamedTable N.table N.judge N.sizes shared.now }
    {
        shared.last_look(&mut self.seat)
    }
}

/// Puts a seat behind a lock, and steps with it there.
fn look_behind_a_lock<J: Judge, N: Naming<J>, R: Wait>(
    rt: &R,
    shared: &Shared<J>,
    seat: MutSeat<J>,
) -> u64
    requires named { IsNamedTable N.table N.judge N.sizes shared.now }
    requires seat { IsNamedSeat J.meant N.table N.judge N.sizes seat }
    requires phase { IsOutside seat }
{
    let kept: Mutex<Kept<J, N>> = Mutex::new(Kept {
        seat,
        of: PhantomData,
    });
    kept.lock(rt).look(shared)
}

/// The same for any table, whose name is picked here.
fn look_at<J: Judge, R: Wait>(rt: &R, shared: &Shared<J>, seat: MutSeat<J>) -> u64
    requires table { IsSeatOf J.meant shared.now seat }
    requires phase { IsOutside seat }
{
    look_behind_a_lock::<J, Brand, R>(rt, shared, seat)
}

#[test]
fn a_seat_behind_a_lock_is_of_the_named_table(rt: HostRuntime) -> Result<(), Fail> {
    let judge = quiet_judge(rt.alloc())?;
    let (shared, main) = Shared::make(rt.alloc(), &judge, &small_sizes())?;
    assert_eq!(rt; look_at(&rt, &shared, main), 0);
    Ok(())
}
