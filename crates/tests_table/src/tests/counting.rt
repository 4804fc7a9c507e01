//! Four threads make objects and count one shared word up.
ghost use Rattle.std.specs.Prelude.{◌≡◌, ◌+◌, ◌≤◌, ◌<◌, ◌^◌, length, IfOk, vec_len};
ghost use Rattle.std.specs.Thread.{IsSync};
ghost use Rattle.st_barrier.specs.Counting.{HasNumbers, MayCount, MayWork, HasWorked};
ghost use Rattle.st_events.specs.Sizes.{AreWithinLimits};
ghost use Rattle.st_gate.specs.Phases.{IsOutside};
ghost use Rattle.st_rule.specs.Entries.{charge_spent};
ghost use Rattle.st_rule.specs.Rule.{first_view};
ghost use Rattle.st_rule.specs.Seats.{IsSeatOf, sizes_of, terms_of};

use super::judges::judge_of_numbers;
use st_barrier::{cas, load, new, store};
use st_events::{Event, Judge, SHARED_OBJECT, Sizes, replay};
use st_gate::{Inside, enter, leave};
use st_rule::{Closed, Entry, MutSeat, SeatLog, Shared};
use std::alloc::Global;
use std::sync::Wait;
use std::test::Fail;
use std::thread::{Threads, join};

/// How many threads count.
const THREADS: u8 = 4;
/// How often each of them adds one.
const TIMES: u32 = 10_000;
/// How many objects each of them makes.
const OBJECTS: u32 = 8;

/// A table of four mutators. Another thread's success makes at most one try of a thread fail, so the charge is enough.
fn sizes_of_four() -> Sizes
    ensures mutators { result.mutators ≡ 4 }
    ensures fits { AreWithinLimits result }
{
    Sizes {
        mutators: THREADS,
        lanes: 2,
        objects: OBJECTS,
        copies: 3,
        events: 131_072,
        calls: 0,
    }
}

/// Makes an object and writes a number into it.
fn make_one<J: Judge, R: Wait>(rt: &R, shared: &Shared<J>, inside: &mut Inside<J>, value: u64)
    requires { MayCount J.meant shared.now inside.old.seat }
    ensures { HasWorked J.meant shared.now inside.old.seat inside.new.seat }
{
    if inside.seat.spare() >= 2 && inside.seat.room() > 0 {
        let obj = new(shared, inside, 1);
        store(rt, shared, inside, obj, 0, value);
    }
}

/// Makes so many objects.
fn make_objects<J: Judge, R: Wait>(rt: &R, shared: &Shared<J>, inside: &mut Inside<J>, count: u32)
    requires { MayCount J.meant shared.now inside.old.seat }
    ensures { HasWorked J.meant shared.now inside.old.seat inside.new.seat }
{
    for value in 0..count {
        make_one(rt, shared, inside, u64::from(value));
    }
}

/// Adds one to the shared number, unless another thread changes it meanwhile. True where it did.
fn add_one<J: Judge, R: Wait>(rt: &R, shared: &Shared<J>, inside: &mut Inside<J>) -> bool
    requires may { MayCount J.meant shared.now inside.old.seat }
    requires spare { charge_spent inside.old.seat.view + 2 ≤ inside.old.seat.view.terms.sizes.events }
    ensures { HasWorked J.meant shared.now inside.old.seat inside.new.seat }
{
    let found = load(rt, shared, inside, SHARED_OBJECT, 0);
    let more = found.wrapping_add(1);
    cas(rt, shared, inside, SHARED_OBJECT, 0, found, more)
}

/// Adds one so many times, and tries again where another thread was faster.
fn count_up<J: Judge, R: Wait>(rt: &R, shared: &Shared<J>, inside: &mut Inside<J>, times: u32)
    requires { MayCount J.meant shared.now inside.old.seat }
    ensures { HasWorked J.meant shared.now inside.old.seat inside.new.seat }
{
    let mut added = 0;
    for _ in rt.forever() {
        if added >= times || inside.seat.spare() < 2 {
            return;
        }
        if add_one(rt, shared, inside) {
            added += 1;
        }
    }
}

/// What one thread does.
fn work<J: Judge, R: Wait>(rt: &R, shared: &Shared<J>, seat: MutSeat<J>) -> MutSeat<J>
    requires { MayWork J.meant shared.now seat }
    ensures worked { HasWorked J.meant shared.now seat result }
    ensures phase { IsOutside result }
{
    let mut inside = enter(rt, shared, seat);
    make_objects(rt, shared, &mut inside, OBJECTS);
    count_up(rt, shared, &mut inside, TIMES);
    leave(shared, inside)
}

/// What two threads do at once.
fn work_both<J: Judge + Sync + Send, R: Threads + Wait + Sync>(
    rt: &R,
    shared: &Shared<J>,
    one: MutSeat<J>,
    two: MutSeat<J>,
) -> (MutSeat<J>, MutSeat<J>)
    requires one { MayWork J.meant shared.now one }
    requires two { MayWork J.meant shared.now two }
    ensures one { HasWorked J.meant shared.now one result.0 × IsOutside result.0 }
    ensures two { HasWorked J.meant shared.now two result.1 × IsOutside result.1 }
{
    join(
        rt,
        move || -> MutSeat<J>
            requires { MayWork J.meant shared.now one }
            ensures { HasWorked J.meant shared.entry.now one result × IsOutside result }
        { work(rt, shared, one) },
        move || -> MutSeat<J>
            requires { MayWork J.meant shared.now two }
            ensures { HasWorked J.meant shared.entry.now two result × IsOutside result }
        { work(rt, shared, two) },
    )
}

/// Four threads work. Gives the table at its close, and the events of each thread.
fn crowd<J: Judge + Sync + Send, R: Threads + Wait + Sync>(
    rt: &R,
    alloc: Global,
    shared: Shared<J>,
    mut main: MutSeat<J>,
) -> Result<(Closed, [SeatLog; 4]), Fail>
    requires table { IsSeatOf J.meant shared main }
    requires first { main.view ≡ first_view (terms_of J.meant shared) }
    requires mutators { (sizes_of shared).mutators ≡ 4 }
    requires numbers { HasNumbers (terms_of J.meant shared).shape }
{
    let one = shared.split_mut(alloc, &mut main, 0)?;
    let two = shared.split_mut(alloc, &mut main, 1)?;
    let three = shared.split_mut(alloc, &mut main, 2)?;
    let four = shared.split_mut(alloc, &mut main, 3)?;
    let table = &shared;
    let ((one, two), (three, four)) = join(
        rt,
        move || -> (MutSeat<J>, MutSeat<J>)
            requires { MayWork J.meant table.now one × MayWork J.meant table.now two × IsSync R.row }
            ensures { (HasWorked J.meant table.entry.now one result.0 × IsOutside result.0) × (HasWorked J.meant table.entry.now two result.1 × IsOutside result.1) }
        { work_both(rt, table, one, two) },
        move || -> (MutSeat<J>, MutSeat<J>)
            requires { MayWork J.meant table.now three × MayWork J.meant table.now four × IsSync R.row }
            ensures { (HasWorked J.meant table.entry.now three result.0 × IsOutside result.0) × (HasWorked J.meant table.entry.now four result.1 × IsOutside result.1) }
        { work_both(rt, table, three, four) },
    );
    let logs = [
        shared.join_mut(&mut main, one),
        shared.join_mut(&mut main, two),
        shared.join_mut(&mut main, three),
        shared.join_mut(&mut main, four),
    ];
    Ok((shared.close(main), logs))
}

/// The events of all logs, in the order of their tickets, where each ticket from 0 on stands once.
fn merged(alloc: Global, logs: &[SeatLog]) -> Result<Vec<Event>, Fail> {
    let mut entries: Vec<Entry> = Vec::new(alloc);
    for log in logs {
        entries.extend_from_slice(log.entries())?;
    }
    entries.sort_by_key(|entry| entry.ticket)?;
    let mut events = Vec::new(alloc);
    for entry in entries.as_slice() {
        if entry.ticket as usize != events.len() {
            return Err(Fail::from("each ticket stands once"));
        }
        events.push(entry.event)?;
    }
    Ok(events)
}

/// The thread of an event.
fn thread_of(event: Event) -> u8 {
    match event {
        Event::New { m, .. } => m,
        Event::Load { m, .. } => m,
        Event::Store { m, .. } => m,
        Event::Cas { m, .. } => m,
        Event::Launch { m, .. } => m,
        Event::Retire { m, .. } => m,
    }
}

/// Whether these are the thread's events, in order.
fn are_own(events: &[Event], thread: u8, log: &SeatLog) -> bool {
    let own = events.iter().filter(|event| thread_of(**event) == thread);
    own.copied()
        .eq(log.entries().iter().map(|entry| entry.event))
}

#[test]
fn four_threads_count_one_word_up(rt: HostRuntime) -> Result<(), Fail> {
    let judge = judge_of_numbers(rt.alloc())?;
    let sizes = sizes_of_four();
    let (shared, main) = Shared::make(rt.alloc(), &judge, &sizes)?;
    let (closed, logs) = crowd(&rt, rt.alloc(), shared, main)?;
    let events = merged(rt.alloc(), &logs)?;
    assert_eq!(rt; events.len(), closed.events() as usize);
    for (thread, log) in logs.iter().enumerate() {
        assert!(rt; are_own(events.as_slice(), thread as u8, log));
    }
    let heap = replay(rt.alloc(), judge.shape(), &sizes, events.as_slice())?;
    assert_eq!(rt; heap.get(SHARED_OBJECT, 0), Some(40_000));
    Ok(())
}
