//! What no clause says: with ample memory a journal has its room and a replay its heap. The rows of faults are computed by the prover (proofs/LegalExamples).

mod judges;

use crate::{Args, Event, HeapMap, Journal, Kind, ReplayError, Shape, Sizes, Why, replay};
use std::alloc::{AllocError, Global};
use std::test::Fail;

/// One shared number; a class of a number, a truth and a reference to its own, and a class of a number; a check without
/// arguments, one of an object, and one of an object and a truth.
fn shape_of_rows(alloc: Global) -> Result<Shape, AllocError> {
    Ok(Shape {
        classes: vec![in alloc;
            vec![in alloc; Kind::Int]?,
            vec![in alloc; Kind::Int, Kind::Bool, Kind::Ref(1)]?,
            vec![in alloc; Kind::Int]?,
        ]?,
        checks: vec![in alloc;
            vec![in alloc]?,
            vec![in alloc; Kind::Ref(1)]?,
            vec![in alloc; Kind::Ref(1), Kind::Bool]?,
        ]?,
    })
}

fn new(m: u8, obj: u32, class: u8) -> Event {
    Event::New { m, obj, class }
}

fn load(m: u8, obj: u32, field: u8, value: u64) -> Event {
    Event::Load {
        m,
        obj,
        field,
        value,
    }
}

fn store(m: u8, obj: u32, field: u8, value: u64) -> Event {
    Event::Store {
        m,
        obj,
        field,
        value,
    }
}

fn launch(m: u8, number: u32, site: u16, args: Args) -> Event {
    Event::Launch {
        m,
        number,
        site,
        args,
    }
}

fn retire(m: u8, number: u32) -> Event {
    Event::Retire { m, number }
}

fn one_arg(word: u64, unused: u64) -> Args {
    Args {
        count: 1,
        words: [word, unused, 0, 0],
    }
}

#[test]
fn a_journal_with_room_takes_two_events(rt: HostRuntime) -> Result<(), Fail> {
    let mut journal = Journal::with_room(rt.alloc(), 2)?;
    let spare = journal.spare();
    assert!(rt; spare >= 2);
    for event in [new(0, 2, 1), retire(0, 1)] {
        assert!(rt; journal.len() < 4);
        journal.push(event)?;
    }
    assert_eq!(rt; journal.spare(), spare - 2);
    assert_eq!(rt; journal.len(), 2);
    assert_eq!(rt; journal.events().first(), Some(&new(0, 2, 1)));
    Ok(())
}

#[test]
fn the_heap_of_the_two_line_example(rt: HostRuntime) -> Result<(), Fail> {
    let alloc = rt.alloc();
    let shape = Shape {
        classes: vec![in alloc; vec![in alloc]?, vec![in alloc; Kind::Int, Kind::Ref(1)]?]?,
        checks: vec![in alloc; vec![in alloc; Kind::Ref(1)]?]?,
    };
    let sizes = Sizes::usual(1);
    assert!(rt; shape.fits());
    let events = [
        new(0, 2, 1),
        launch(0, 1, 0, one_arg(2, 0)),
        store(0, 2, 0, 1),
        retire(0, 1),
    ];
    let heap: HeapMap = replay(alloc, &shape, &sizes, &events).ok().ok_or("legal")?;
    for (obj, field, word) in [(2, 0, Some(1)), (2, 1, Some(0)), (2, 2, None), (3, 0, None)] {
        assert_eq!(rt; heap.get(obj, field), word);
    }
    assert_eq!(rt; heap.class(2), Some(1));
    assert_eq!(rt; heap.class(3), None);
    let answer = replay(alloc, &shape, &sizes, &[load(0, 1, 0, 0)]);
    let refused = ReplayError::NotLegal {
        place: 0,
        why: Why::WrongField,
    };
    assert_eq!(rt; answer.err(), Some(refused));
    Ok(())
}
