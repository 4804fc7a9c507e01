//! What a seat knows. No value of these types is made: they stand in proofs alone, and a step changes the view of its seat.
//! A view is nested by the parts of the rule, and each part takes only its own.

use st_events::{Event, Shape, Sizes};
use std::collections::LinkedList;

/// Where a mutator stands to the gate.
#[derive(Clone, Copy, Debug, PartialEq, Eq)]
pub enum Phase {
    /// Its flag is 0, and it touches nothing.
    Outside,
    /// Its flag is 1, and it has not yet found the closing word 0.
    Entering,
    /// Its flag is 1, and it found the closing word 0 since.
    Inside,
    /// It has the closing word, and sees the other flags one by one.
    Closing,
    /// It has the closing word, and saw every other flag 0 since.
    Alone,
}

/// What never changes: the shape of the program and the sizes of the run.
pub struct Terms {
    pub shape: Shape,
    pub sizes: Sizes,
}

/// What a seat counts of its own steps.
pub struct Tally {
    /// How many atomic steps it took.
    pub steps: u64,
    /// The word that its last load, exchange or addition found; None where it took none yet, and after a split or a join,
    /// whose load tells nothing.
    pub found: Option<u64>,
}

/// What a mutator knows of the gate.
pub struct GateView {
    /// Its number; the main thread's is the number of mutators.
    pub number: u8,
    pub phase: Phase,
    /// The numbers whose flags it saw 0 since it has the closing word.
    pub clear: LinkedList<u8>,
    /// In the main thread's view, how many mutators' seats it split off.
    pub split: u8,
}

/// An event of a seat's own, with its ticket.
#[derive(Clone, Copy, Debug, PartialEq, Eq)]
pub struct Entry {
    /// The index of the event in the journal, from 0.
    pub ticket: u32,
    pub event: Event,
}

/// What a mutator knows of the journal.
pub struct JournalView {
    /// The journal as far as it has seen it.
    pub seen: LinkedList<Event>,
    /// Its own events, in order.
    pub entries: LinkedList<Entry>,
}

/// A word that a seat loaded, by its number in the table.
pub struct LoadedWord {
    pub word: u32,
    pub value: u64,
}

/// What a mutator knows of the words that only a closer changes.
pub struct BoardView {
    /// What it has loaded since it went inside, or became alone. The last one first.
    pub loaded: LinkedList<LoadedWord>,
}

/// A field of the held object that was loaded.
pub struct LoadedField {
    pub field: u8,
    pub value: u64,
}

/// A change or a New that is drawn, while not all of its words are written.
pub struct Flight {
    pub event: Event,
    /// The word that a change takes the place of; 0 for a New.
    pub old: u64,
    /// Whether its field, or its class word, is written. Then only the header is left.
    pub written: bool,
    /// The lanes whose checks need the old version, and whose forwarding word at the object is not written yet.
    pub awaiting: LinkedList<u8>,
    /// The index of the free list that was drawn with the event; None where no lane needed the old version.
    pub index: Option<u32>,
    /// How many words of the copy are written, from word 0 on.
    pub built: u8,
}

/// What a mutator knows of the object that it holds.
pub struct Held {
    pub object: u32,
    /// The stamp that its header had when it was locked.
    pub stamp: u32,
    /// Its fields that were loaded since then and not written since. The last one first.
    pub loaded: LinkedList<LoadedField>,
    pub flight: Option<Flight>,
}

/// What a view keeps of a seat that it joined.
pub struct JoinedView {
    pub number: u8,
    pub seen: LinkedList<Event>,
    pub entries: LinkedList<Entry>,
}

/// What a mutator holds for others.
pub struct HandsView {
    /// The seats that it joined, the last one first.
    pub joined: LinkedList<JoinedView>,
}

/// What a mutator's seat knows, or the main thread's.
pub struct MutView {
    pub terms: Terms,
    pub tally: Tally,
    pub gate: GateView,
    pub board: BoardView,
    pub journal: JournalView,
    /// The object that it holds, if any.
    pub held: Option<Held>,
    pub hands: HandsView,
}

/// A read that is half done.
pub struct HalfRead {
    pub object: u32,
    pub field: u8,
    /// The object's own word, which was loaded first.
    pub value: u64,
    /// The forwarding word of the lane, once it was loaded and names a copy.
    pub forward: Option<u64>,
}

/// What the seat of an active check knows. None is made yet.
pub struct LaneView {
    pub terms: Terms,
    pub tally: Tally,
    pub lane: u8,
    /// The number of the check that it has in hand.
    pub check: u32,
    /// The events before the check's launch.
    pub past: LinkedList<Event>,
    /// The journal as far as it has seen it.
    pub seen: LinkedList<Event>,
    /// The read that is half done, if any.
    pub read: Option<HalfRead>,
}

/// What a seat of the table knows.
pub enum View {
    /// A mutator's seat, or the main thread's.
    Mut(MutView),
    /// The seat of an active check.
    Lane(LaneView),
    /// A seat that was joined away.
    Gone,
}
