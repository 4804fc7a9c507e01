//! The old version of an object that changes, for the checks that need it: its words are copied, and each such check's lane is told where they
//! stand, before the field is overwritten.
//!
//! The order is what a check relies on, which loads the live word first and its lane's forwarding word second. A check that finds its lane not
//! forwarded has loaded a word that was not overwritten yet; one that finds it forwarded looks into the copy, all of whose words stand by then.
//! One copy serves all lanes: they were launched after the same last change, so all of them saw the same version. Its index is drawn with
//! the event's ticket, in one step, so two changes never build one copy. Where no copy is free at that index the version is lost for
//! these checks for good, and each lane is told so.
ghost use Rattle.std.specs.Prelude.{◌≡◌, ◌+◌, ◌<◌, ◌≤◌, ◌==◌, List, Some, None, MatchOption, if◌then◌else◌, nat_lt, slice_index};
ghost use Rattle.st_layout.specs.Names.{AvailableWord, FreeWord};
ghost use Rattle.st_layout.specs.declared.limits.TheConstants.{MOST_FIELDS};
ghost use Rattle.st_rule.specs.declared.views.LoadedField.{LoadedField};
ghost use Rattle.st_rule.specs.declared.views.Phase.TheVariants.{Inside};
ghost use Rattle.st_rule.specs.Draws.{AwaitsField};
ghost use Rattle.st_rule.specs.Seats.{IsSeatOf, IsFair};
ghost use Rattle.st_barrier.specs.Hands.{StaysAs, KeepsEpoch};
ghost use Rattle.st_barrier.specs.Keeping.{HoldsFound, HoldsFields, LoadsField, HasFound, Flies, IsWord, NamesCopy, NamesNone, IsKept, AreKnown, KeepsBoard, KeepsLanes};
ghost use Rattle.st_barrier.specs.Keeping.{LoadsWord, quiet_hand, awaiting_of, lanes_in};

use crate::changes::FieldChange;
use crate::needs::{LANE_PLACES, load_word};
use st_events::Judge;
use st_layout::{MOST_FIELDS, pack};
use st_rule::{LOST, MutSeat, Shared};

/// As many as an object may have fields.
pub(crate) const FIELD_PLACES: usize = MOST_FIELDS as usize;

/// Loads every field of the held object. What was found of the changed field already is not loaded again.
pub(crate) fn load_fields<J: Judge>(
    shared: &Shared<J>,
    seat: &mut MutSeat<J>,
    change: FieldChange,
    found: Option<u64>,
) -> [u64; FIELD_PLACES]
    requires table { IsSeatOf J.meant shared.now seat.old }
    requires fair { IsFair seat.old }
    requires hand { HoldsFound change.obj change.stamp change.field found seat.old }
    ensures board { KeepsBoard seat.old seat.new }
    ensures fair { IsFair seat.new }
    ensures hand { HoldsFields change.obj change.stamp change.field found result MOST_FIELDS seat.new }
{
    let mut fields = [0; FIELD_PLACES];
    for place in 0..MOST_FIELDS {
        fields[place as usize] = load_unless_found(shared, seat, change, place, found);
    }
    fields
}

/// Loads a field, unless it was found.
fn load_unless_found<J: Judge>(
    shared: &Shared<J>,
    seat: &mut MutSeat<J>,
    change: FieldChange,
    place: u8,
    found: Option<u64>,
) -> u64
    requires table { IsSeatOf J.meant shared.now seat.old }
    requires fair { IsFair seat.old }
    requires hand { HoldsFound change.obj change.stamp change.field found seat.old }
    requires place { place < MOST_FIELDS }
    ensures board { KeepsBoard seat.old seat.new }
    ensures fair { IsFair seat.new }
    ensures field { (loaded : List LoadedField) → seat.old.view.held ≡ Some (quiet_hand change.obj change.stamp loaded) → HasFound loaded change.field found → LoadsField change.obj change.stamp change.field found place result loaded seat.new }
{
    match found_at(change, place, found) {
        Some(word) => word,
        None => load_field(shared, seat, change, place, found),
    }
}

/// What was found already of this field.
fn found_at(change: FieldChange, place: u8, found: Option<u64>) -> Option<u64>
    ensures { result ≡ (if place == change.field then found else None) }
{
    if place == change.field { found } else { None }
}

/// Loads a field of which nothing was found.
fn load_field<J: Judge>(
    shared: &Shared<J>,
    seat: &mut MutSeat<J>,
    change: FieldChange,
    place: u8,
    found: Option<u64>,
) -> u64
    requires table { IsSeatOf J.meant shared.now seat.old }
    requires hand { HoldsFound change.obj change.stamp change.field found seat.old }
    requires place { place < MOST_FIELDS }
    requires apart { (if place == change.field then found else None) ≡ None }
    ensures board { KeepsBoard seat.old seat.new }
    ensures fair { IsFair seat.new }
    ensures field { (loaded : List LoadedField) → seat.old.view.held ≡ Some (quiet_hand change.obj change.stamp loaded) → HasFound loaded change.field found → LoadsField change.obj change.stamp change.field found place result loaded seat.new }
{
    shared.field_load(seat, change.obj, place)
}

/// Keeps the old version in the copy that the index reaches. Gives what the forwarding words are to say of it: one more than the copy's
/// number, or `LOST` where the index reaches none.
pub(crate) fn keep_version<J: Judge>(
    shared: &Shared<J>,
    seat: &mut MutSeat<J>,
    change: FieldChange,
    fields: &[u64; FIELD_PLACES],
    index: u32,
) -> u32
    requires table { IsSeatOf J.meant shared.now seat.old }
    requires fair { IsFair seat.old }
    requires phase { seat.old.view.gate.phase ≡ Inside }
    requires flight { Flies change.obj change.field change.value index fields.now 0 seat.old }
    ensures stays { StaysAs seat.old seat.new }
    ensures fair { IsFair seat.new }
    ensures epoch { KeepsEpoch seat.old seat.new }
    ensures lanes { KeepsLanes seat.old seat.new }
    ensures awaiting { awaiting_of seat.new.view.held ≡ awaiting_of seat.old.view.held }
    ensures kept { IsKept change.obj change.field change.value result seat.new }
{
    match find_copy(shared, seat, index) {
        Some(copy) => {
            build(shared, seat, change, fields, index, copy);
            copy + 1
        }
        None => LOST,
    }
}

/// The free copy that the index reaches, if it reaches one.
fn find_copy<J: Judge>(shared: &Shared<J>, seat: &mut MutSeat<J>, index: u32) -> Option<u32>
    requires table { IsSeatOf J.meant shared.now seat.old }
    requires fair { IsFair seat.old }
    requires phase { seat.old.view.gate.phase ≡ Inside }
    ensures stays { StaysAs seat.old seat.new }
    ensures fair { IsFair seat.new }
    ensures hand { seat.new.view.held ≡ seat.old.view.held }
    ensures epoch { KeepsEpoch seat.old seat.new }
    ensures lanes { KeepsLanes seat.old seat.new }
    ensures copy { MatchOption result (NamesNone index seat.new) (λ copy. NamesCopy index copy seat.new) }
{
    let available = load_available(shared, seat);
    if reaches_copy(index, available) {
        Some(load_free(shared, seat, index))
    } else {
        None
    }
}

/// Whether the index reaches a free copy: whether it is below the length of the free list.
fn reaches_copy(index: u32, available: u64) -> bool
    ensures { result ≡ nat_lt index available }
{
    u64::from(index) < available
}

/// The length of the free list.
fn load_available<J: Judge>(shared: &Shared<J>, seat: &mut MutSeat<J>) -> u64
    requires table { IsSeatOf J.meant shared.now seat.old }
    requires fair { IsFair seat.old }
    requires phase { seat.old.view.gate.phase ≡ Inside }
    ensures word { LoadsWord AvailableWord result seat.old seat.new }
    ensures fair { IsFair seat.new }
    ensures within { result ≤ seat.new.view.terms.sizes.copies }
{
    let place = shared.plan().available_word();
    load_word(shared, seat, place)
}

/// The copy that the free list names at an index.
fn load_free<J: Judge>(shared: &Shared<J>, seat: &mut MutSeat<J>, index: u32) -> u32
    requires table { IsSeatOf J.meant shared.now seat.old }
    requires fair { IsFair seat.old }
    requires phase { seat.old.view.gate.phase ≡ Inside }
    requires index { index < seat.old.view.terms.sizes.copies }
    ensures word { LoadsWord (FreeWord index) result seat.old seat.new }
    ensures fair { IsFair seat.new }
    ensures within { result < seat.new.view.terms.sizes.copies }
{
    let place = shared.plan().free_word(index);
    load_word(shared, seat, place) as u32
}

/// Writes the words of the copy: the object's number, and then its fields.
fn build<J: Judge>(
    shared: &Shared<J>,
    seat: &mut MutSeat<J>,
    change: FieldChange,
    fields: &[u64; FIELD_PLACES],
    index: u32,
    copy: u32,
)
    requires table { IsSeatOf J.meant shared.now seat.old }
    requires flight { Flies change.obj change.field change.value index fields.now 0 seat.old }
    requires copy { NamesCopy index copy seat.old }
    ensures board { KeepsBoard seat.old seat.new }
    ensures fair { IsFair seat.new }
    ensures awaiting { awaiting_of seat.new.view.held ≡ awaiting_of seat.old.view.held }
    ensures flight { Flies change.obj change.field change.value index fields.now (MOST_FIELDS + 1) seat.new }
{
    build_word(
        shared,
        seat,
        change,
        fields,
        index,
        copy,
        0,
        u64::from(change.obj),
    );
    for field in 0..MOST_FIELDS {
        let word = fields[field as usize];
        build_word(shared, seat, change, fields, index, copy, field + 1, word);
    }
}

/// Writes the next word of the copy.
fn build_word<J: Judge>(
    shared: &Shared<J>,
    seat: &mut MutSeat<J>,
    change: FieldChange,
    fields: &[u64; FIELD_PLACES],
    index: u32,
    copy: u32,
    k: u8,
    word: u64,
)
    requires table { IsSeatOf J.meant shared.now seat.old }
    requires flight { Flies change.obj change.field change.value index fields.now k seat.old }
    requires copy { NamesCopy index copy seat.old }
    requires within { k ≤ MOST_FIELDS }
    requires word { IsWord change.obj fields.now k word }
    ensures board { KeepsBoard seat.old seat.new }
    ensures fair { IsFair seat.new }
    ensures awaiting { awaiting_of seat.new.view.held ≡ awaiting_of seat.old.view.held }
    ensures flight { Flies change.obj change.field change.value index fields.now (k + 1) seat.new }
{
    shared.copy_store(seat, copy, k, word);
}

/// Writes the forwarding word of each lane whose check needs the old version.
pub(crate) fn forward<J: Judge>(
    shared: &Shared<J>,
    seat: &mut MutSeat<J>,
    change: FieldChange,
    checks: &[u32; LANE_PLACES],
    target: u32,
)
    requires table { IsSeatOf J.meant shared.now seat.old }
    requires fair { IsFair seat.old }
    requires kept { IsKept change.obj change.field change.value target seat.old }
    requires known { AreKnown checks.now seat.old }
    requires awaiting { awaiting_of seat.old.view.held ≡ lanes_in checks.now seat.old.view.terms.sizes.lanes }
    ensures board { KeepsBoard seat.old seat.new }
    ensures fair { IsFair seat.new }
    ensures flight { AwaitsField seat.new.view change.obj change.field change.value }
{
    let mut left = shared.sizes().lanes;
    while left > 0 {
        left -= 1;
        forward_lane(shared, seat, change, checks, target, left);
    }
}

/// Writes the forwarding word of one lane, if its check needs the old version.
fn forward_lane<J: Judge>(
    shared: &Shared<J>,
    seat: &mut MutSeat<J>,
    change: FieldChange,
    checks: &[u32; LANE_PLACES],
    target: u32,
    lane: u8,
)
    requires table { IsSeatOf J.meant shared.now seat.old }
    requires fair { IsFair seat.old }
    requires kept { IsKept change.obj change.field change.value target seat.old }
    requires known { AreKnown checks.now seat.old }
    requires lane { lane < seat.old.view.terms.sizes.lanes }
    requires awaiting { awaiting_of seat.old.view.held ≡ lanes_in checks.now (lane + 1) }
    ensures board { KeepsBoard seat.old seat.new }
    ensures fair { IsFair seat.new }
    ensures kept { IsKept change.obj change.field change.value target seat.new }
    ensures awaiting { awaiting_of seat.new.view.held ≡ lanes_in checks.now lane }
{
    let check = checks[lane as usize];
    if check > 0 {
        forward_check(shared, seat, change, checks, target, lane, check);
    }
}

/// Writes the forwarding word of a lane whose check needs the old version.
fn forward_check<J: Judge>(
    shared: &Shared<J>,
    seat: &mut MutSeat<J>,
    change: FieldChange,
    checks: &[u32; LANE_PLACES],
    target: u32,
    lane: u8,
    check: u32,
)
    requires table { IsSeatOf J.meant shared.now seat.old }
    requires kept { IsKept change.obj change.field change.value target seat.old }
    requires known { AreKnown checks.now seat.old }
    requires lane { lane < seat.old.view.terms.sizes.lanes }
    requires check { check ≡ slice_index checks.now lane }
    requires some { 0 < check }
    requires awaiting { awaiting_of seat.old.view.held ≡ lanes_in checks.now (lane + 1) }
    ensures board { KeepsBoard seat.old seat.new }
    ensures fair { IsFair seat.new }
    ensures kept { IsKept change.obj change.field change.value target seat.new }
    ensures awaiting { awaiting_of seat.new.view.held ≡ lanes_in checks.now lane }
{
    let check_half = u64::from(check);
    let target_half = u64::from(target);
    shared.forward_store(seat, change.obj, lane, pack(check_half, target_half));
}
