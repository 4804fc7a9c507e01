//! What each step tells. These types stand in proofs alone.
ghost use Rattle.std.specs.Prelude.{[]};
ghost use Rattle.st_events.specs.declared.events.Event.{Event};
ghost use Rattle.st_events.specs.declared.events.Event.TheVariants.{Retire};
ghost use Rattle.st_layout.specs.Packed.{high_half};
ghost use Rattle.st_rule.specs.LaneSeats.{ReadsField, ReadsForward, ReadsCopy};
ghost use Rattle.st_rule.specs.Plays.{Becomes, Learns, LooksLast, LoadsBoard, LocksWhere, FindsField, StoresForward, Draws};
ghost use Rattle.st_rule.specs.Turns.{flagged_in, looked, flagged_out, took_gate, saw, gave_gate, number_of_flag};
ghost use Rattle.st_rule.specs.Turns.{unlocked, word_written, copy_stored};

use crate::views::View;
use atomic_table::Play;
use std::marker::{Brand, PhantomData};

/// Flag in.
pub struct FlagIn;

impl Play<(), View> for FlagIn {
    ghost then = { λ step before word after. Becomes (λ _ v. flagged_in v) before word after };
}

/// Look.
pub struct Look;

impl Play<(), View> for Look {
    ghost then = { λ step before word after. Becomes looked before word after };
}

/// Flag out.
pub struct FlagOut;

impl Play<(), View> for FlagOut {
    ghost then = { λ step before word after. Becomes (λ _ v. flagged_out v) before word after };
}

/// Close.
pub struct TakeGate;

impl Play<(), View> for TakeGate {
    ghost then = { λ step before word after. Learns took_gate before word after };
}

/// See. Whose flag it is, the word's number tells.
pub struct See;

impl Play<(), View> for See {
    ghost then = { λ step before word after. Learns (saw (number_of_flag step.word)) before word after };
}

/// Open.
pub struct GiveGate;

impl Play<(), View> for GiveGate {
    ghost then = { λ step before word after. Becomes (λ _ v. gave_gate v) before word after };
}

/// Last look.
pub struct LastLook;

impl Play<(), View> for LastLook {
    ghost then = { λ step before word after. LooksLast before word after };
}

/// Board load. Which word it is, its number tells.
pub struct BoardLoad;

impl Play<(), View> for BoardLoad {
    ghost then = { λ step before word after. LoadsBoard step.word before word after };
}

/// Lock object. Which object it is, the word's number tells, and the stamp stands in the word that is expected.
pub struct Lock;

impl Play<(), View> for Lock {
    ghost then = { λ step before word after. LocksWhere step.word (high_half step.first) before word after };
}

/// Unlock.
pub struct Unlock;

impl Play<(), View> for Unlock {
    ghost then = { λ step before word after. Becomes (λ _ v. unlocked v) before word after };
}

/// Field load. Which field of the held object it is, the word's number tells.
pub struct FieldLoad;

impl Play<(), View> for FieldLoad {
    ghost then = { λ step before word after. FindsField step.word before word after };
}

/// Field store, and class store.
pub struct WordStore;

impl Play<(), View> for WordStore {
    ghost then = { λ step before word after. Becomes (λ _ v. word_written v) before word after };
}

/// Copy store.
pub struct CopyStore;

impl Play<(), View> for CopyStore {
    ghost then = { λ step before word after. Becomes (λ _ v. copy_stored v) before word after };
}

/// Forward store. Which lane's forwarding word it is, the word's number tells.
pub struct ForwardStore;

impl Play<(), View> for ForwardStore {
    ghost then = { λ step before word after. StoresForward step.word before word after };
}

/// Check field load. Which object and field it is, the word's number tells.
pub struct CheckField;

impl Play<(), View> for CheckField {
    ghost then = { λ step before word after. ReadsField step.word before word after };
}

/// Check forward load.
pub struct CheckForward;

impl Play<(), View> for CheckForward {
    ghost then = { λ step before word after. ReadsForward before word after };
}

/// Check copy load.
pub struct CheckCopy;

impl Play<(), View> for CheckCopy {
    ghost then = { λ step before word after. ReadsCopy before word after };
}

/// Which event is drawn. The clock's word does not tell it, so the call that draws picks it.
pub trait Drawn {
    ghost event: { Event };
}

impl Drawn for Brand {
    ghost event = { Retire 0 0 };
}

/// Draw.
pub struct Draw<D> {
    of: PhantomData<D>,
}

impl<D: Drawn> Play<(), View> for Draw<D> {
    ghost then = { λ step before word after. Draws D.event before word after };
}
