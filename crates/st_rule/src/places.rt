//! What a table tells of itself, and where its words are.
ghost use Rattle.std.specs.Prelude.{◌≡◌, ◌<◌, ◌≤◌};
ghost use Rattle.st_layout.specs.declared.limits.TheConstants.{MOST_FIELDS};
ghost use Rattle.st_layout.specs.Layout.{word_of};
ghost use Rattle.st_layout.specs.Names.{ClosingWord, ClockWord, FlagWord, ClassWord, HeaderWord, FieldWord, ForwardWord, CopyWord, cells_of};
ghost use Rattle.st_rule.specs.Board.{plan_of};
ghost use Rattle.st_rule.specs.Seats.{sizes_of, table_of};

use crate::tables::Shared;
use st_events::{Judge, Sizes};
use st_layout::Plan;

impl<J: Judge> Shared<J> {
    /// The sizes of the run.
    pub fn sizes(&self) -> Sizes
        ensures { result ≡ sizes_of self.now }
    {
        self.sizes
    }

    /// How much of each part the table has.
    pub fn plan(&self) -> Plan
        ensures { result ≡ plan_of (sizes_of self.now) }
    {
        self.plan
    }

    /// The word of a number's flag.
    pub(crate) fn flag_place(&self, m: u8) -> usize
        requires { m ≤ (sizes_of self.now).mutators }
        ensures place { result ≡ word_of (plan_of (sizes_of self.now)) (FlagWord m) }
        ensures within { result < (table_of self.now).words }
    {
        self.plan.flag_word(m) as usize
    }

    /// The word that says who closes the gate.
    pub(crate) fn closing_place(&self) -> usize
        ensures place { result ≡ word_of (plan_of (sizes_of self.now)) ClosingWord }
        ensures within { result < (table_of self.now).words }
    {
        self.plan.closing_word() as usize
    }

    /// The word that tickets are drawn from.
    pub(crate) fn clock_place(&self) -> usize
        ensures place { result ≡ word_of (plan_of (sizes_of self.now)) ClockWord }
        ensures within { result < (table_of self.now).words }
    {
        self.plan.clock_word() as usize
    }

    /// The word of an object's header.
    pub(crate) fn header_place(&self, obj: u32) -> usize
        requires { obj < cells_of (plan_of (sizes_of self.now)) }
        ensures place { result ≡ word_of (plan_of (sizes_of self.now)) (HeaderWord obj) }
        ensures within { result < (table_of self.now).words }
    {
        self.plan.header_word(obj) as usize
    }

    /// The word of an object's class number.
    pub(crate) fn class_place(&self, obj: u32) -> usize
        requires { obj < cells_of (plan_of (sizes_of self.now)) }
        ensures place { result ≡ word_of (plan_of (sizes_of self.now)) (ClassWord obj) }
        ensures within { result < (table_of self.now).words }
    {
        self.plan.class_word(obj) as usize
    }

    /// The word of a field of an object.
    pub(crate) fn field_place(&self, obj: u32, field: u8) -> usize
        requires object { obj < cells_of (plan_of (sizes_of self.now)) }
        requires field { field < MOST_FIELDS }
        ensures place { result ≡ word_of (plan_of (sizes_of self.now)) (FieldWord obj field) }
        ensures within { result < (table_of self.now).words }
    {
        self.plan.field_word(obj, field) as usize
    }

    /// The word of a lane's forwarding word at an object.
    pub(crate) fn forward_place(&self, obj: u32, lane: u8) -> usize
        requires object { obj < cells_of (plan_of (sizes_of self.now)) }
        requires lane { lane < (sizes_of self.now).lanes }
        ensures place { result ≡ word_of (plan_of (sizes_of self.now)) (ForwardWord obj lane) }
        ensures within { result < (table_of self.now).words }
    {
        self.plan.forward_word(obj, lane) as usize
    }

    /// Word `k` of a copy.
    pub(crate) fn copy_place(&self, copy: u32, k: u8) -> usize
        requires copy { copy < (sizes_of self.now).copies }
        requires word { k ≤ MOST_FIELDS }
        ensures place { result ≡ word_of (plan_of (sizes_of self.now)) (CopyWord copy k) }
        ensures within { result < (table_of self.now).words }
    {
        self.plan.copy_word(copy, k) as usize
    }
}
