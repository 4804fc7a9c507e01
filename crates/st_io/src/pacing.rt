//! Moments of a run at which a test may hold a thread.

/// Called at moments of a run. It tells nothing, and its calls return.
pub trait Pace {
    /// Before the `count`-th own event of `mutator`, from 1.
    fn event(&self, mutator: u8, count: u32);

    /// Before the `count`-th read of check `number`, from 1.
    fn read(&self, number: u32, count: u32);
}

/// A pace that holds nobody.
#[derive(Clone, Copy)]
pub struct NoPace;

impl Pace for NoPace {
    fn event(&self, _mutator: u8, _count: u32) {}

    fn read(&self, _number: u32, _count: u32) {}
}
