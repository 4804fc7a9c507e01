//! How many cases were tried, and how many agree.
ghost use Rattle.std.specs.Prelude.{◌≡◌, if◌then◌else◌, nat_eq};

/// How many cases were tried, and how many agree.
#[derive(Clone, Copy)]
pub(crate) struct Tally {
    pub(crate) cases: u32,
    pub(crate) agree: u32,
}

impl Tally {
    /// Of no case.
    pub(crate) const NONE: Tally = Tally { cases: 0, agree: 0 };

    /// With one case more.
    pub(crate) fn count(&mut self, agrees: bool) {
        self.cases = self.cases.saturating_add(1);
        self.agree = self.agree.saturating_add(u32::from(agrees));
    }

    /// With the cases of another.
    pub(crate) fn add(&mut self, other: Tally) {
        self.cases = self.cases.saturating_add(other.cases);
        self.agree = self.agree.saturating_add(other.agree);
    }

    /// How the process ends: 0 where all cases agree, else 1.
    pub(crate) fn status(self) -> u8
        ensures { result ≡ (if nat_eq self.cases self.agree then 0 else 1) }
    {
        u8::from(self.cases != self.agree)
    }
}
