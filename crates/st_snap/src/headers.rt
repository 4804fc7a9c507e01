//! Headers: an object's stamp, and a forwarding word for each lane, which tells a check where its version is.
ghost use Rattle.std.specs.Prelude.{◌≡◌, ◌≤◌, length};
ghost use Rattle.st_snap.specs.Headers.{forward_all, forward_one as one_forwarded};

use crate::lanes::Lanes;
use st_events::MOST_LANES;

/// The most lanes, as a length.
pub(crate) const LANES: usize = MOST_LANES as usize;

/// Where the version of an object is that a check reads.
#[derive(Clone, Copy)]
pub(crate) enum Target {
    /// In the copy of this number.
    Copied(u32),
    /// Nowhere: no copy was free at the change.
    Gone,
}

/// Where the check that was launched at this epoch finds its version. A check of another epoch reads the live words.
#[derive(Clone, Copy)]
pub(crate) struct Forward {
    pub epoch: u32,
    pub target: Target,
}

/// What stands beside an object's fields.
#[derive(Clone, Copy)]
pub(crate) struct Header {
    /// The epoch at the New or the last change of the object, whichever is later.
    pub stamp: u32,
    /// By lane.
    pub forward: [Forward; LANES],
}

impl Header {
    /// Before any change. Check numbers begin at 1, so no check has epoch 0.
    pub const UNTOUCHED: Header = Header {
        stamp: 0,
        forward: [Forward {
            epoch: 0,
            target: Target::Gone,
        }; LANES],
    };

    /// Sends each check that was launched after the stamp to `target`.
    #[tactic(auto, using(crate::proofs::HeaderLemmas::forward_none, crate::proofs::HeaderLemmas::forward_next))]
    pub fn forward_to(&mut self, lanes: &Lanes, target: Target)
        requires { length lanes.now ≤ LANES }
        ensures stamp { self.new.stamp ≡ self.old.stamp }
        ensures forward { self.new.forward ≡ forward_all self.old.stamp target lanes.now self.old.forward }
    {
        for (index, lane) in lanes.as_slice().iter().enumerate() {
            self.forward[index] = forward_one(*lane, self.stamp, target, self.forward[index]);
        }
    }
}

/// The forwarding word of one lane.
fn forward_one(lane: Option<u32>, stamp: u32, target: Target, before: Forward) -> Forward
    ensures { result ≡ one_forwarded stamp target lane before }
{
    match lane {
        Some(number) if number > stamp => Forward {
            epoch: number,
            target,
        },
        _ => before,
    }
}
