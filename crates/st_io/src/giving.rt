//! What a file held in memory gives to a read.
ghost use Rattle.std.specs.Prelude.{◌≡◌, ◌≢◌, ◌+◌, ◌<◌, ◌≤◌, ◌↔◌, [], length, min, OnOk, OnErr};
ghost use Rattle.st_io.specs.Counts.{raised};

use crate::errors::FilesFault;

// Gives `bytes` to `into`, where there are at most `limit` of them, and counts those that were taken: no more than one
// past the limit.
pub(crate) fn give(
    bytes: &[u8],
    limit: u32,
    taken: &mut u64,
    into: &mut Vec<u8>,
) -> Result<(), FilesFault>
    requires { into.old.items ≡ [] }
    ensures whole { OnOk result (into.new.items ≡ bytes.now) }
    ensures emptied { OnErr result (into.new.items ≡ []) }
    ensures never_failed { result ≢ Err FilesFault.Failed }
    ensures longer { (result ≡ Err FilesFault.TooLong) ↔ (limit < length bytes.now) }
    ensures grows { taken.old ≤ taken.new }
    ensures taken { taken.new ≡ raised (min (length bytes.now) (limit + 1)) taken.old }
{
    let most = u64::from(limit) + 1;
    let available = bytes.len() as u64;
    *taken = taken.saturating_add(available.min(most));
    if available >= most {
        return Err(FilesFault::TooLong);
    }
    into.extend_from_slice(bytes)?;
    Ok(())
}
