//! Reading a source to its end, up to a limit.
ghost use Rattle.std.specs.Prelude.{◌≡◌, ◌+◌, ◌<◌, ◌≤◌, [], length, IfSome, OnOk, OnErr, IfOk};
ghost use Rattle.std.specs.Io.KnownBytes.{IsAtEnd};
ghost use Rattle.st_io.specs.Counts.{RoseBy, raised};
ghost use Rattle.st_io.specs.Taking.{TakesSome};

use crate::errors::FilesFault;
use std::io::{ErrorKind, Read};

/// The most bytes that are asked of a source at once.
const CHUNK: usize = 8_192;

// Whether a source has ended.
#[derive(Clone, Copy, PartialEq, Eq)]
enum Turn {
    End,
    More,
}

// One read of the source, of at most `most` bytes, into the end of `into`. A read that was interrupted took nothing.
fn take_some<S: Read>(
    source: &mut S,
    most: usize,
    taken: &mut u64,
    into: &mut Vec<u8>,
) -> Result<Turn, FilesFault>
    requires { 0 < most }
    ensures takes { OnOk result
        (TakesSome most (S.remaining source.old) (S.remaining source.new) into.old.items into.new.items taken.old taken.new) }
    ensures ended { result ≡ Ok Turn.End → IsAtEnd (S.remaining source.new) }
    ensures at_most { taken.new ≤ raised most taken.old }
    ensures grows { taken.old ≤ taken.new }
    ensures not_too_long { result ≡ Err FilesFault.TooLong → ⊥ }
{
    let mut chunk = [0u8; CHUNK];
    let wanted = most.min(CHUNK);
    let before = *taken;
    match source.read(&mut chunk[..wanted]) {
        Ok(count) => {
            *taken = before.saturating_add(count as u64);
            into.extend_from_slice(&chunk[..count])?;
            Ok(if count == 0 { Turn::End } else { Turn::More })
        }
        Err(error) if error.kind() == ErrorKind::Interrupted => Ok(Turn::More),
        Err(_) => Err(FilesFault::Failed),
    }
}

// Reads the source to its end into `into`, where it has at most `limit` bytes left. It takes no more than one byte past
// the limit, each once.
pub(crate) fn take_whole<S: Read>(
    source: &mut S,
    limit: u32,
    taken: &mut u64,
    into: &mut Vec<u8>,
) -> Result<(), FilesFault>
    requires { into.old.items ≡ [] }
    ensures whole { OnOk result (IfSome (S.remaining source.old) (λ bytes. into.new.items ≡ bytes)) }
    ensures ended { OnOk result (IsAtEnd (S.remaining source.new)) }
    ensures within { OnOk result (length into.new.items ≤ limit) }
    ensures longer { result ≡ Err FilesFault.TooLong
        → IfSome (S.remaining source.old) (λ bytes. limit < length bytes) }
    ensures too_long { result ≡ Err FilesFault.TooLong → RoseBy (limit + 1) taken.old taken.new }
    ensures counted { OnOk result (taken.new ≡ raised (length into.new.items) taken.old) }
    ensures at_most { taken.new ≤ raised (limit + 1) taken.old }
    ensures grows { taken.old ≤ taken.new }
{
    let most = limit as usize + 1;
    // No effect at run time. The proof learns from this use that the count fits its type.
    let _before = *taken;
    for _round in 0..u64::MAX {
        let turn = take_some(source, most - into.len(), taken, into)?;
        if into.len() == most {
            return Err(FilesFault::TooLong);
        }
        if turn == Turn::End {
            return Ok(());
        }
    }
    Err(FilesFault::Failed)
}
