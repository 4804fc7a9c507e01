//! A text is put line by line: each line by one call, with its newline.
ghost use Rattle.std.specs.Prelude.{◌≡◌, ◌<◌, ◌≤◌, ◌++◌, length, OnOk, OnErr};
ghost use Rattle.st_io.specs.Counts.{RoseBy};
ghost use Rattle.st_io.specs.Growth.{Grows, GrowsByFront};

use st_io::{Sink, SinkFault};

/// Puts the text. Nothing is put after a put that failed.
pub(crate) fn put_text<S: Sink>(out: &mut S, text: &[u8]) -> Result<(), SinkFault>
    ensures whole { OnOk result (Grows (S.state out.old).written text.now (S.state out.new).written) }
    ensures part { OnErr result (GrowsByFront (S.state out.old).written text.now (S.state out.new).written) }
    ensures failed { OnErr result (RoseBy 1 (S.state out.old).faults (S.state out.new).faults) }
    ensures faults { (S.state out.old).faults ≤ (S.state out.new).faults }
{
    let mut rest = text;
    while !rest.is_empty() {
        let (line, more) = split_line(rest);
        out.put(line)?;
        rest = more;
    }
    Ok(())
}

/// The first line of a text, with its newline, where it has one, and what stands behind it.
fn split_line(text: &[u8]) -> (&[u8], &[u8])
    requires { 0 < length text.now }
    ensures whole { text.now ≡ result.0.now ++ result.1.now }
    ensures some { 0 < length result.0.now }
{
    let end = match text.iter().position(|byte| *byte == b'\n') {
        Some(before) => before + 1,
        None => text.len(),
    };
    text.split_at(end)
}
