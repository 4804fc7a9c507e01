//! Rows: copies that were kept, each with the checks that it was kept for.
ghost use Rattle.std.specs.Prelude.{◌≡◌, ◌≤◌, if◌then◌else◌};
ghost use Rattle.st_audit.specs.Ledgers.{needs, is_needed, count_needed};

/// A copy that was kept at a change of an object: it serves the active checks whose numbers are above `after`, the object's stamp, and not above
/// `up_to`, the epoch of the change.
#[derive(Clone, Copy, Debug)]
pub(crate) struct Row {
    pub(crate) after: u32,
    pub(crate) up_to: u32,
}

/// Whether the check, if it is active, needs the row.
fn needs(row: Row, number: u32) -> bool
    ensures { result ≡ needs row number }
{
    row.after < number && number <= row.up_to
}

/// Whether some active check needs the row.
pub(crate) fn is_needed(active: &[u32], row: Row) -> bool
    ensures { result ≡ is_needed active.now row }
{
    active.iter().any(|number| needs(row, *number))
}

/// How many of the rows some active check needs.
pub(crate) fn count_needed(active: &[u32], rows: &[Row]) -> usize
    ensures { result ≡ count_needed active.now rows.now }
{
    let mut count = 0;
    for row in rows {
        count += one_if(is_needed(active, *row));
    }
    count
}

/// 1 where the test holds, else 0.
fn one_if(test: bool) -> usize
    ensures is { result ≡ (if test then 1 else 0) }
    ensures few { result ≤ 1 }
{
    if test { 1 } else { 0 }
}
