//! Laws of findings, over the definitions of this crate. Nothing is computed: the call states theorems, by its clauses.
ghost use Rattle.st_audit.specs.Laws.{HaveNoneWhereRight, HaveOneAtMost};

/// What holds of the findings of every journal.
pub fn laws_of_findings()
    ensures right { HaveNoneWhereRight }
    ensures one { HaveOneAtMost }
{}
