//! Laws of scheduled runs, over the definitions of this crate. Nothing is computed: the call states theorems, by its clauses.
ghost use Rattle.st_run_meaning.specs.Laws.{LeaveRightRuns, ComeToOneEnd, StaySound, LowerWhatIsLeft, TakeNoMoreRoom};

/// What holds of the scheduled runs of all programs, with every seed.
pub fn laws_of_schedules()
    ensures right { LeaveRightRuns }
    ensures end { ComeToOneEnd }
    ensures sound { StaySound }
    ensures left { LowerWhatIsLeft }
    ensures room { TakeNoMoreRoom }
{}
