//! Laws of all threads and of right verdicts, over the definitions of this crate. Nothing is computed: the call states theorems, by its
//! clauses.
ghost use Rattle.st_thread_meaning.specs.Laws.{LoopByTurns, LeadByReplies, HaveOneEnd, KeepWithinMeans, AskLegally, JudgeByHeaps, AbandonNothingWithCopies};

/// What holds of the threads of every program, after any replies, and of every verdict.
pub fn laws_of_threads()
    ensures loops { LoopByTurns }
    ensures replies { LeadByReplies }
    ensures one_end { HaveOneEnd }
    ensures means { KeepWithinMeans }
    ensures legal { AskLegally }
    ensures judge { JudgeByHeaps }
    ensures pool { AbandonNothingWithCopies }
{}
