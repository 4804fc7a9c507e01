//! Laws of all checks, over the definitions of this crate. Nothing is computed: the call states theorems, by its clauses.
ghost use Rattle.st_check_meaning.specs.Laws.{DependOnTheirCells, ReadCellsThatExist, MeetTheirKinds, PlainExpressionsMeetTheirKinds, FollowByTurns, AskInOrder};

/// What holds of all checks, of every program, on all heaps.
pub fn laws_of_checks()
    ensures cells { DependOnTheirCells }
    ensures exist { ReadCellsThatExist }
    ensures kinds { MeetTheirKinds }
    ensures plain { PlainExpressionsMeetTheirKinds }
    ensures turns { FollowByTurns }
    ensures order { AskInOrder }
{}
