//! Laws of the code of expressions, and of evaluations. Nothing is computed: the call states theorems, by its clauses.
ghost use Rattle.st_eval.specs.Laws.{CodeIsItsCourse, CodeGoesOn, TellEachObject, AskWell};

/// What holds of the code of every expression, over all locals and whatever calls do.
pub fn laws_of_code()
    ensures whole { CodeIsItsCourse }
    ensures goes_on { CodeGoesOn }
{}

/// What holds of the evaluation of every check of a well-formed program: the objects that it asks for have numbers of 32 bits.
pub fn laws_of_evaluations()
    ensures objects { TellEachObject }
    ensures replies { AskWell }
{}
