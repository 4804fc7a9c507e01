//! What follows from the definitions of the answers of `parse`. The function does nothing: its clauses are the laws.
ghost use Rattle.std.specs.Prelude.{◌≡◌, ◌≢◌, ℕ, List};
ghost use Rattle.st_ast.specs.declared.declarations.Program.{Program};
ghost use Rattle.st_lex.specs.declared.kinds.Token.{Token};
ghost use Rattle.st_parse.specs.Faults.{HasParseFault};
ghost use Rattle.st_parse.specs.Outcomes.{IsProgramOf};
ghost use Rattle.st_parse.specs.declared.errors.ParseError.{ParseError};

/// The tokens of a text have at most one fault, of one kind and at one place, and no program beside it; want of memory is
/// none. So each of `Unexpected`, `TooMany`, `TooDeep` and `TooLong` excludes the others, and its place is the only one.
pub fn one_answer()
    ensures one_fault { (text : List ℕ) (tokens : List Token) (a b : ParseError)
        → HasParseFault text tokens a → HasParseFault text tokens b → a ≡ b }
    ensures not_both { (text : List ℕ) (tokens : List Token) (why : ParseError) (program : Program)
        → HasParseFault text tokens why → IsProgramOf text tokens program → ⊥ }
    ensures no_memory_fault { (text : List ℕ) (tokens : List Token) (why : ParseError)
        → HasParseFault text tokens why → why ≢ ParseError.Memory }
{}
