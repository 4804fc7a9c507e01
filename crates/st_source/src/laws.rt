//! What follows from the definition of an accepted source. The function does nothing: its clauses are the laws.
ghost use Rattle.std.specs.Prelude.{◌≡◌, ◌⊎◌, ℕ, List};
ghost use Rattle.st_ast.specs.declared.declarations.Program.{Program};
ghost use Rattle.st_source.specs.Accepted.{IsAccepted, IsSourceOf};
ghost use Rattle.st_source.specs.Refused.{IsRefusedFor};
ghost use Rattle.st_source.specs.declared.errors.SourceError.{SourceError};

/// Each text is accepted or refused, one of the two. Where it is accepted it has one program, and else one fault is told of it: what
/// is written of a refused text is determined by the text.
pub fn one_verdict()
    ensures some { (text : List ℕ) → IsAccepted text ⊎ ((why : SourceError) × IsRefusedFor text why) }
    ensures one_program { (text : List ℕ) (a b : Program) → IsSourceOf text a → IsSourceOf text b → a ≡ b }
    ensures one_refusal { (text : List ℕ) (a b : SourceError) → IsRefusedFor text a → IsRefusedFor text b → a ≡ b }
    ensures not_both { (text : List ℕ) (tree : Program) (why : SourceError) → IsSourceOf text tree → IsRefusedFor text why → ⊥ }
{}
