//! What follows from the definition of the grammar. The functions do nothing: their clauses are the laws.
ghost use Rattle.std.specs.Prelude.{◌≡◌, ◌⊎◌, ℕ, List};
ghost use Rattle.st_ast.specs.declared.declarations.Program.{Program};
ghost use Rattle.st_events.specs.declared.events.Site.{Site};
ghost use Rattle.st_lex.specs.declared.kinds.Token.{Token};
ghost use Rattle.st_grammar.specs.FirstFault.{IsFirstFault, IsUnexpected};
ghost use Rattle.st_grammar.specs.Grammar.{Parses};
ghost use Rattle.st_grammar.specs.Terminals.{Terminal};

/// A list of terminals spells one tree at most: the grammar is not ambiguous.
pub fn one_tree()
    ensures { (ts : List Terminal) (a b : Program) → Parses ts a → Parses ts b → a ≡ b }
{}

/// A list of terminals has a tree or a first fault, one of the two, and one place of it.
pub fn one_fault()
    ensures some { (ts : List Terminal) → ((tree : Program) × Parses ts tree) ⊎ ((index : ℕ) × IsFirstFault ts index) }
    ensures not_both { (ts : List Terminal) (tree : Program) (index : ℕ) → Parses ts tree → IsFirstFault ts index → ⊥ }
    ensures one_index { (ts : List Terminal) (m n : ℕ) → IsFirstFault ts m → IsFirstFault ts n → m ≡ n }
    ensures one_place { (text : List ℕ) (tokens : List Token) (a b : Site) → IsUnexpected text tokens a → IsUnexpected text tokens b → a ≡ b }
{}
