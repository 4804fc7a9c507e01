//! The laws of the limits.
ghost use Rattle.std.specs.Prelude.{ℕ, List};
ghost use Rattle.st_ast.specs.declared.declarations.Program.{Program};
ghost use Rattle.st_grammar.specs.Counts.{IsWithinCounts};
ghost use Rattle.st_grammar.specs.Grammar.{Parses};
ghost use Rattle.st_grammar.specs.Terminals.{Terminal, terminals_of};
ghost use Rattle.st_lex.specs.declared.kinds.Token.{Token};
ghost use Rattle.st_lex.specs.Tokens.{IsTokensOf};
ghost use Rattle.st_limit_laws.specs.Few.{HasFewOfEach};
ghost use Rattle.st_types.specs.Limits.{IsWithinLimits};

/// A tree of the grammar of which nothing is above its limit has few of each declaration.
pub fn few_of_each()
    ensures { (ts : List Terminal) (p : Program) → Parses ts p → IsWithinCounts p → HasFewOfEach p }
{}

/// A tree that the tokens of a text spell, and of which nothing is above its limit, keeps the condition of `check_types`.
pub fn within_limits()
    ensures { (text : List ℕ) (tokens : List Token) (p : Program) → IsTokensOf text tokens → Parses (terminals_of text tokens) p
        → IsWithinCounts p → IsWithinLimits p }
{}
