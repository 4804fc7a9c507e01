//! What follows from the definitions of the canonical text, of tokens and of the grammar. The function does nothing: its clause
//! is the law.
ghost use Rattle.st_ast.specs.declared.declarations.Program.{Program};
ghost use Rattle.st_canonical_laws.specs.Trees.{IsOfGrammar, ReadsBack};

/// The canonical text of a tree of the grammar has tokens, and they spell the same tree but for places.
pub fn canonical_text_reads_back()
    ensures { (p : Program) → IsOfGrammar p → ReadsBack p }
{}
