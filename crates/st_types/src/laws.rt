//! What follows from the definitions of the rules. The functions do nothing: their clauses are the laws.
ghost use Rattle.std.specs.Prelude.{◌≡◌, ◌∷◌, ℕ, List, Some, true, false, map, length, slice_get};
ghost use Rattle.st_events.specs.declared.events.Site.{Site};
ghost use Rattle.st_ast.specs.declared.declarations.Program.{Program};
ghost use Rattle.st_ast.specs.declared.declarations.TypeName.{TypeName};
ghost use Rattle.st_ast.specs.declared.statements.Stmt as trees;
ghost use Rattle.st_ast.specs.declared.statements.Stmt.TheVariants as stmts;
ghost use Rattle.st_ast.specs.declared.statements.Value.{Value};
ghost use Rattle.st_types.specs.Names.{kind_of};
ghost use Rattle.st_types.specs.Statements.{Reached, walk, walk_all, walk_block};
ghost use Rattle.st_ast.specs.declared.expressions.Expr.{Expr};
ghost use Rattle.st_types.specs.Checked.{verdict};
ghost use Rattle.st_types.specs.Judged.{judged, typed};
ghost use Rattle.st_types.specs.Scopes.{ScopeView};

/// An expression, walked up to its first fault, comes to the first of its faults in the order of the walk; where it has
/// none, to what is seen of it.
pub fn first_fault_of_expressions()
    ensures { (s : ScopeView) (e : Expr) → typed s e ≡ verdict (judged s e).faults (judged s e).seen }
{}

/// A local is known behind its `var`: whatever statements `more` stand between it and a place of its block, it is there by its
/// number, with its name and kind, and may be named. Behind the end of its block it may be named no more.
pub fn known_behind_its_var()
    ensures to_the_end { (p : Program) (name : List ℕ) (name_site : Site) (kind : TypeName) (value : Value) (site : Site)
        (more : List trees.Stmt) (r : Reached)
        → slice_get (walk_all (map (walk p) (stmts.Var name name_site kind value site ∷ more)) r).reached.locals (length r.locals)
        ≡ Some (record { name = name; kind = kind_of p kind; is_known = true }) }
    ensures no_further { (p : Program) (name : List ℕ) (name_site : Site) (kind : TypeName) (value : Value) (site : Site)
        (more : List trees.Stmt) (r : Reached)
        → slice_get (walk_block (map (walk p) (stmts.Var name name_site kind value site ∷ more)) r).reached.locals (length r.locals)
        ≡ Some (record { name = name; kind = kind_of p kind; is_known = false }) }
{}
