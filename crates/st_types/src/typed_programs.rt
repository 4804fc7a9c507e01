//! A program whose types were checked.
ghost use Rattle.std.specs.Prelude.{◌≡◌, ◌<◌, ◌≤◌, true, [], length, slice_get, Some, option_map};
ghost use Rattle.st_events.specs.Shape as shapes;
ghost use Rattle.st_lex.specs.Spellings.{is_name};
ghost use Rattle.st_resolved.specs.Views.{program_of};
ghost use Rattle.st_resolved.specs.WellFormed.{IsWellFormed};
ghost use Rattle.st_types.specs.Limits.{IsWithinLimits};
ghost use Rattle.st_types.specs.Rules.{faults_of, resolution, shape_of};
ghost use Rattle.st_types.specs.TypedPrograms.{IsTyped};

use st_ast::Program;
use st_events::{MOST_CHECKS, MOST_MUTATORS, Shape, Site};
use st_resolved::Resolved;
use std::marker::Model;

/// How many of each a program has.
#[derive(Clone, Copy, Debug, PartialEq, Eq)]
pub struct Counts {
    pub classes: u16,
    pub preds: u16,
    pub procs: u16,
    pub threads: u16,
    pub checks: u16,
}

/// A tree that keeps the rules, the same with numbers in the place of names, and its shape. Only `check_types` makes one.
#[derive(Drop)]
pub struct Typed {
    program: Program,
    resolved: Resolved,
    shape: Shape,
}

impl Model for Typed {
    ghost use Rattle.std.specs.Coded.{codes};
    ghost use Rattle.st_ast.specs.contracts.declarations.Program as tree;
    ghost use Rattle.st_resolved.specs.contracts.programs.Resolved as numbers;
    ghost use Rattle.st_types.specs.TypedPrograms.{TypedView, IsTyped};

    ghost Value = { TypedView };

    ghost coded = { Prim.hlevel (codes, tree.the_row.coded, numbers.the_row.coded) };

    ghost view = { λ t. record { program = t.program; resolved = t.resolved; shape = t.shape } };

    ghost invariant = { λ t. IsTyped (record { program = t.program; resolved = t.resolved; shape = t.shape }) };
}

impl Typed {
    /// A tree that keeps the rules, with its resolution and its shape.
    pub(crate) fn make(program: Program, resolved: Resolved, shape: Shape) -> Typed
        requires { IsTyped (record { program = program; resolved = resolved; shape = shape }) }
        ensures { result ≡ record { program = program; resolved = resolved; shape = shape } }
    {
        Typed {
            program,
            resolved,
            shape,
        }
    }

    /// The shape of the program.
    pub fn shape(&self) -> &Shape
        ensures shape { result.now ≡ self.now.shape }
        ensures of_tree { self.now.shape ≡ shape_of self.now.program }
        ensures fits { shapes.IsWithinLimits self.now.shape }
    {
        &self.shape
    }

    /// The tree. It is within the limits and keeps every rule.
    pub fn program(&self) -> &Program
        ensures program { result.now ≡ self.now.program }
        ensures limits { IsWithinLimits self.now.program }
        ensures rules { faults_of self.now.program ≡ [] }
    {
        &self.program
    }

    /// The program with numbers in the place of names: each number names something, and every kind fits.
    pub fn resolved(&self) -> &Resolved
        ensures resolved { result.now ≡ self.now.resolved }
        ensures of_tree { program_of self.now.resolved ≡ resolution self.now.program }
        ensures well_formed { IsWellFormed self.now.shape (program_of self.now.resolved) }
    {
        &self.resolved
    }

    /// How many threads there are.
    pub fn threads(&self) -> u8
        ensures count { result ≡ length self.now.program.threads }
        ensures resolved { result ≡ length (program_of self.now.resolved).threads }
        ensures few { result ≤ MOST_MUTATORS }
    {
        self.program.threads.len() as u8
    }

    /// The name of a thread: a letter or `_`, then letters, digits and `_`, in ASCII.
    pub fn thread_name(&self, m: u8) -> &[u8]
        requires { m < length self.now.program.threads }
        ensures named { option_map (λ t. t.name) (slice_get self.now.program.threads m) ≡ Some result.now }
        ensures name { is_name result.now ≡ true }
    {
        self.program.threads.as_slice()[m as usize].name.as_slice()
    }

    /// How many check statements there are.
    pub fn checks(&self) -> u16
        ensures count { result ≡ length self.now.resolved.checks }
        ensures shaped { result ≡ length self.now.shape.checks }
        ensures few { result ≤ MOST_CHECKS }
    {
        self.resolved.checks.len() as u16
    }

    /// The place of the word `check` of a check statement.
    pub fn check_site(&self, site: u16) -> Site
        requires { site < length self.now.resolved.checks }
        ensures { option_map (λ c. c.at) (slice_get self.now.resolved.checks site) ≡ Some result }
    {
        self.resolved.checks.as_slice()[site as usize].at
    }

    /// How many of each the program has.
    pub fn counts(&self) -> Counts
        ensures classes { result.classes ≡ length self.now.program.classes }
        ensures preds { result.preds ≡ length self.now.program.preds }
        ensures procs { result.procs ≡ length self.now.program.procs }
        ensures threads { result.threads ≡ length self.now.program.threads }
        ensures checks { result.checks ≡ length self.now.resolved.checks }
    {
        Counts {
            classes: self.program.classes.len() as u16,
            preds: self.program.preds.len() as u16,
            procs: self.program.procs.len() as u16,
            threads: self.program.threads.len() as u16,
            checks: self.resolved.checks.len() as u16,
        }
    }
}
