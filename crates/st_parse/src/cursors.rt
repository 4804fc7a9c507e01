//! A cursor over the tokens of a text.
ghost use Rattle.std.specs.Prelude.{◌≡◌, ◌<◌, ◌≤◌, All, drop, length, slice_get, OnOk};
ghost use Rattle.st_lex.specs.Tokens.{IsToken};
ghost use Rattle.st_grammar_laws.specs.Reading as spec;
ghost use Rattle.st_parse.specs.Reads.{Reads};
ghost use Rattle.st_grammar.specs.Terminals.{next_sort, terminals_of};

use crate::stops::Stop;
use st_grammar::{Lexeme, Sort, same_sort, sort_in};
use st_lex::Token;
use std::marker::Model;

/// A place among the tokens of a text. Contracts see the list of the tokens that are left.
#[derive(Drop)]
pub struct Cursor<'t, 'a> {
    text: &'a [u8],
    tokens: &'t [Token],
    /// How many of them are taken.
    taken: usize,
    /// The sort of the next one; at the end, that of a token that no rule uses. Each token is looked up once.
    sort: Sort,
}

impl<'t, 'a> Model for Cursor<'t, 'a> {
    ghost use Rattle.std.specs.Prelude.{List, drop};
    ghost use Rattle.st_grammar.specs.Terminals.{Terminal, terminals_of};
    ghost use Rattle.st_parse.specs.Places.{IsPlace};

    ghost Value = { List Terminal };

    ghost view = { λ cursor. drop cursor.taken (terminals_of cursor.text.now cursor.tokens.now) };

    ghost invariant = { λ cursor. IsPlace cursor.text.now cursor.tokens.now cursor.taken cursor.sort };
}

impl<'t, 'a> Cursor<'t, 'a> {
    /// Before the first of these tokens of the text.
    pub fn make(text: &'a [u8], tokens: &'t [Token]) -> Cursor<'t, 'a>
        requires { All (IsToken text.now) tokens.now }
        ensures { result ≡ terminals_of text.now tokens.now }
    {
        Cursor {
            text,
            tokens,
            taken: 0,
            sort: sort_at(text, tokens, 0),
        }
    }

    /// The next token, which is not taken.
    pub fn next(&self) -> Option<Lexeme<'a>>
        ensures { result ≡ slice_get self.now 0 }
    {
        match self.tokens.get(self.taken) {
            Some(token) => Some(Lexeme::with_sort(self.text, token, self.sort)),
            None => None,
        }
    }

    /// The sort of the next token; at the end, that of a token that no rule uses.
    pub fn next_sort(&self) -> Sort
        ensures { result ≡ next_sort self.now }
    {
        self.sort
    }

    /// Whether the next token has the sort.
    #[tactic(auto, unfolding(st_grammar_laws::specs::Reading::sees))]
    pub fn sees(&self, sort: Sort) -> bool
        ensures { result ≡ spec.sees sort self.now }
    {
        same_sort(self.next_sort(), sort)
    }

    /// Takes the next token, whatever its sort.
    #[tactic(auto, unfolding(st_grammar_laws::specs::Reading::take_any))]
    pub fn take(&mut self) -> Result<Lexeme<'a>, Stop>
        ensures reads { Reads (λ lexeme. lexeme) (spec.take_any self.old) result self.new }
        ensures shorter { OnOk result (length self.new < length self.old) }
    {
        match self.tokens.get(self.taken) {
            Some(token) => {
                let lexeme = Lexeme::with_sort(self.text, token, self.sort);
                self.taken += 1;
                self.sort = sort_at(self.text, self.tokens, self.taken);
                Ok(lexeme)
            }
            None => Err(Stop::Fault),
        }
    }

    /// Takes the next token, which is to have the sort.
    #[tactic(auto, unfolding(st_grammar_laws::specs::Reading::expect, st_grammar_laws::specs::Reading::sees, st_grammar_laws::specs::Reading::take_any))]
    pub fn expect(&mut self, sort: Sort) -> Result<Lexeme<'a>, Stop>
        ensures reads { Reads (λ lexeme. lexeme) (spec.expect sort self.old) result self.new }
        ensures shorter { OnOk result (length self.new < length self.old) }
    {
        if self.sees(sort) {
            self.take()
        } else {
            Err(Stop::Fault)
        }
    }
}

/// The sort of the token at an index; after the last one, that of a token that no rule uses.
fn sort_at(text: &[u8], tokens: &[Token], index: usize) -> Sort
    requires { All (IsToken text.now) tokens.now }
    ensures { result ≡ next_sort (drop index (terminals_of text.now tokens.now)) }
{
    match tokens.get(index) {
        Some(token) => sort_in(text, token),
        None => Sort::Other,
    }
}
