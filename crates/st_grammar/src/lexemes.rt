//! Tokens as the grammar sees them.
ghost use Rattle.std.specs.Prelude.{◌≡◌, IfOk};
ghost use Rattle.st_lex.specs.Tokens.{IsToken, text_of};
ghost use Rattle.st_grammar.specs.Sorts as sorts;
ghost use Rattle.st_grammar.specs.Terminals.{terminal_of, value_of};

use crate::sorts::{Sort, sort_of};
use st_ast::Name;
use st_events::Site;
use st_lex::{Token, TokenKind};
use std::alloc::{AllocError, Global};
use std::marker::Model;

/// A token as the grammar sees it. It borrows its bytes of the text.
#[derive(Drop)]
pub struct Lexeme<'a> {
    sort: Sort,
    bytes: &'a [u8],
    value: i64,
    site: Site,
}

impl<'a> Model for Lexeme<'a> {
    ghost use Rattle.st_grammar.specs.Terminals.{Terminal};

    ghost Value = { Terminal };

    ghost view = { λ l. record { sort = l.sort; bytes = l.bytes.now; value = l.value; site = l.site } };
}

impl<'a> Lexeme<'a> {
    /// The token of the text.
    pub fn make(text: &'a [u8], token: &Token) -> Lexeme<'a>
        requires { IsToken text.now token.now }
        ensures { result ≡ terminal_of text.now token.now }
    {
        Lexeme::with_sort(text, token, sort_in(text, token))
    }

    /// The token of the text, whose sort is known.
    pub fn with_sort(text: &'a [u8], token: &Token, sort: Sort) -> Lexeme<'a>
        requires token { IsToken text.now token.now }
        requires sort { sort ≡ sorts.sort_of token.now.kind (text_of text.now token.now) }
        ensures { result ≡ terminal_of text.now token.now }
    {
        Lexeme {
            sort,
            bytes: &text[token.start as usize..token.end as usize],
            value: value_of(token.kind),
            site: token.site,
        }
    }

    /// What the grammar asks of it.
    pub fn sort(&self) -> Sort
        ensures { result ≡ self.now.sort }
    {
        self.sort
    }

    /// The value of a number; of every other token 0.
    pub fn value(&self) -> i64
        ensures { result ≡ self.now.value }
    {
        self.value
    }

    /// Its place.
    pub fn site(&self) -> Site
        ensures { result ≡ self.now.site }
    {
        self.site
    }

    /// A copy of its bytes, as a name.
    pub fn name(&self, alloc: Global) -> Result<Name, AllocError>
        ensures { IfOk result (λ name. name ≡ self.now.bytes) }
    {
        Name::from_slice(alloc, self.bytes)
    }
}

/// The value of a number; of every other token 0.
fn value_of(kind: TokenKind) -> i64
    ensures { result ≡ value_of kind }
{
    match kind {
        TokenKind::Number(value) => value,
        _ => 0,
    }
}

/// The sort of a token of the text.
pub fn sort_in(text: &[u8], token: &Token) -> Sort
    requires { IsToken text.now token.now }
    ensures { result ≡ sorts.sort_of token.now.kind (text_of text.now token.now) }
{
    sort_of(token.kind, &text[token.start as usize..token.end as usize])
}
