//! The limits on tokens: how many braces are open, and how many tokens stand between two of `;`, `{` and `}`.
ghost use Rattle.std.specs.Prelude.{◌≡◌, All, None};
ghost use Rattle.st_lex.specs.Tokens.{IsToken};
ghost use Rattle.st_grammar.specs.Terminals.{terminals_of};
ghost use Rattle.st_grammar.specs.TokenLimits as spec;

use crate::lexemes::Lexeme;
use crate::limits::MOST_TOKENS_BETWEEN;
use crate::sorts::Sort;
use st_ast::MOST_OPEN_BRACES;
use st_events::Site;
use st_lex::Token;

/// Why a token is above a limit.
#[derive(Clone, Copy)]
pub enum Over {
    /// More than `MOST_OPEN_BRACES` braces would be open.
    Deep,
    /// It is more than `MOST_TOKENS_BETWEEN` tokens after the last of `;`, `{`, `}` or the start.
    Long,
}

/// Counts of the tokens so far.
#[derive(Clone, Copy)]
pub struct TokenCounts {
    /// The braces that are open.
    pub braces: usize,
    /// The tokens since the last of `;`, `{`, `}` or the start.
    pub since: usize,
}

impl TokenCounts {
    /// Why one more token would be above a limit, with its place.
    fn excess(self, lexeme: &Lexeme<'_>) -> Option<(Over, Site)>
        ensures { result ≡ spec.excess self lexeme.now }
    {
        match lexeme.sort() {
            Sort::OpenBrace => (self.braces >= MOST_OPEN_BRACES).then_some((
                Over::Deep,
                lexeme.site(),
            )),
            Sort::CloseBrace | Sort::Semicolon => None,
            _ => (self.since >= MOST_TOKENS_BETWEEN).then_some((Over::Long, lexeme.site())),
        }
    }

    /// Counts one more token, which is above no limit.
    fn count(&mut self, lexeme: &Lexeme<'_>)
        requires { spec.excess self.old lexeme.now ≡ None }
        ensures { self.new ≡ spec.counted self.old lexeme.now }
    {
        match lexeme.sort() {
            Sort::OpenBrace => {
                self.braces += 1;
                self.since = 0;
            }
            Sort::CloseBrace => {
                self.braces = self.braces.saturating_sub(1);
                self.since = 0;
            }
            Sort::Semicolon => self.since = 0,
            _ => self.since += 1,
        }
    }
}

/// The first token of the text above a limit, and why.
#[tactic(auto, unfolding(crate::specs::TokenLimits::first_over))]
pub fn first_over(text: &[u8], tokens: &[Token]) -> Option<(Over, Site)>
    requires { All (IsToken text.now) tokens.now }
    ensures { result ≡ spec.first_over (terminals_of text.now tokens.now) }
{
    let mut counts = TokenCounts {
        braces: 0,
        since: 0,
    };
    for token in tokens {
        let lexeme = Lexeme::make(text, token);
        match counts.excess(&lexeme) {
            Some(over) => return Some(over),
            None => counts.count(&lexeme),
        }
    }
    None
}
