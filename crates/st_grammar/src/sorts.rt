//! What the grammar asks of a token: its sort. The tables say how keywords and marks are spelled; definitions read them.
ghost use Rattle.std.specs.Prelude.{◌≡◌, ◌≢◌, true, false, map};
ghost use Rattle.st_grammar.specs.Sorts as spec;

use st_lex::TokenKind;

/// What the grammar asks of a token.
#[derive(Clone, Copy, PartialEq, Eq)]
pub enum Sort {
    /// A name.
    Name,
    /// A number.
    Number,
    /// `class`
    Class,
    /// `shared`
    Shared,
    /// `pred`
    Pred,
    /// `proc`
    Proc,
    /// `thread`
    Thread,
    /// `var`
    Var,
    /// `if`
    If,
    /// `else`
    Else,
    /// `while`
    While,
    /// `check`
    Check,
    /// `new`
    New,
    /// `cas`
    Cas,
    /// `null`
    Null,
    /// `true`
    True,
    /// `false`
    False,
    /// `int`
    Int,
    /// `bool`
    Bool,
    /// `{`
    OpenBrace,
    /// `}`
    CloseBrace,
    /// `(`
    OpenParen,
    /// `)`
    CloseParen,
    /// `;`
    Semicolon,
    /// `:`
    Colon,
    /// `,`
    Comma,
    /// `.`
    Dot,
    /// `=`
    Assign,
    /// `==`
    Equal,
    /// `!=`
    NotEqual,
    /// `<`
    Less,
    /// `<=`
    LessEq,
    /// `>`
    Greater,
    /// `>=`
    GreaterEq,
    /// `+`
    Plus,
    /// `-`
    Minus,
    /// `*`
    Star,
    /// `/`
    Slash,
    /// `%`
    Percent,
    /// `!`
    Not,
    /// `&&`
    Both,
    /// `||`
    Either,
    /// `?`
    Question,
    /// A token that no rule uses, or no token at all.
    Other,
}

/// The keywords that rules use.
pub const KEYWORDS: [(&[u8], Sort); 17] = [
    (b"class", Sort::Class),
    (b"shared", Sort::Shared),
    (b"pred", Sort::Pred),
    (b"proc", Sort::Proc),
    (b"thread", Sort::Thread),
    (b"var", Sort::Var),
    (b"if", Sort::If),
    (b"else", Sort::Else),
    (b"while", Sort::While),
    (b"check", Sort::Check),
    (b"new", Sort::New),
    (b"cas", Sort::Cas),
    (b"null", Sort::Null),
    (b"true", Sort::True),
    (b"false", Sort::False),
    (b"int", Sort::Int),
    (b"bool", Sort::Bool),
];

/// The marks.
pub const MARKS: [(&[u8], Sort); 24] = [
    (b"{", Sort::OpenBrace),
    (b"}", Sort::CloseBrace),
    (b"(", Sort::OpenParen),
    (b")", Sort::CloseParen),
    (b";", Sort::Semicolon),
    (b":", Sort::Colon),
    (b",", Sort::Comma),
    (b".", Sort::Dot),
    (b"=", Sort::Assign),
    (b"==", Sort::Equal),
    (b"!=", Sort::NotEqual),
    (b"<", Sort::Less),
    (b"<=", Sort::LessEq),
    (b">", Sort::Greater),
    (b">=", Sort::GreaterEq),
    (b"+", Sort::Plus),
    (b"-", Sort::Minus),
    (b"*", Sort::Star),
    (b"/", Sort::Slash),
    (b"%", Sort::Percent),
    (b"!", Sort::Not),
    (b"&&", Sort::Both),
    (b"||", Sort::Either),
    (b"?", Sort::Question),
];

/// Whether two sorts are one.
#[tactic(auto, unfolding(crate::specs::Sorts::same_sort))]
pub fn same_sort(a: Sort, b: Sort) -> bool
    ensures value { result ≡ spec.same_sort a b }
    ensures same { result ≡ true → a ≡ b }
    ensures other { result ≡ false → a ≢ b }
{
    a == b
}

/// The sort of a word of a table, by its bytes.
fn look_up(words: &[(&[u8], Sort)], bytes: &[u8]) -> Sort
    ensures { result ≡ spec.look_up (map (λ word. (word.0.now, word.1)) words.now) bytes.now }
{
    match words.split_first() {
        None => Sort::Other,
        Some((word, rest)) => {
            if word.0 == bytes {
                word.1
            } else {
                look_up(rest, bytes)
            }
        }
    }
}

#[tactic(auto, unfolding(crate::specs::Sorts::sort_of))]
/// The sort of a token of this kind with these bytes.
pub fn sort_of(kind: TokenKind, bytes: &[u8]) -> Sort
    ensures { result ≡ spec.sort_of kind bytes.now }
{
    match kind {
        TokenKind::Word => Sort::Name,
        TokenKind::Number(_) => Sort::Number,
        TokenKind::Key => look_up(&KEYWORDS, bytes),
        TokenKind::Mark => look_up(&MARKS, bytes),
    }
}
