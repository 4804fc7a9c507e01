//! What is written of a text that is refused.
ghost use Rattle.std.specs.Prelude.{◌≡◌, Some, IfOk};
ghost use Rattle.st_source.specs.Lines.{lex_text, parse_text, type_text, what_text, refusal_text};
ghost use Rattle.st_source.specs.Lines as spec;

use crate::errors::SourceError;
use st_events::NoMemory;
use st_lex::LexError;
use st_parse::{ParseError, What};
use st_texts::PlaceText;
use st_types::TypeError;
use std::alloc::Global;
use std::fmt;

/// The line that is written of a text that is refused so, with its newline.
#[tactic(auto, unfolding(crate::specs::Lines::refusal_line))]
pub fn refusal_line(alloc: Global, why: SourceError) -> Result<Vec<u8>, NoMemory>
    ensures { IfOk result (λ line. line.items ≡ spec.refusal_line why) }
{
    let line = format!(in alloc; "{why}\n")?;
    Ok(line.into_bytes())
}

impl fmt::Display for SourceError {
    ghost output = { λ why. Some (refusal_text why) };

    fn fmt<W: fmt::Write>(&self, f: &mut fmt::Formatter<W>) -> fmt::Result {
        match *self {
            SourceError::Memory => write!(f, "no memory"),
            SourceError::TooLong => write!(f, "source too long"),
            SourceError::Lex(why) => write!(f, "{}", LexText(why)),
            SourceError::Parse(why) => write!(f, "{}", ParseText(why)),
            SourceError::Types(why) => write!(f, "{}", TypeText(why)),
        }
    }
}

/// Why a text has no tokens, with its place.
#[derive(Clone, Copy)]
struct LexText(LexError);

/// Why tokens have no tree, with its place.
#[derive(Clone, Copy)]
struct ParseText(ParseError);

/// Why a tree is no program, with its place.
#[derive(Clone, Copy)]
struct TypeText(TypeError);

/// What there is too much of.
#[derive(Clone, Copy)]
struct WhatText(What);

impl fmt::Display for LexText {
    ghost output = { λ text. Some (lex_text text.0) };

    fn fmt<W: fmt::Write>(&self, f: &mut fmt::Formatter<W>) -> fmt::Result {
        match self.0 {
            LexError::Memory => write!(f, "no memory"),
            LexError::BadByte { at } => write!(f, "{} bad byte", PlaceText(at)),
            LexError::LongNumber { at } => write!(f, "{} long number", PlaceText(at)),
        }
    }
}

impl fmt::Display for ParseText {
    ghost output = { λ text. Some (parse_text text.0) };

    fn fmt<W: fmt::Write>(&self, f: &mut fmt::Formatter<W>) -> fmt::Result {
        match self.0 {
            ParseError::Memory => write!(f, "no memory"),
            ParseError::Unexpected { at } => write!(f, "{} unexpected", PlaceText(at)),
            ParseError::TooMany { what, at } => {
                write!(f, "{} too many {}", PlaceText(at), WhatText(what))
            }
            ParseError::TooDeep { at } => write!(f, "{} too deep", PlaceText(at)),
            ParseError::TooLong { at } => write!(f, "{} too long", PlaceText(at)),
        }
    }
}

impl fmt::Display for TypeText {
    ghost output = { λ text. Some (type_text text.0) };

    fn fmt<W: fmt::Write>(&self, f: &mut fmt::Formatter<W>) -> fmt::Result {
        match self.0 {
            TypeError::Memory => write!(f, "no memory"),
            TypeError::UnknownName { at } => write!(f, "{} unknown name", PlaceText(at)),
            TypeError::Twice { at } => write!(f, "{} declared twice", PlaceText(at)),
            TypeError::Mismatch { at, .. } => write!(f, "{} mismatch", PlaceText(at)),
            TypeError::WrongCount { at } => write!(f, "{} wrong count", PlaceText(at)),
            TypeError::NotPure { at } => write!(f, "{} not pure", PlaceText(at)),
            TypeError::NotHere { at } => write!(f, "{} not here", PlaceText(at)),
        }
    }
}

impl fmt::Display for WhatText {
    ghost output = { λ text. Some (what_text text.0) };

    fn fmt<W: fmt::Write>(&self, f: &mut fmt::Formatter<W>) -> fmt::Result {
        match self.0 {
            What::Classes => write!(f, "classes"),
            What::Fields => write!(f, "fields"),
            What::Preds => write!(f, "predicates"),
            What::Procs => write!(f, "procedures"),
            What::Threads => write!(f, "threads"),
            What::Params => write!(f, "parameters"),
            What::Locals => write!(f, "locals"),
            What::CheckArgs => write!(f, "arguments"),
            What::Checks => write!(f, "checks"),
        }
    }
}
