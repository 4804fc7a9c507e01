//! Verdicts, ends and places as texts.
ghost use Rattle.std.specs.Prelude.{Some};
ghost use Rattle.st_texts.specs.Texts.{verdict_text, plain_text, end_text, place_text};

use st_events::{End, Plain, Site, Verdict};
use std::fmt;

/// A place, as `LINE:COLUMN`.
#[derive(Clone, Copy)]
pub struct PlaceText(pub Site);

/// A value of a check, as a text.
#[derive(Clone, Copy)]
pub struct PlainText(pub Plain);

/// A verdict, as a text.
#[derive(Clone, Copy)]
pub struct VerdictText(pub Verdict);

/// An end of a thread, as a text.
#[derive(Clone, Copy)]
pub struct EndText(pub End);

impl fmt::Display for PlaceText {
    ghost output = { λ text. Some (place_text text.0) };

    fn fmt<W: fmt::Write>(&self, f: &mut fmt::Formatter<W>) -> fmt::Result {
        let Site { line, column } = self.0;
        write!(f, "{line}:{column}")
    }
}

impl fmt::Display for PlainText {
    ghost output = { λ text. Some (plain_text text.0) };

    fn fmt<W: fmt::Write>(&self, f: &mut fmt::Formatter<W>) -> fmt::Result {
        match self.0 {
            Plain::Holds => write!(f, "holds"),
            Plain::Fails => write!(f, "fails"),
            Plain::Null(place) => write!(f, "fault null {}", PlaceText(place)),
            Plain::Divide(place) => write!(f, "fault divide {}", PlaceText(place)),
            Plain::Overflow(place) => write!(f, "fault overflow {}", PlaceText(place)),
            Plain::Spent => write!(f, "spent"),
            Plain::Deep => write!(f, "deep"),
        }
    }
}

impl fmt::Display for VerdictText {
    ghost output = { λ text. Some (verdict_text text.0) };

    fn fmt<W: fmt::Write>(&self, f: &mut fmt::Formatter<W>) -> fmt::Result {
        match self.0 {
            Verdict::Plain(plain) => write!(f, "{}", PlainText(plain)),
            Verdict::Abandoned { obj } => write!(f, "abandoned {obj}"),
        }
    }
}

impl fmt::Display for EndText {
    ghost output = { λ text. Some (end_text text.0) };

    fn fmt<W: fmt::Write>(&self, f: &mut fmt::Formatter<W>) -> fmt::Result {
        match self.0 {
            End::Finished => write!(f, "finished"),
            End::Null(place) => write!(f, "fault null {}", PlaceText(place)),
            End::Divide(place) => write!(f, "fault divide {}", PlaceText(place)),
            End::Overflow(place) => write!(f, "fault overflow {}", PlaceText(place)),
            End::HeapFull(place) => write!(f, "fault heap full {}", PlaceText(place)),
            End::EventsSpent => write!(f, "fault events spent"),
            End::ProcDeep(place) => write!(f, "fault deep {}", PlaceText(place)),
        }
    }
}
