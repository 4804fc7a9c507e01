//! Places, verdicts and ends as texts: what the report, the JSON report and the journal say alike.
#![tactic(auto)]

mod texts;

pub use texts::{EndText, PlaceText, PlainText, VerdictText};
