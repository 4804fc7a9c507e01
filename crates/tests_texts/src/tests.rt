//! Worked rows over words, journals and reports.

mod journals;
mod reports;
mod words;
