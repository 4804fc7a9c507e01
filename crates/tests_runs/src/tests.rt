//! Worked rows over source texts.

mod audits;
mod calls;
mod changes;
mod events;
mod machines;
mod runs;
mod schedules;
mod texts;
