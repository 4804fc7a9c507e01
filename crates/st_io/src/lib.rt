//! Where bytes come from and where they go: files that are read whole, a sink that takes the output piece by piece,
//! and the pace at which a run goes on. Traits with their promises, and the adapters of memory and of the system.
#![tactic(auto)]

mod errors;
mod giving;
mod memory_files;
mod memory_sinks;
mod pacing;
mod reading;
mod standard_output;
mod sure;
mod system_files;
mod taking;
#[cfg(test)]
mod tests;
mod writing;

pub use errors::{FilesFault, SinkFault};
pub use memory_files::MemFiles;
pub use memory_sinks::MemSink;
pub use pacing::{NoPace, Pace};
pub use reading::Files;
pub use standard_output::RealSink;
pub use sure::{SureFiles, SureSink};
pub use system_files::RealFiles;
pub use writing::Sink;
