//! The outside: files that are read and sinks that are written, each counting its failures.
#![tactic(auto)]

mod answers;
mod count;
mod files;
mod mem_files;
mod mem_sink;
mod real_files;
mod real_sink;
mod sink;
mod sure_sink;

pub use answers::{FileAnswer, SinkAnswer};
pub use files::Files;
pub use mem_files::MemFiles;
pub use mem_sink::MemSink;
pub use real_files::RealFiles;
pub use real_sink::RealSink;
pub use sink::Sink;
pub use sure_sink::SureSink;

#[cfg(test)]
mod tests;
