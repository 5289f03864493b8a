//! Files and a sink as traits, so that what a compiler reads and writes can be stated and proved.
//!
//! Five types implement them. [`MemFiles`] and [`MemSink`] keep their bytes in memory and fail where
//! they are told to, [`SureFiles`] never fails, and [`HostFiles`] and [`HostSink`] adapt the files and
//! the standard output of the system, of whose content no contract can speak.
#![tactic(auto)]

mod answers;
mod counts;
mod entries;
mod files_trait;
mod host_files;
mod host_sink;
mod mem_files;
mod mem_sink;
mod reading;
mod sink_trait;
mod sure_files;
#[cfg(test)]
mod tests;
mod writing;

pub use answers::{FileFault, Got};
pub use files_trait::Files;
pub use host_files::HostFiles;
pub use host_sink::HostSink;
pub use mem_files::MemFiles;
pub use mem_sink::MemSink;
pub use sink_trait::Sink;
pub use sure_files::SureFiles;
