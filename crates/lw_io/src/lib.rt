//! Bytes in and bytes out, with faults by count.
//!
//! A stream that fails answers no more than `Failed`, and counts one more fault. So a contract
//! above can say that a failure came only where the count rose, whatever stands behind the stream.
//! The traits, the two streams over memory, the two over std's reader and writer, and the two calls
//! that read and write all are this project's own.
#![tactic(auto)]

mod failed;
mod faults;
mod mem_sink;
mod mem_source;
mod reading;
mod sink;
mod source;
mod std_sink;
mod std_source;
mod writing;

pub use failed::Failed;
pub use mem_sink::MemSink;
pub use mem_source::MemSource;
pub use reading::{ReadStop, read_all};
pub use sink::Sink;
pub use source::Source;
pub use std_sink::StdSink;
pub use std_source::StdSource;
pub use writing::write_all;
