//! The real devices: files and a writer, as the shelf and the sink that the program works on.
//!
//! - [`DiskShelf`] has the files of the disk by their paths. Its contracts say nothing of what they contain.
//! - [`OutSink`] hands what it is given to a writer, such as the standard output.
#![tactic(auto)]

mod disk_shelf;
mod out_sink;

pub use disk_shelf::DiskShelf;
pub use out_sink::OutSink;
