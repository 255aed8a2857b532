//! What every crate stands on: texts, lists and the outside.
//!
//! A `Text` and a `ListOf` are in contracts the list of their characters and items, and no two
//! pairs of a `Keyed` have the same key. `Files` and `Sink` say what a call read, took and opened,
//! where this is told, and that a call fails only with a rise of its count; `put` and `read_whole`
//! hand that on for a whole piece and a whole file. The forms in memory tell all, and the real
//! forms of a disk and of the system's streams tell nothing of content. `Engines` answer for
//! patterns and addresses what the definitions of `regex` and `url` say, and refuse only with a rise
//! of their count.
//!
//! A law, `keys_lead_to_their_pairs`, says of whole lists of pairs what the lookups by key mean.
#![tactic(auto)]

mod address;
mod disk_files;
mod engines;
mod handed;
mod key_places;
mod keyed;
mod laws;
mod list;
mod mem_files;
mod mem_sink;
mod memory;
mod out_sink;
mod outside;
mod reading;
mod status;
mod text;
mod writing;

pub use address::Address;
pub use disk_files::DiskFiles;
pub use engines::{EngineEnd, Engines};
pub use key_places::MAX_SCANNED;
pub use keyed::Keyed;
pub use laws::keys_lead_to_their_pairs;
pub use list::ListOf;
pub use mem_files::MemFiles;
pub use mem_sink::MemSink;
pub use memory::OutOfMemory;
pub use out_sink::{OutSink, Stream};
pub use outside::{FileFailed, Files, Sink, SinkFailed};
pub use reading::{ReadEnd, read_whole};
pub use status::Status;
pub use text::{Text, Texts};
pub use writing::put;
