//! JSON in and out: reading, printing, shapes, and the streams of bytes that programs read and write.
//!
//! Reading and printing are those of [`jb_read`] and [`jb_print`], shapes those of [`jb_shape`], under this crate's name;
//! [`ValueBytes`] has reading and printing as methods, and [`laws`] says that what is printed reads back, and that what
//! a value was made of comes back from it.
//! A [`Source`] and a [`Sink`] say what became of the bytes, where they tell them, and count their faults, so that
//! a caller's contract can name the cause of each failure.
//!
//! A program that reads its input to the end and writes one line says by a [`Command`] what its words ask for and what it
//! replies to the bytes of its input; [`serve`] does the rest in one order, and its contract names the cause of every exit
//! status.
#![tactic(auto)]

mod command;
mod failing;
pub mod laws;
pub mod level_laws;
mod memory_sink;
mod memory_source;
mod proper;
mod serving;
mod sink;
mod source;
mod stream;
mod value_bytes;

pub use command::{Command, Reply};
pub use jb_print::{to_bytes, to_pretty, to_text};
pub use jb_read::{FaultKind, ReadFault, from_bytes, from_bytes_whole, from_str};
pub use jb_shape::{
    FromValue, MapKey, Members, ShapeError, ToValue, from_value, member, read_members,
    read_variant, to_value,
};
pub use jb_tree::Memory;
pub use memory_sink::MemorySink;
pub use memory_source::MemorySource;
pub use proper::holds_proper;
pub use serving::{
    ANSWERED, MISUSED, NO_MEMORY, REFUSED, SINK_FAILED, SOURCE_FAILED, TOO_LONG, serve,
};
pub use sink::{Sink, SinkFault, SureSink, WriterSink};
pub use source::{ReaderSource, Source, SourceFault, SureSource};
pub use stream::{INPUT_LIMIT, InputFault, read_to_end, write_all};
pub use value_bytes::ValueBytes;
