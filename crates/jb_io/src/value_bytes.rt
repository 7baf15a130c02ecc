//! Reading and printing as methods.

ghost use Rattle.std.specs.Prelude.{◌≡◌, ℕ, List, Result, Ok, Err, IfOk, IfErr};
ghost use Rattle.jb_io.specs.Answered.{Answered};
ghost use Rattle.jb_print.specs.Compact.{compact};
ghost use Rattle.jb_print.specs.Pretty.{pretty};
ghost use Rattle.jb_read.specs.Faults.{FrontFault, IsFaultOf, IsFrontFaultOf, JsonFault};
ghost use Rattle.jb_read.specs.Spelling.{JsonFront, JsonText};
ghost use Rattle.jb_read.specs.Texts.{text_front, text_value};
ghost use Rattle.jb_read.specs.declared.fault.ReadFault.{ReadFault};

use bytes::Bytes;
use jb_read::ReadFault;
use jb_tree::{Memory, Refused, Text, Value};
use std::alloc::Global;

/// A type whose values are read from JSON texts and printed as such (RFC 8259).
pub trait ValueBytes: Sized {
    // What reading gives of the value that a text begins with, and of a whole text: the value, or the first fault.
    ghost front_read: { List ℕ → Result Self ReadFault };

    ghost whole_read: { List ℕ → Result Self ReadFault };

    // The bytes begin with a text of the value, or are one.
    ghost is_front: { List ℕ → Self → Type 0 };

    ghost is_text: { List ℕ → Self → Type 0 };

    // The texts that are printed of a value.
    ghost compact_text: { Self → List ℕ };

    ghost pretty_text: { Self → List ℕ };

    /// The value that a text begins with, behind white space. What follows the value is ignored, but a number ends
    /// where no digit, `.`, `e` or `E` follows it.
    ///
    /// # Errors
    ///
    /// - [`Refused::Fault`] with the kind and place of the first fault from the left.
    /// - [`Refused::Memory`] where the value could not be held.
    fn from_bytes(alloc: Global, bytes: &Bytes) -> Result<Self, Refused<ReadFault>>
        ensures exact { Answered result (front_read bytes.now) }
        ensures spelled { IfOk result (is_front bytes.now) }
        ensures only { (v : Self) → is_front bytes.now v → Answered result (Ok v) }
        ensures broken { IfErr result (IsFrontFaultOf bytes.now) }
        ensures refused { (f : ReadFault) → FrontFault bytes.now f → Answered result (Err f) };

    /// The one value of a text, between white space. Anything else behind it is a fault.
    ///
    /// # Errors
    ///
    /// As for [`ValueBytes::from_bytes`].
    fn from_bytes_whole(alloc: Global, bytes: &Bytes) -> Result<Self, Refused<ReadFault>>
        ensures exact { Answered result (whole_read bytes.now) }
        ensures spelled { IfOk result (is_text bytes.now) }
        ensures only { (v : Self) → is_text bytes.now v → Answered result (Ok v) }
        ensures broken { IfErr result (IsFaultOf bytes.now) }
        ensures refused { (f : ReadFault) → JsonFault bytes.now f → Answered result (Err f) };

    /// As [`ValueBytes::from_bytes_whole`], over a copy of `text`.
    fn from_str(alloc: Global, text: &str) -> Result<Self, Refused<ReadFault>>
        ensures exact { Answered result (whole_read text.now) }
        ensures spelled { IfOk result (is_text text.now) }
        ensures only { (v : Self) → is_text text.now v → Answered result (Ok v) }
        ensures broken { IfErr result (IsFaultOf text.now) }
        ensures refused { (f : ReadFault) → JsonFault text.now f → Answered result (Err f) };

    /// The compact text of the value, without white space. `Err` only when out of memory.
    fn to_bytes(&self, alloc: Global) -> Result<Bytes, Memory>
        ensures { IfOk result (λ bytes. bytes ≡ compact_text self.now) };

    /// The same text as a [`Text`]. `Err` only when out of memory.
    fn to_text(&self, alloc: Global) -> Result<Text, Memory>
        ensures { IfOk result (λ text. text ≡ compact_text self.now) };

    /// The text with a line for each item and pair, two spaces deeper for each level. `Err` only when out of memory.
    fn to_pretty(&self, alloc: Global) -> Result<Text, Memory>
        ensures { IfOk result (λ text. text ≡ pretty_text self.now) };
}

/// By the functions of these names.
impl ValueBytes for Value {
    ghost front_read = { text_front };

    ghost whole_read = { text_value };

    ghost is_front = { JsonFront };

    ghost is_text = { JsonText };

    ghost compact_text = { compact };

    ghost pretty_text = { pretty };

    fn from_bytes(alloc: Global, bytes: &Bytes) -> Result<Value, Refused<ReadFault>> {
        jb_read::from_bytes(alloc, bytes)
    }

    fn from_bytes_whole(alloc: Global, bytes: &Bytes) -> Result<Value, Refused<ReadFault>> {
        jb_read::from_bytes_whole(alloc, bytes)
    }

    fn from_str(alloc: Global, text: &str) -> Result<Value, Refused<ReadFault>> {
        jb_read::from_str(alloc, text)
    }

    fn to_bytes(&self, alloc: Global) -> Result<Bytes, Memory> {
        jb_print::to_bytes(alloc, self)
    }

    fn to_text(&self, alloc: Global) -> Result<Text, Memory> {
        jb_print::to_text(alloc, self)
    }

    fn to_pretty(&self, alloc: Global) -> Result<Text, Memory> {
        jb_print::to_pretty(alloc, self)
    }
}
