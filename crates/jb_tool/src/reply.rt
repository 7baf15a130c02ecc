//! The reply to the bytes of a text: its value's text, or where it breaks.

ghost use Rattle.std.specs.Prelude.{◌≡◌, IfOk};
ghost use Rattle.jb_tool.specs.Reply.{fault_text};
ghost use Rattle.jb_tool.specs.Style.{printed};

use crate::style::Style;
use bytes::Bytes;
use jb_io::{Command, Reply};
use jb_print::{to_bytes, to_pretty};
use jb_read::{ReadFault, from_bytes_whole};
use jb_tree::{Memory, Refused, Value};
use std::alloc::{AllocError, Global};

impl Command for Style {
    ghost use Rattle.jb_tool.specs.Reply.{Prints, Refuses};

    ghost answers = { Prints };

    ghost refuses = { λ _. Refuses };

    fn reply(&self, alloc: Global, bytes: &Bytes) -> Result<Reply, Memory> {
        match from_bytes_whole(alloc, bytes) {
            Ok(value) => Ok(Reply::Answer(printed(alloc, *self, &value)?)),
            Err(Refused::Fault(fault)) => Ok(Reply::Refusal(fault_text(alloc, fault)?)),
            Err(Refused::Memory) => Err(AllocError),
        }
    }
}

fn printed(alloc: Global, style: Style, value: &Value) -> Result<Bytes, Memory>
    ensures { IfOk result (λ text. text ≡ printed style value.now) }
{
    match style {
        Style::Compact => to_bytes(alloc, value),
        Style::Pretty => {
            let text = to_pretty(alloc, value)?;
            Ok(Bytes::from_string(text.into_string())?)
        }
    }
}

/// The kind of a fault and its place.
fn fault_text(alloc: Global, fault: ReadFault) -> Result<Bytes, Memory>
    ensures { IfOk result (λ text. text ≡ fault_text fault) }
{
    let kind = fault.kind.name();
    let place = fault.place;
    let text = format!(in alloc; "{kind} at byte {place}")?;
    Ok(Bytes::from_string(text)?)
}
