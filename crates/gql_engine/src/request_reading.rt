//! What is said of bytes that are no JSON text.

ghost use Rattle.std.specs.Prelude.{◌≡◌, IfOk};
ghost use Rattle.gql_engine.specs.NotAsked.{read_message as message_of};

use jb_read::ReadFault;
use jb_tree::{Memory, Text};
use std::alloc::Global;

/// The text of the refusal of bytes that are no JSON text. `Err` only when out of memory.
pub fn read_message(alloc: Global, fault: ReadFault) -> Result<Text, Memory>
    ensures { IfOk result (λ text. text ≡ message_of fault) }
{
    let kind = fault.kind.name();
    let place = fault.place;
    Ok(Text::from_string(format!(in alloc; "request: {kind} at byte {place}")?))
}
