//! Values in more handles than one.

ghost use Rattle.std.specs.Prelude.{◌≡◌, Some, option_map};
ghost use Rattle.gql_c.specs.Outcomes.{Tells};
ghost use Rattle.gql_c.specs.Shares.{Shares, SharesHeld};

use crate::handle::Handle;
use crate::held::Held;
use crate::outcome::Outcome;
use crate::store::{put_back, take_from};
use crate::told::tell;
use std::alloc::Global;
use std::sync::Arc;

/// Has the second handle hold the value of the first too: a schema, a query or data. What the second held is let go.
///
/// [`WRONG_HANDLE`](crate::WRONG_HANDLE) exactly where the first handle holds none of these, and [`NO_MEMORY`](crate::NO_MEMORY) only when
/// out of memory.
#[unsafe(no_mangle)]
pub extern "C" fn gql_share(alloc: Global, from: &mut Handle, to: &mut Handle) -> u32
    ensures same { from.new.held ≡ from.old.held }
    ensures told { Tells (Shares from.old.held) result to.new.held }
{
    let held = take_from(alloc, from);
    let outcome = share_held(alloc, &held);
    put_back(alloc, held, from);
    tell(alloc, outcome, to)
}

/// What a handle holds, once more.
fn share_held(alloc: Global, held: &Option<Box<Held>>) -> Outcome
    ensures { Shares (option_map (λ b. b.value) held.now) result }
{
    match held {
        Some(held) => share(alloc, held.as_ref()),
        None => Outcome::WrongHandle,
    }
}

fn share(alloc: Global, held: &Held) -> Outcome
    ensures { SharesHeld held.now result }
{
    match held {
        Held::Schema(schema) => match Arc::try_clone(schema) {
            Ok(schema) => Outcome::answered(alloc, Held::Schema(schema)),
            Err(_) => Outcome::NoMemory,
        },
        Held::Query(query) => match Arc::try_clone(query) {
            Ok(query) => Outcome::answered(alloc, Held::Query(query)),
            Err(_) => Outcome::NoMemory,
        },
        Held::Data(data) => match Arc::try_clone(data) {
            Ok(data) => Outcome::answered(alloc, Held::Data(data)),
            Err(_) => Outcome::NoMemory,
        },
        Held::Reply(_) | Held::Answers(_) => Outcome::WrongHandle,
    }
}
