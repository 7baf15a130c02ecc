//! Answers to what the steps of a request ask.

ghost use Rattle.std.specs.Prelude.{◌≡◌, None, Some};
ghost use Rattle.gql_c.specs.Tables.{AddsFirst, AddsHeld, AddsMore, AddsTo, TellsAdding, status_of};

use crate::handle::Handle;
use crate::held::Held;
use crate::status::{ANSWERED, NO_MEMORY, UNREAD, WRONG_HANDLE};
use crate::store::{put_into, take_from};
use bytes::Bytes;
use gql_engine::Refused;
use gql_rounds::{Answers, read_answers};
use std::alloc::Global;

/// What comes of adding answers.
#[derive(Clone, Copy)]
pub enum Adding {
    /// They are added.
    Added,
    /// Memory ran out.
    NoMemory,
    /// A handle does not hold what the call takes.
    WrongHandle,
    /// Bytes tell no answers.
    Unread,
}

/// Adds answers to those that a handle holds. A handle that holds nothing comes to hold them. What was told before stays.
///
/// The text is a JSON list of `{"object":7,"field":"author","arguments":{},"value":null}`, as [`read_answers`] reads it, nested at most
/// 127 deep.
///
/// [`UNREAD`](crate::UNREAD) exactly where the bytes are no such text, and [`WRONG_HANDLE`](crate::WRONG_HANDLE) exactly where the handle
/// holds something else than answers: it holds what it held. [`NO_MEMORY`](crate::NO_MEMORY) only when out of memory: a handle that held
/// nothing holds nothing, and to answers that were held the first of the text may have been added, in their order, and nothing else.
#[unsafe(no_mangle)]
pub extern "C" fn gql_answers_add(alloc: Global, answers: &mut Handle, text: &[u8]) -> u32
    ensures { TellsAdding (AddsHeld text.now answers.old.held answers.new.held) result }
{
    let adding = match take_from(alloc, answers) {
        Some(held) => add_more(alloc, held, text, answers),
        None => add_first(alloc, text, answers),
    };
    adding_status(adding)
}

fn adding_status(adding: Adding) -> u32
    ensures { result ≡ status_of adding }
{
    match adding {
        Adding::Added => ANSWERED,
        Adding::NoMemory => NO_MEMORY,
        Adding::WrongHandle => WRONG_HANDLE,
        Adding::Unread => UNREAD,
    }
}

/// Adds to what a handle held, which it holds again.
fn add_more(alloc: Global, held: Box<Held>, text: &[u8], answers: &mut Handle) -> Adding
    ensures { AddsHeld text.now (Some held.value) answers.new.held result }
{
    let mut held = held;
    let adding = add_held(alloc, text, held.as_mut());
    put_into(alloc, held, answers);
    adding
}

/// Has a handle that holds nothing hold the answers, if there are any to be told.
fn add_first(alloc: Global, text: &[u8], answers: &mut Handle) -> Adding
    requires { answers.old.held ≡ None }
    ensures { AddsFirst text.now answers.new.held result }
{
    let mut table = Answers::new(alloc);
    match add_text(alloc, text, &mut table) {
        Adding::Added => match Box::new(alloc, Held::Answers(table)) {
            Ok(held) => {
                put_into(alloc, held, answers);
                Adding::Added
            }
            Err(_) => Adding::NoMemory,
        },
        other => other,
    }
}

/// Adds the answers that bytes tell to what is held, if that is answers.
fn add_held(alloc: Global, text: &[u8], held: &mut Held) -> Adding
    ensures { AddsMore text.now held.old held.new result }
{
    match held {
        Held::Answers(table) => add_text(alloc, text, table),
        _ => Adding::WrongHandle,
    }
}

/// Adds the answers that bytes tell.
fn add_text(alloc: Global, text: &[u8], table: &mut Answers) -> Adding
    ensures { AddsTo text.now table.old table.new result }
{
    match Bytes::copy_from_slice(alloc, text) {
        Ok(bytes) => add_bytes(alloc, &bytes, table),
        Err(_) => Adding::NoMemory,
    }
}

fn add_bytes(alloc: Global, bytes: &Bytes, table: &mut Answers) -> Adding
    ensures { AddsTo bytes.now table.old table.new result }
{
    match read_answers(alloc, bytes, table) {
        Ok(()) => Adding::Added,
        Err(Refused::Fault(_)) => Adding::Unread,
        Err(Refused::Memory) => Adding::NoMemory,
    }
}
