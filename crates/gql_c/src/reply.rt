//! The bytes of replies.

ghost use Rattle.std.specs.Prelude.{◌≡◌, ◌≤◌, length, option_map, take};
ghost use Rattle.gql_c.specs.Replies.{bytes_held, bytes_of};

use crate::handle::Handle;
use crate::held::Held;
use crate::store::{put_back, take_from};
use std::alloc::Global;

/// How many bytes a reply has, and 0 where the handle holds no reply.
#[unsafe(no_mangle)]
pub extern "C" fn gql_reply_length(alloc: Global, reply: &mut Handle) -> usize
    ensures same { reply.new.held ≡ reply.old.held }
    ensures count { result ≡ length (bytes_held reply.old.held) }
{
    gql_reply_copy(alloc, reply, &mut [])
}

/// Copies the bytes of a reply if there is room for all, and gives their number: 0 where the handle holds no reply.
#[unsafe(no_mangle)]
pub extern "C" fn gql_reply_copy(alloc: Global, reply: &mut Handle, into: &mut [u8]) -> usize
    ensures same { reply.new.held ≡ reply.old.held }
    ensures count { result ≡ length (bytes_held reply.old.held) }
    ensures whole { result ≤ length into.old → take result into.new ≡ bytes_held reply.old.held }
{
    let held = take_from(alloc, reply);
    let count = copy_held(&held, into);
    put_back(alloc, held, reply);
    count
}

fn copy_held(held: &Option<Box<Held>>, into: &mut [u8]) -> usize
    ensures count { result ≡ length (bytes_held (option_map (λ b. b.value) held.now)) }
    ensures whole { result ≤ length into.old → take result into.new ≡ bytes_held (option_map (λ b. b.value) held.now) }
{
    match held {
        Some(held) => copy(held.as_ref(), into),
        None => 0,
    }
}

fn copy(held: &Held, into: &mut [u8]) -> usize
    ensures count { result ≡ length (bytes_of held.now) }
    ensures whole { result ≤ length into.old → take result into.new ≡ bytes_of held.now }
{
    match held {
        Held::Reply(bytes) => copy_bytes(bytes, into),
        _ => 0,
    }
}

fn copy_bytes(bytes: &[u8], into: &mut [u8]) -> usize
    ensures count { result ≡ length bytes.now }
    ensures whole { result ≤ length into.old → take result into.new ≡ bytes.now }
{
    let count = bytes.len();
    if count <= into.len() {
        into[..count].copy_from_slice(bytes);
    }
    count
}
