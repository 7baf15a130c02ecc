//! What is asked of a query.

ghost use Rattle.std.specs.Prelude.{◌≡◌, IfOk};
ghost use Rattle.gql_c.specs.Requests.{is_introspected, is_named, variables_given};
ghost use Rattle.gql_c.specs.bridge.Requests.{IsName};

use bytes::Bytes;
use gql_engine::Memory;
use std::alloc::Global;

/// The name of an operation and the text of its variables, as C gives them, and bits: 1 where the name counts, 2 where `__schema`
/// and `__type` are answered.
#[derive(Clone, Copy)]
pub(crate) struct Request<'r> {
    pub(crate) name: &'r [u8],
    pub(crate) variables: &'r [u8],
    pub(crate) flags: u32,
}

/// That a name is no text.
#[derive(Drop)]
pub(crate) struct NoText;

/// The name of the operation, where it counts. `Err` exactly where it counts and is no UTF-8.
pub(crate) fn operation_name(name: &[u8], flags: u32) -> Result<Option<&str>, NoText>
    ensures { IsName name.now flags result }
{
    if flags % 2 == 0 {
        return Ok(None);
    }
    match str::from_utf8(name) {
        Ok(name) => Ok(Some(name)),
        Err(_) => Err(NoText),
    }
}

/// Whether `__schema` and `__type` are answered.
pub(crate) fn has_introspection(flags: u32) -> bool
    ensures { result ≡ is_introspected flags }
{
    flags / 2 % 2 == 1
}

/// The text of the variables: that of an object without members where there are no bytes at all. `Err` only when out of memory.
pub(crate) fn variables_text(alloc: Global, variables: &[u8]) -> Result<Bytes, Memory>
    ensures { IfOk result (λ text. text ≡ variables_given variables.now) }
{
    if variables.is_empty() {
        return Ok(Bytes::from_static(b"{}"));
    }
    Bytes::copy_from_slice(alloc, variables)
}
