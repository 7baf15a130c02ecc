//! What a row has found, as the node that is made of it has it.

ghost use Rattle.std.specs.Prelude.{◌≡◌};
ghost use Rattle.gql_ast_reader.specs.bridge.Standing as standing;

use jb_text::Listed;
use std::alloc::Global;

/// Takes the list out, which is an empty one where none was found.
pub(crate) fn listed<T>(alloc: Global, found: &mut Option<Listed<T>>) -> Listed<T>
    ensures { result ≡ standing.listed found.old }
{
    match found.take() {
        Some(list) => list,
        None => Listed::new(alloc),
    }
}

/// What was found, where what was found may be nothing.
pub(crate) fn joined<T>(found: Option<Option<T>>) -> Option<T>
    ensures { result ≡ standing.joined found }
{
    match found {
        Some(inner) => inner,
        None => None,
    }
}
