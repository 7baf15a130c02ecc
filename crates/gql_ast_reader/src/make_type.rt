//! References to types, of what their rows keep.

ghost use Rattle.std.specs.Prelude.{◌≡◌, IfOk};
ghost use Rattle.std.specs.Option.{option_map};
ghost use Rattle.gql_ast_base.specs.Types.{non_null};
ghost use Rattle.gql_ast_base.specs.declared.type_ref.TypeRef.{List as ListOf};

use crate::row::Row;
use gql_ast_base::{TypeRef, list_of, non_null};
use jb_text::Memory;
use std::alloc::Global;

/// The list of the type that was found. `Err` only where memory runs out.
pub(crate) fn make_list_type(alloc: Global, row: &mut Row) -> Result<Option<TypeRef>, Memory>
    ensures { IfOk result (λ found. found ≡ option_map ListOf row.old.singles.ty) }
{
    list_of(alloc, row.singles.ty.take())
}

/// The type that was found, with `!` behind it.
pub(crate) fn make_non_null_type(row: &mut Row) -> Option<TypeRef>
    ensures { result ≡ option_map non_null row.old.singles.form }
{
    match row.singles.form.take() {
        Some(form) => Some(non_null(form)),
        None => None,
    }
}
