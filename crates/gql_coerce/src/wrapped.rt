//! Values in lists of their own.

ghost use Rattle.std.specs.Prelude.{◌≡◌, [], ◌∷◌, IfOk};
ghost use Rattle.gql_coerce.specs.Wrapped.{wrap};

use gql_ast_base::TypeRef;
use jb_text::{Listed, Memory};
use jb_tree::Value;
use std::alloc::Global;

/// The value in a list of its own for each list of the type.
pub(crate) fn wrap(alloc: Global, ty: &TypeRef, value: Value) -> Result<Value, Memory>
    ensures { IfOk result (λ made. made ≡ wrap ty.now value) }
{
    match ty {
        TypeRef::Named(_) | TypeRef::NonNullNamed(_) => Ok(value),
        TypeRef::List(item) => only(alloc, wrap(alloc, item.get(), value)?),
        TypeRef::NonNullList(item) => only(alloc, wrap(alloc, item.get(), value)?),
    }
}

/// The list of one value.
fn only(alloc: Global, value: Value) -> Result<Value, Memory>
    ensures { IfOk result (λ made. made ≡ Value.Array (value ∷ [])) }
{
    let mut items = Listed::new(alloc);
    items.push(value)?;
    Ok(Value::Array(items))
}
