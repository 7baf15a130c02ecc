//! Types that values are coerced to (GraphQL October 2021, section 3.10).

ghost use Rattle.std.specs.Prelude.{◌≡◌, IfSome};
ghost use Rattle.std.specs.Option.{option_copied, option_map, option_and_then};
ghost use Rattle.gql_coerce.specs.InputTypes.{as_input_object as input_object_of};
ghost use Rattle.gql_ast_base.specs.TypeParts.{item_type as item_of};
ghost use Rattle.gql_coerce.specs.bridge.Wanted.{IsFound};

use crate::input_types::as_input_object;
use gql_ast_base::TypeRef;
use gql_schema_types::{ExtendedType, InputObjectType, Table};

/// A type, and what the schema has under the name within all its lists: it is looked up once, however many items a list has.
#[derive(Clone, Copy)]
pub(crate) struct Wanted<'t> {
    pub(crate) ty: &'t TypeRef,
    pub(crate) found: Option<&'t ExtendedType>,
}

impl<'t> Wanted<'t> {
    /// The type, with what these types have under its name.
    pub(crate) fn new(types: &'t Table<ExtendedType>, ty: &'t TypeRef) -> Wanted<'t>
        ensures ty { result.ty.now ≡ ty.now }
        ensures found { IsFound types.now result }
    {
        Wanted {
            ty,
            found: types.get(ty.inner_named_type().as_str()),
        }
    }

    /// The type of a list's items.
    pub(crate) fn items(&self) -> Option<Wanted<'t>>
        ensures ty { option_map (λ (item : _). item.ty.now) result ≡ item_of self.now.ty.now }
        ensures found { IfSome result (λ item. item.found ≡ self.now.found) }
    {
        match self.ty.item_type() {
            Some(ty) => Some(Wanted {
                ty,
                found: self.found,
            }),
            None => None,
        }
    }

    /// The input object type, where the type is one within all lists.
    pub(crate) fn input_object(&self) -> Option<&'t InputObjectType>
        ensures { option_copied result ≡ option_and_then input_object_of (option_copied self.now.found) }
    {
        match self.found {
            Some(ty) => as_input_object(ty),
            None => None,
        }
    }
}
