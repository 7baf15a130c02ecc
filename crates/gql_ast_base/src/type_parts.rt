//! The parts of a reference to a type.

ghost use Rattle.std.specs.Prelude.{◌≡◌};

use crate::name::Name;
use crate::type_ref::TypeRef;

impl TypeRef {
    ghost use Rattle.std.specs.Option.{option_copied};
    ghost use Rattle.gql_ast_base.specs.TypeParts as parts;

    /// The name within all lists (GraphQL October 2021, section 2.11).
    #[must_use]
    pub fn inner_named_type(&self) -> &Name
        ensures { result.now ≡ parts.named_type self.now }
    {
        match self {
            TypeRef::Named(name) | TypeRef::NonNullNamed(name) => name,
            TypeRef::List(item) | TypeRef::NonNullList(item) => item.get().inner_named_type(),
        }
    }

    /// The type of the items of a list (section 3.11); `None` exactly where the type is no list's.
    #[must_use]
    pub fn item_type(&self) -> Option<&TypeRef>
        ensures { option_copied result ≡ parts.item_type self.now }
    {
        match self {
            TypeRef::Named(_) | TypeRef::NonNullNamed(_) => None,
            TypeRef::List(item) | TypeRef::NonNullList(item) => Some(item.get()),
        }
    }

    /// Whether null is no value of the type (section 3.12).
    #[must_use]
    pub fn is_non_null(&self) -> bool
        ensures { result ≡ parts.is_non_null self.now }
    {
        match self {
            TypeRef::Named(_) | TypeRef::List(_) => false,
            TypeRef::NonNullNamed(_) | TypeRef::NonNullList(_) => true,
        }
    }
}
