//! Subtypes (GraphQL October 2021, section 3.6, "IsValidImplementationFieldType").

ghost use Rattle.std.specs.Prelude.{◌≡◌, false};
ghost use Rattle.std.specs.List.{list_any};
ghost use Rattle.std.specs.Option.{option_copied, option_map_or};
ghost use Rattle.std.specs.Str.{bytes_eq};
ghost use Rattle.gql_schema_types.specs.Implementers.{implements};
ghost use Rattle.gql_schema_types.specs.Types.{type_called};
ghost use Rattle.gql_schema_rules_parts.specs.Subtypes as spec;

use gql_ast_base::{Name, TypeRef};
use gql_rules_values::is_known;
use gql_schema_types::{ExtendedType, Table};

/// Whether a type is a subtype of the one that is wanted: the same type, its non-null form, a list of subtypes, a member of the
/// union or a type that lists the interface.
pub(crate) fn is_subtype(types: &Table<ExtendedType>, wanted: &TypeRef, ty: &TypeRef) -> bool
    ensures { result ≡ spec.is_subtype types.now wanted.now ty.now }
{
    match wanted {
        TypeRef::Named(other) => names_subtype(types, ty, other.as_str()),
        TypeRef::NonNullNamed(other) => {
            ty.is_non_null() && names_subtype(types, ty, other.as_str())
        }
        TypeRef::List(item) => match ty.item_type() {
            Some(found) => is_subtype(types, item.get(), found),
            None => false,
        },
        TypeRef::NonNullList(item) => match ty.item_type() {
            Some(found) => ty.is_non_null() && is_subtype(types, item.get(), found),
            None => false,
        },
    }
}

/// Whether a type is no list, and of a name below this one.
fn names_subtype(types: &Table<ExtendedType>, ty: &TypeRef, other: &str) -> bool
    ensures { result ≡ option_map_or (λ name. spec.is_subname types.now name.text other.now) (spec.bare_name ty.now) false }
{
    match bare_name(ty) {
        Some(name) => is_subname(types, name.as_str(), other),
        None => false,
    }
}

/// Whether the type of the one name is that of the other, a member of that union, or lists that interface.
fn is_subname(types: &Table<ExtendedType>, name: &str, other: &str) -> bool
    ensures { result ≡ spec.is_subname types.now name.now other.now }
{
    name == other || is_below_named(types, name, other)
}

fn is_below_named(types: &Table<ExtendedType>, name: &str, other: &str) -> bool
    ensures { result ≡ option_map_or (spec.is_below types.now name.now) (type_called other.now types.now) false }
{
    match types.get(other) {
        Some(ty) => is_below(types, name, ty),
        None => false,
    }
}

/// Whether the type of the name is a member of the union, or lists the interface.
fn is_below(types: &Table<ExtendedType>, name: &str, ty: &ExtendedType) -> bool
    ensures { result ≡ spec.is_below types.now name.now ty.now }
{
    match ty {
        ExtendedType::Union(it) => has_name(it.members.as_slice(), name),
        ExtendedType::Interface(it) => lists_interface(types, name, it.name.as_str()),
        ExtendedType::Scalar(_) => false,
        ExtendedType::Object(_) => false,
        ExtendedType::Enum(_) => false,
        ExtendedType::InputObject(_) => false,
    }
}

/// Whether the type of the name lists the interface.
fn lists_interface(types: &Table<ExtendedType>, name: &str, interface: &str) -> bool
    ensures { result ≡ option_map_or (implements interface.now) (type_called name.now types.now) false }
{
    match types.get(name) {
        Some(ty) => has_name(ty.implements_interfaces(), interface),
        None => false,
    }
}

/// Whether the name is one of these.
pub(crate) fn has_name(names: &[Name], name: &str) -> bool
    ensures { result ≡ list_any (λ listed. bytes_eq name.now listed.text) names.now }
{
    names.iter().any(|listed| name == listed.as_str())
}

/// The name of a type that is no list.
fn bare_name(ty: &TypeRef) -> Option<&Name>
    ensures { option_copied result ≡ spec.bare_name ty.now }
{
    match ty {
        TypeRef::Named(name) | TypeRef::NonNullNamed(name) => Some(name),
        TypeRef::List(_) | TypeRef::NonNullList(_) => None,
    }
}

/// Whether both types name types that are defined.
pub(crate) fn are_known(types: &Table<ExtendedType>, one: &TypeRef, other: &TypeRef) -> bool
    ensures { result ≡ spec.are_known types.now one.now other.now }
{
    is_known(types, one.inner_named_type().as_str())
        && is_known(types, other.inner_named_type().as_str())
}

/// Whether two types are the same.
pub(crate) fn is_same_type(wanted: &TypeRef, ty: &TypeRef) -> bool
    ensures { result ≡ spec.is_same_type wanted.now ty.now }
{
    match wanted {
        TypeRef::Named(other) => !ty.is_non_null() && is_named(ty, other.as_str()),
        TypeRef::NonNullNamed(other) => ty.is_non_null() && is_named(ty, other.as_str()),
        TypeRef::List(item) => match ty.item_type() {
            Some(found) => !ty.is_non_null() && is_same_type(item.get(), found),
            None => false,
        },
        TypeRef::NonNullList(item) => match ty.item_type() {
            Some(found) => ty.is_non_null() && is_same_type(item.get(), found),
            None => false,
        },
    }
}

/// Whether a type is no list and has the name.
fn is_named(ty: &TypeRef, other: &str) -> bool
    ensures { result ≡ option_map_or (λ name. bytes_eq name.text other.now) (spec.bare_name ty.now) false }
{
    match bare_name(ty) {
        Some(name) => name.as_str() == other,
        None => false,
    }
}
