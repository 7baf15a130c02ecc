//! Uses of variables, and what is wanted where they stand (GraphQL October 2021, section 5.8).

ghost use Rattle.std.specs.Prelude.{◌≡◌, None, map};
ghost use Rattle.std.specs.Option.{option_copied};
ghost use Rattle.gql_rules.specs.Uses as spec;
ghost use Rattle.gql_rules.specs.bridge.Uses as spec_bridge;
ghost use Rattle.gql_rules.specs.bridge.Views as seen;

use gql_ast::InputValueDefinition;
use gql_ast_base::{Name, TypeRef, Value};
use gql_rules_values::has_one_key;
use gql_schema_types::{ExtendedType, Table};
use gql_source::SourceSpan;

/// What is wanted where a value stands: its type, if one is known, and whether the argument or input field there has a default;
/// the name of the one-of input object whose one member the value is, if it is one; and the object literal that it is a member of.
#[derive(Drop)]
pub(crate) struct Place<'d> {
    pub(crate) ty: Option<&'d TypeRef>,
    pub(crate) has_default: bool,
    pub(crate) one_of: Option<&'d Name>,
    pub(crate) literal: Option<&'d Value>,
}

/// A use of a variable.
#[derive(Drop)]
pub(crate) struct Use<'d> {
    pub(crate) name: &'d Name,
    pub(crate) place: Place<'d>,
    pub(crate) location: Option<SourceSpan>,
}

impl<'d> Place<'d> {
    /// The place of an argument, if it is defined.
    pub(crate) fn of_argument(definition: Option<&'d InputValueDefinition>) -> Place<'d>
        ensures { seen.place_of result ≡ spec.input_place (option_copied definition.entry) None None }
    {
        Place::of_input(definition, None, None)
    }

    /// The place of an argument or of an input field, if it is defined.
    fn of_input(
        definition: Option<&'d InputValueDefinition>,
        one_of: Option<&'d Name>,
        literal: Option<&'d Value>,
    ) -> Place<'d>
        ensures { seen.place_of result ≡ spec.input_place (option_copied definition.entry) (option_copied one_of.entry) (spec_bridge.literal_place (option_copied literal.entry)) }
    {
        match definition {
            Some(definition) => Place {
                ty: Some(&definition.ty),
                has_default: definition.default_value.is_some(),
                one_of,
                literal,
            },
            None => Place {
                ty: None,
                has_default: false,
                one_of,
                literal,
            },
        }
    }

    /// The place of an item of a list that stands here.
    pub(crate) fn item(&self) -> Place<'d>
        ensures { seen.place_of result ≡ spec.item_place (seen.place_of self.now) }
    {
        Place {
            ty: self.item_type(),
            has_default: false,
            one_of: None,
            literal: None,
        }
    }

    /// The type of the items, where a list is wanted.
    fn item_type(&self) -> Option<&'d TypeRef>
        ensures { option_copied result ≡ (spec.item_place (seen.place_of self.now)).ty }
    {
        match self.ty {
            Some(ty) => ty.item_type(),
            None => None,
        }
    }

    /// The place of a key's value in an object literal that stands here, with the name of the one-of input
    /// object whose one member the value is, if it is one.
    pub(crate) fn member(
        &self,
        types: &'d Table<ExtendedType>,
        key: &Name,
        one_of: Option<&'d Name>,
        literal: &'d Value,
    ) -> Place<'d>
        ensures { seen.place_of result ≡ spec.member_place types.now (seen.place_of self.now) key.now (option_copied one_of.entry) literal.now.location }
    {
        match self.ty {
            Some(ty) => {
                let definition = member_definition(types, key.as_str(), ty);
                Place::of_input(definition, one_of, Some(literal))
            }
            None => Place::of_input(None, one_of, Some(literal)),
        }
    }

    /// Where the object literal stands that the value is a member of.
    pub(crate) fn literal_location(&self) -> Option<SourceSpan>
        ensures { result ≡ (seen.place_of self.now).literal }
    {
        self.literal?.location
    }

    /// The name of the one-of input object that is wanted, if one is, where a literal with these members stands here and has one key.
    pub(crate) fn one_of_literal(
        &self,
        types: &'d Table<ExtendedType>,
        members: &[(Name, Value)],
    ) -> Option<&'d Name>
        ensures { option_copied result ≡ spec.one_of_literal types.now (seen.place_of self.now)
            (map (λ member. (member.0, spec.value_uses types.now member.1)) members.now) }
    {
        if has_one_key(members) {
            self.one_of_wanted(types)
        } else {
            None
        }
    }

    /// The name of the one-of input object that is wanted, if one is.
    fn one_of_wanted(&self, types: &'d Table<ExtendedType>) -> Option<&'d Name>
        ensures { option_copied result ≡ spec.one_of_wanted types.now (seen.place_of self.now) }
    {
        match self.ty {
            Some(ty) => wanted_one_of(types, ty),
            None => None,
        }
    }
}

/// The name of the one-of input object that is wanted, if it is one.
fn wanted_one_of<'d>(types: &'d Table<ExtendedType>, ty: &TypeRef) -> Option<&'d Name>
    ensures { option_copied result ≡ spec.wanted_one_of types.now ty.now }
{
    match types.get(ty.inner_named_type().as_str()) {
        Some(found) => one_of_name(found),
        None => None,
    }
}

/// The name of the type, if it is a one-of input object.
fn one_of_name(ty: &ExtendedType) -> Option<&Name>
    ensures { option_copied result ≡ spec.one_of_name ty.now }
{
    match ty {
        ExtendedType::InputObject(it) => { if it.is_one_of() { Some(&it.name) } else { None } }
        ExtendedType::Scalar(_) => None,
        ExtendedType::Object(_) => None,
        ExtendedType::Interface(_) => None,
        ExtendedType::Union(_) => None,
        ExtendedType::Enum(_) => None,
    }
}

/// The name, where no member is left behind this one.
pub(crate) fn of_last(left: usize, one_of: Option<&Name>) -> Option<&Name>
    ensures { option_copied result ≡ spec.of_last left (option_copied one_of.entry) }
{
    if left == 0 { one_of } else { None }
}

/// The field of the name, where the type is an input object's.
fn member_definition<'d>(
    types: &'d Table<ExtendedType>,
    key: &str,
    ty: &TypeRef,
) -> Option<&'d InputValueDefinition>
    ensures { option_copied result ≡ spec.member_definition types.now key.now ty.now }
{
    match types.get(ty.inner_named_type().as_str()) {
        Some(found) => field_of(key, found),
        None => None,
    }
}

/// The field of the name, where the type is an input object.
fn field_of<'d>(key: &str, ty: &'d ExtendedType) -> Option<&'d InputValueDefinition>
    ensures { option_copied result ≡ spec.field_of key.now ty.now }
{
    match ty {
        ExtendedType::InputObject(it) => it.fields.get(key),
        ExtendedType::Scalar(_) => None,
        ExtendedType::Object(_) => None,
        ExtendedType::Interface(_) => None,
        ExtendedType::Union(_) => None,
        ExtendedType::Enum(_) => None,
    }
}
