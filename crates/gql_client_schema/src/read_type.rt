//! Types that have names.

ghost use Rattle.std.specs.Prelude.{◌≡◌};
ghost use Rattle.gql_client_schema.specs.Parts as spec;
ghost use Rattle.gql_client_schema.specs.Reading.{Answers};

use crate::kind::{Head, head_of};
use crate::path::{Unread, misfit};
use crate::reading::{Read, both, description_in, required_list, spared};
use gql_ast_base::TypeRef;
use gql_sdl::{ShownEnumValue, ShownField, ShownInput, ShownType};
use jb_text::{ByteString, Listed};
use jb_tree::{Map, Value};
use std::alloc::Global;

impl Read for ShownType {
    ghost reading = { spec.read_type };

    fn read(alloc: Global, value: &Value) -> Result<ShownType, Unread> {
        match value.as_object() {
            Some(members) => type_of(alloc, members),
            None => Err(misfit(alloc)),
        }
    }
}

/// A type that has a name (GraphQL October 2021, section 4.2.2).
fn type_of(alloc: Global, members: &Map) -> Result<ShownType, Unread>
    ensures { Answers (spec.type_of members.now) result }
{
    let head = head_of(alloc, members);
    let traits = traits_of(alloc, members);
    let lists = lists_of(alloc, members);
    match both(head, both(traits, lists)) {
        Ok(parts) => whole_type(alloc, parts),
        Err(unread) => Err(unread),
    }
}

/// What is told of a type beside its kind and its name.
#[derive(Drop)]
struct Traits {
    description: Option<ByteString>,
    specified_by_url: Option<ByteString>,
    is_one_of: bool,
}

/// What a type has.
#[derive(Drop)]
struct Lists {
    fields: Listed<ShownField>,
    input_fields: Listed<ShownInput>,
    interfaces: Listed<TypeRef>,
    possible_types: Listed<TypeRef>,
    enum_values: Listed<ShownEnumValue>,
}

fn traits_of(alloc: Global, members: &Map) -> Result<Traits, Unread>
    ensures { Answers (spec.traits_of members.now) result }
{
    let description = description_in(alloc, members);
    let specified_by_url = spared(alloc, "specifiedByURL", None, members);
    let is_one_of = spared(alloc, "isOneOf", None, members);
    match both(description, both(specified_by_url, is_one_of)) {
        Ok(parts) => Ok(traits_by(parts)),
        Err(unread) => Err(unread),
    }
}

fn lists_of(alloc: Global, members: &Map) -> Result<Lists, Unread>
    ensures { Answers (spec.lists_of members.now) result }
{
    let fields = required_list(alloc, "fields", members);
    let input_fields = required_list(alloc, "inputFields", members);
    let interfaces = required_list(alloc, "interfaces", members);
    let possible_types = required_list(alloc, "possibleTypes", members);
    let enum_values = required_list(alloc, "enumValues", members);
    match both(
        fields,
        both(
            input_fields,
            both(interfaces, both(possible_types, enum_values)),
        ),
    ) {
        Ok(parts) => {
            let (fields, (input_fields, (interfaces, (possible_types, enum_values)))) = parts;
            Ok(Lists {
                fields,
                input_fields,
                interfaces,
                possible_types,
                enum_values,
            })
        }
        Err(unread) => Err(unread),
    }
}

fn traits_by(parts: (Option<ByteString>, (Option<ByteString>, Option<bool>))) -> Traits
    ensures { result ≡ spec.traits_by parts }
{
    let (description, (specified_by_url, is_one_of)) = parts;
    Traits {
        description,
        specified_by_url,
        is_one_of: truth_or(is_one_of),
    }
}

fn truth_or(found: Option<bool>) -> bool
    ensures { result ≡ spec.truth_or found }
{
    found.unwrap_or(false)
}

/// The whole type. A wrapper is none.
fn whole_type(alloc: Global, parts: (Head, (Traits, Lists))) -> Result<ShownType, Unread>
    ensures { Answers (spec.whole_type parts) result }
{
    let (head, (traits, lists)) = parts;
    match head {
        Head::Named(kind, name) => Ok(ShownType {
            description: traits.description,
            kind,
            name,
            specified_by_url: traits.specified_by_url,
            is_one_of: traits.is_one_of,
            fields: lists.fields,
            input_fields: lists.input_fields,
            interfaces: lists.interfaces,
            possible_types: lists.possible_types,
            enum_values: lists.enum_values,
        }),
        Head::List | Head::NonNull => Err(misfit(alloc)),
    }
}
