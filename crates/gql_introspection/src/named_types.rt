//! The objects for types that are referred to.

ghost use Rattle.std.specs.Prelude.{◌≡◌, ◌++◌, map, OnOk, option_to_list};
ghost use Rattle.std.specs.Option.{option_copied};
ghost use Rattle.gql_resolvers.specs.Resolved.{gives_object};
ghost use Rattle.gql_resolvers.specs.Meaning.{meaning_by};
ghost use Rattle.gql_schema_types.specs.Types.{type_called};
ghost use Rattle.gql_introspection.specs.bridge.Items.{answers_in};
ghost use Rattle.gql_introspection.specs.Meta.{type_def};
ghost use Rattle.gql_introspection.specs.NamedTypes as spec;
ghost use Rattle.gql_introspection.specs.Seen.{stands_for};
ghost use Rattle.gql_introspection.specs.bridge.Seen.{Gives};

use crate::items::Items;
use crate::leaves::null_leaf;
use crate::meta_object::MetaObject;
use gql_ast_base::{Name, TypeRef};
use gql_resolvers::ResolvedValue;
use gql_schema_types::{Schema, Valid};
use jb_text::Memory;
use std::alloc::Global;

/// The type of a name, or null where the schema has none.
pub(crate) fn named_type<'a>(schema: &'a Valid<Schema>, name: &str) -> ResolvedValue<MetaObject<'a>>
    ensures { meaning_by stands_for result ≡ spec.named_type schema.now name.now }
{
    match schema.as_ref().types.get(name) {
        Some(of) => ResolvedValue::Object(MetaObject::TypeDef { schema, of }),
        None => null_leaf(),
    }
}

/// The root type of an operation, or null where there is none.
pub(crate) fn root_type<'a>(
    schema: &'a Valid<Schema>,
    root: Option<&Name>,
) -> ResolvedValue<MetaObject<'a>>
    ensures { meaning_by stands_for result ≡ spec.root_type schema.now (option_copied root.entry) }
{
    match root {
        Some(name) => named_type(schema, name.as_str()),
        None => null_leaf(),
    }
}

/// The type that is referred to.
pub(crate) fn type_object<'a>(
    schema: &'a Valid<Schema>,
    ty: &'a TypeRef,
) -> ResolvedValue<MetaObject<'a>>
    ensures { meaning_by stands_for result ≡ spec.type_meaning schema.now ty.now }
{
    match ty {
        TypeRef::Named(name) => named_type(schema, name.as_str()),
        _ => ResolvedValue::Object(MetaObject::Wrapped {
            schema,
            of: ty,
            stripped: false,
        }),
    }
}

/// The types of these names that the schema has, in this order.
pub(crate) fn named_types<'a>(
    alloc: Global,
    schema: &'a Valid<Schema>,
    names: &[Name],
) -> Result<ResolvedValue<MetaObject<'a>>, Memory>
    ensures { Gives result (spec.named_types schema.now names.now) }
{
    let mut items = Items::new(alloc);
    for name in names {
        add_named(schema, name, &mut items)?;
    }
    Ok(items.into_list())
}

/// Adds the type of a name, if the schema has one.
fn add_named<'a>(
    schema: &'a Valid<Schema>,
    name: &Name,
    items: &mut Items<'a>,
) -> Result<(), Memory>
    ensures { OnOk result (answers_in items.new ≡ answers_in items.old
        ++ map (λ ty. gives_object (type_def schema.now ty)) (option_to_list (type_called name.now.text schema.now.types))) }
{
    match schema.as_ref().types.get(name.as_str()) {
        Some(of) => items.push(ResolvedValue::Object(MetaObject::TypeDef { schema, of })),
        None => Ok(()),
    }
}
