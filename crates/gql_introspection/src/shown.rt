//! Parts of a schema that an object stands for each, and lists of such objects.

ghost use Rattle.std.specs.Prelude.{◌≡◌, List, ◌++◌, map, OnOk, if◌then◌else◌, [], ◌∷◌};
ghost use Rattle.gql_ast_base.specs.declared.directive.Directive.{Directive as Use};
ghost use Rattle.gql_resolvers.specs.Resolved.{gives_object};
ghost use Rattle.gql_schema_types.specs.declared.schema.Schema.{Schema as TheSchema};
ghost use Rattle.gql_introspection.specs.Answers.{objects};
ghost use Rattle.gql_introspection.specs.bridge.Items.{answers_in};
ghost use Rattle.gql_introspection.specs.Kept as spec;
ghost use Rattle.gql_introspection.specs.Meta as meta;
ghost use Rattle.gql_introspection.specs.Seen.{stands_for};
ghost use Rattle.gql_introspection.specs.bridge.Seen.{Gives};

use crate::asked::Asked;
use crate::deprecation::is_deprecated;
use crate::items::Items;
use crate::meta_object::MetaObject;
use gql_ast::{DirectiveDefinition, EnumValueDefinition, FieldDefinition, InputValueDefinition};
use gql_ast_base::Directive;
use gql_resolvers::ResolvedValue;
use gql_response::JsonMap;
use gql_schema_types::{ExtendedType, Schema, Shared, Valid};
use jb_text::Memory;
use std::alloc::Global;

/// A part of a schema that an object stands for.
pub(crate) trait Shown {
    ghost shows: { TheSchema → Self → meta.Meta };

    /// The object.
    fn shown<'a>(&'a self, schema: &'a Valid<Schema>) -> MetaObject<'a>
        ensures { stands_for result ≡ shows schema.now self.now };
}

/// A part that may be deprecated.
pub(crate) trait Deprecatable: Shown {
    ghost directives_of: { Self → List Use };

    /// Its directives.
    fn directives(&self) -> &[Directive]
        ensures { result.now ≡ directives_of self.now };
}

impl Shown for ExtendedType {
    ghost shows = { meta.type_def };

    fn shown<'a>(&'a self, schema: &'a Valid<Schema>) -> MetaObject<'a> {
        MetaObject::TypeDef { schema, of: self }
    }
}

impl Shown for DirectiveDefinition {
    ghost shows = { meta.directive_def };

    fn shown<'a>(&'a self, schema: &'a Valid<Schema>) -> MetaObject<'a> {
        MetaObject::DirectiveDef { schema, of: self }
    }
}

impl Shown for FieldDefinition {
    ghost shows = { meta.field_def };

    fn shown<'a>(&'a self, schema: &'a Valid<Schema>) -> MetaObject<'a> {
        MetaObject::FieldDef { schema, of: self }
    }
}

impl Deprecatable for FieldDefinition {
    ghost directives_of = { spec.field_directives };

    fn directives(&self) -> &[Directive] {
        self.directives.as_slice()
    }
}

impl<T: Shown> Shown for Shared<T> {
    ghost shows = { T.shows };

    fn shown<'a>(&'a self, schema: &'a Valid<Schema>) -> MetaObject<'a> {
        T::shown(self, schema)
    }
}

impl<T: Deprecatable> Deprecatable for Shared<T> {
    ghost directives_of = { T.directives_of };

    fn directives(&self) -> &[Directive] {
        T::directives(self)
    }
}

impl Shown for EnumValueDefinition {
    ghost shows = { meta.enum_value_def };

    fn shown<'a>(&'a self, schema: &'a Valid<Schema>) -> MetaObject<'a> {
        MetaObject::EnumValueDef { schema, of: self }
    }
}

impl Deprecatable for EnumValueDefinition {
    ghost directives_of = { spec.value_directives };

    fn directives(&self) -> &[Directive] {
        self.directives.as_slice()
    }
}

impl Shown for InputValueDefinition {
    ghost shows = { meta.input_value_def };

    fn shown<'a>(&'a self, schema: &'a Valid<Schema>) -> MetaObject<'a> {
        MetaObject::InputValueDef { schema, of: self }
    }
}

impl Deprecatable for InputValueDefinition {
    ghost directives_of = { spec.input_directives };

    fn directives(&self) -> &[Directive] {
        self.directives.as_slice()
    }
}

/// The objects of all of these.
pub(crate) fn all_shown<'a, T: Shown>(
    alloc: Global,
    schema: &'a Valid<Schema>,
    parts: &'a [T],
) -> Result<ResolvedValue<MetaObject<'a>>, Memory>
    ensures { Gives result (objects (map (T.shows schema.now) parts.now)) }
{
    let mut items = Items::new(alloc);
    for part in parts {
        items.push(ResolvedValue::Object(part.shown(schema)))?;
    }
    Ok(items.into_list())
}

/// The objects of those that are kept: the deprecated ones only where `includeDeprecated` is true.
pub(crate) fn kept<'a, T: Deprecatable>(
    asked: &Asked<'_>,
    schema: &'a Valid<Schema>,
    parts: &'a [T],
) -> Result<ResolvedValue<MetaObject<'a>>, Memory>
    ensures { Gives result (spec.kept (T.shows schema.now) T.directives_of (spec.include_deprecated asked.now.arguments.now) parts.now) }
{
    let deprecated_too = include_deprecated(asked.arguments);
    kept_parts(asked.alloc, schema, deprecated_too, parts)
}

/// The objects of those that are not deprecated, or of all of them.
fn kept_parts<'a, T: Deprecatable>(
    alloc: Global,
    schema: &'a Valid<Schema>,
    deprecated_too: bool,
    parts: &'a [T],
) -> Result<ResolvedValue<MetaObject<'a>>, Memory>
    ensures { Gives result (spec.kept (T.shows schema.now) T.directives_of deprecated_too parts.now) }
{
    let mut items = Items::new(alloc);
    for part in parts {
        add_kept(schema, deprecated_too, part, &mut items)?;
    }
    Ok(items.into_list())
}

/// Adds the object of a part, if it is kept.
fn add_kept<'a, T: Deprecatable>(
    schema: &'a Valid<Schema>,
    deprecated_too: bool,
    part: &'a T,
    items: &mut Items<'a>,
) -> Result<(), Memory>
    ensures { OnOk result (answers_in items.new ≡ answers_in items.old
        ++ (if spec.is_kept deprecated_too (T.directives_of part.now) then gives_object (T.shows schema.now part.now) ∷ [] else [])) }
{
    if deprecated_too || !is_deprecated(part.directives()) {
        items.push(ResolvedValue::Object(part.shown(schema)))
    } else {
        Ok(())
    }
}

/// Whether `includeDeprecated` is true.
fn include_deprecated(arguments: &JsonMap) -> bool
    ensures { result ≡ spec.include_deprecated arguments.now }
{
    match arguments.get("includeDeprecated") {
        Some(value) => value.as_bool().unwrap_or(false),
        None => false,
    }
}
