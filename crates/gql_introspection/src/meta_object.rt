//! The objects of introspection.

ghost use Rattle.gql_introspection.specs.MetaMeaning as spec;
ghost use Rattle.gql_introspection.specs.Seen.{stands_for};
ghost use Rattle.gql_introspection.specs.bridge.Seen.{GivesField};

use crate::asked::Asked;
use crate::directive_def::directive_def_field;
use crate::enum_value_def::enum_value_def_field;
use crate::field_def::field_def_field;
use crate::input_value_def::input_value_def_field;
use crate::schema_meta::schema_meta_field;
use crate::type_def::type_def_field;
use crate::wrapped::wrapped_field;
use gql_ast::{DirectiveDefinition, EnumValueDefinition, FieldDefinition, InputValueDefinition};
use gql_ast_base::TypeRef;
use gql_resolvers::{ObjectValue, ResolveError, ResolveInfo, ResolvedValue};
use gql_schema_types::{ExtendedType, Schema, Valid};
use jb_text::Memory;
use std::alloc::Global;

/// An object of introspection, which tells of a part of a schema (GraphQL October 2021, section 4.2).
///
/// Each field gives what its definition says of that part; a field that the type of the object does not have is a failure.
/// None is ever left out.
#[derive(Clone, Copy)]
pub enum MetaObject<'a> {
    /// A schema, as `__Schema`.
    SchemaMeta {
        schema: &'a Valid<Schema>,
    },
    /// A type with a name, as `__Type`.
    TypeDef {
        schema: &'a Valid<Schema>,
        of: &'a ExtendedType,
    },
    /// A list or a non-null type, as `__Type`. Where it is stripped, the outer `!` of the type is left aside.
    Wrapped {
        schema: &'a Valid<Schema>,
        of: &'a TypeRef,
        stripped: bool,
    },
    /// A directive, as `__Directive`.
    DirectiveDef {
        schema: &'a Valid<Schema>,
        of: &'a DirectiveDefinition,
    },
    /// A field of an object type or an interface, as `__Field`.
    FieldDef {
        schema: &'a Valid<Schema>,
        of: &'a FieldDefinition,
    },
    /// A value of an enum, as `__EnumValue`.
    EnumValueDef {
        schema: &'a Valid<Schema>,
        of: &'a EnumValueDefinition,
    },
    /// An argument or a field of an input object, as `__InputValue`.
    InputValueDef {
        schema: &'a Valid<Schema>,
        of: &'a InputValueDefinition,
    },
}

impl<'a> MetaObject<'a> {
    /// The field that is asked for, where the object has one of its name.
    fn field(&self, asked: &Asked<'_>) -> Result<Option<ResolvedValue<MetaObject<'a>>>, Memory>
        ensures { GivesField result (spec.meta_row (stands_for self.now) asked.now.field.now asked.now.arguments.now) }
    {
        match *self {
            MetaObject::SchemaMeta { schema } => schema_meta_field(asked, schema),
            MetaObject::TypeDef { schema, of } => type_def_field(asked, schema, of),
            MetaObject::Wrapped {
                schema,
                of,
                stripped,
            } => wrapped_field(asked, schema, of, stripped),
            MetaObject::DirectiveDef { schema, of } => directive_def_field(asked, schema, of),
            MetaObject::FieldDef { schema, of } => field_def_field(asked, schema, of),
            MetaObject::EnumValueDef { schema, of } => enum_value_def_field(asked, schema, of),
            MetaObject::InputValueDef { schema, of } => input_value_def_field(asked, schema, of),
        }
    }
}

impl<'a> ObjectValue for MetaObject<'a> {
    ghost use Rattle.gql_introspection.specs.Meta.{Meta, type_name_of};
    ghost use Rattle.gql_introspection.specs.MetaMeaning.{meta_meaning};
    ghost use Rattle.gql_introspection.specs.Seen.{stands_for};

    ghost Seen = { Meta };

    ghost seen = { stands_for };

    ghost type_of = { type_name_of };

    ghost resolves = { λ schema T object f arguments. meta_meaning object f arguments };

    fn type_name(&self) -> &str {
        match self {
            MetaObject::SchemaMeta { .. } => "__Schema",
            MetaObject::TypeDef { .. } | MetaObject::Wrapped { .. } => "__Type",
            MetaObject::DirectiveDef { .. } => "__Directive",
            MetaObject::FieldDef { .. } => "__Field",
            MetaObject::EnumValueDef { .. } => "__EnumValue",
            MetaObject::InputValueDef { .. } => "__InputValue",
        }
    }

    fn resolve_field(
        &self,
        alloc: Global,
        info: &ResolveInfo<'_>,
    ) -> Result<ResolvedValue<MetaObject<'a>>, ResolveError> {
        let asked = Asked {
            alloc,
            field: info.field_name(),
            arguments: info.arguments(),
        };
        match self.field(&asked)? {
            Some(resolved) => Ok(resolved),
            None => Err(ResolveError::Field(self.unknown_field_error(alloc, info)?)),
        }
    }
}
