//! Fields that types have besides their own.

ghost use Rattle.std.specs.Prelude.{◌≡◌, [], IfOk, true, None, codes};
ghost use Rattle.std.specs.Option.{option_copied};
ghost use Rattle.gql_ast_base.specs.Names.{is_name};
ghost use Rattle.gql_schema_types.specs.MetaFields as spec;

use crate::shared::Shared;
use gql_ast::{FieldDefinition, InputValueDefinition};
use gql_ast_base::{Name, TypeRef, both};
use jb_text::{Listed, Memory, Refused};
use std::alloc::{AllocError, Global};
use std::marker::Model;

/// The fields that types have besides their own (GraphQL October 2021, sections 4.1 and 4.2). A schema keeps them so
/// that it can lend them; all values are the same.
pub struct MetaFields {
    type_name: Shared<FieldDefinition>,
    schema: Shared<FieldDefinition>,
    ty: Shared<FieldDefinition>,
}

impl Drop for MetaFields {
    fn drop(self) {
        let MetaFields {
            type_name: _,
            schema: _,
            ty: _,
        } = self;
    }
}

impl Model for MetaFields {
    ghost use Rattle.std.specs.Prelude.{◌≡◌, Bool, true};
    ghost use Rattle.gql_schema_types.specs.MetaFields as spec;

    ghost Value = { Bool };

    ghost view = { λ _. true };

    ghost invariant = { λ fields. (fields.type_name ≡ spec.type_name_field) × ((fields.schema ≡ spec.schema_field) × (fields.ty ≡ spec.type_field)) };
}

impl MetaFields {
    ghost use Rattle.gql_schema_types.specs.Schemas.{meta_field};

    /// The fields. `Err` only when out of memory.
    pub fn new(alloc: Global) -> Result<MetaFields, Memory>
        ensures { IfOk result (λ made. made ≡ true) }
    {
        let (type_name, schema) = both(
            plain_field(alloc, "__typename", "String"),
            plain_field(alloc, "__schema", "__Schema"),
        )?;
        Ok(MetaFields {
            type_name,
            schema,
            ty: type_field(alloc)?,
        })
    }

    /// The field of this name that each composite type has, or that the root type of queries has.
    pub(crate) fn field(
        &self,
        composite: bool,
        query_root: bool,
        name: &str,
    ) -> Option<&Shared<FieldDefinition>>
        ensures { option_copied result ≡ meta_field composite query_root name.now }
    {
        if composite && name == "__typename" {
            Some(&self.type_name)
        } else if query_root && name == "__schema" {
            Some(&self.schema)
        } else if query_root && name == "__type" {
            Some(&self.ty)
        } else {
            None
        }
    }
}

/// The name with a text that is one, from no place. `Err` only when out of memory.
fn name(alloc: Global, text: &str) -> Result<Name, Memory>
    requires { is_name text.now ≡ true }
    ensures { IfOk result (λ name. name ≡ spec.named text.now) }
{
    match Name::new(alloc, text) {
        Ok(name) => Ok(name),
        Err(Refused::Memory) => Err(AllocError),
        Err(Refused::Fault(_)) => unreachable!(),
    }
}

/// A field without arguments, of a type that is not null.
fn plain_field(alloc: Global, text: &str, ty: &str) -> Result<Shared<FieldDefinition>, Memory>
    requires text { is_name text.now ≡ true }
    requires ty { is_name ty.now ≡ true }
    ensures { IfOk result (λ made. made ≡ spec.field text.now [] (TypeRef.NonNullNamed (spec.named ty.now))) }
{
    let (name, ty) = both(name(alloc, text), name(alloc, ty))?;
    let field = FieldDefinition {
        description: None,
        name,
        arguments: Listed::new(alloc),
        ty: TypeRef::NonNullNamed(ty),
        directives: Listed::new(alloc),
        location: None,
    };
    Shared::new(alloc, field)
}

/// The field `__type`.
fn type_field(alloc: Global) -> Result<Shared<FieldDefinition>, Memory>
    ensures { IfOk result (λ made. made ≡ spec.type_field) }
{
    let mut arguments = Listed::new(alloc);
    arguments.push(name_argument(alloc)?)?;
    let (name, ty) = both(name(alloc, "__type"), name(alloc, "__Type"))?;
    let field = FieldDefinition {
        description: None,
        name,
        arguments,
        ty: TypeRef::Named(ty),
        directives: Listed::new(alloc),
        location: None,
    };
    Shared::new(alloc, field)
}

/// The argument of `__type`.
fn name_argument(alloc: Global) -> Result<InputValueDefinition, Memory>
    ensures { IfOk result (λ made. made ≡ spec.argument (codes "name") (TypeRef.NonNullNamed (spec.named (codes "String")))) }
{
    let (name, ty) = both(name(alloc, "name"), name(alloc, "String"))?;
    Ok(InputValueDefinition {
        description: None,
        name,
        ty: TypeRef::NonNullNamed(ty),
        default_value: None,
        directives: Listed::new(alloc),
        location: None,
    })
}
