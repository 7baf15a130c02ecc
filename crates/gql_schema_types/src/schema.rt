//! Schemas.

ghost use Rattle.std.specs.Prelude.{◌≡◌};
ghost use Rattle.std.specs.Option.{option_copied};

use crate::meta_fields::MetaFields;
use crate::shared::Shared;
use crate::table::Table;
use crate::types::{ExtendedType, ObjectType};
use gql_ast::{DirectiveDefinition, FieldDefinition};
use gql_ast_base::{Directive, Name, OperationType, TypeRef};
use gql_source::{SourceMap, SourceSpan};
use jb_text::{Listed, Text};

/// The root types of a schema and what is said of it as a whole (GraphQL October 2021, section 3.3).
pub struct SchemaDefinition {
    pub description: Option<Text>,
    pub directives: Listed<Directive>,
    pub query: Option<Name>,
    pub mutation: Option<Name>,
    pub subscription: Option<Name>,
    pub location: Option<SourceSpan>,
}

/// A schema (section 3.2): its types and directives, each in order of definition.
pub struct Schema {
    pub sources: SourceMap,
    pub schema_definition: SchemaDefinition,
    pub directive_definitions: Table<DirectiveDefinition>,
    pub types: Table<ExtendedType>,
    pub meta_fields: MetaFields,
}

impl Drop for SchemaDefinition {
    fn drop(self) {
        let SchemaDefinition {
            description: _,
            directives: _,
            query: _,
            mutation: _,
            subscription: _,
            location: _,
        } = self;
    }
}

impl Drop for Schema {
    fn drop(self) {
        let Schema {
            sources: _,
            schema_definition: _,
            directive_definitions: _,
            types: _,
            meta_fields: _,
        } = self;
    }
}

impl SchemaDefinition {
    ghost use Rattle.gql_schema_types.specs.Schemas as spec;

    /// The name of the root type of such operations, where there is one (section 3.3.1).
    #[must_use]
    pub fn root_operation(&self, operation_type: OperationType) -> Option<&Name>
        ensures { option_copied result ≡ spec.root_of operation_type self.now }
    {
        match operation_type {
            OperationType::Query => self.query.as_ref(),
            OperationType::Mutation => self.mutation.as_ref(),
            OperationType::Subscription => self.subscription.as_ref(),
        }
    }

    /// Whether this is the name of the root type of queries (section 3.3.1).
    #[must_use]
    pub fn is_query_root(&self, name: &str) -> bool
        ensures { result ≡ spec.is_query_root self.now name.now }
    {
        match &self.query {
            Some(root) => name == root.as_str(),
            None => false,
        }
    }
}

impl Schema {
    ghost use Rattle.gql_schema_types.specs.Schemas as spec;

    /// The object type of the name; `None` exactly where the schema has no type of it, or one of another kind. It takes
    /// no memory.
    #[must_use]
    pub fn get_object(&self, name: &str) -> Option<&ObjectType>
        ensures { option_copied result ≡ spec.object_of self.now name.now }
    {
        match self.types.get(name) {
            Some(ty) => ty.as_object(),
            None => None,
        }
    }

    /// The type that the reference names, within all lists (section 2.11); `None` exactly where the schema has no type of that
    /// name. It takes no memory.
    #[must_use]
    pub fn type_named_by(&self, reference: &TypeRef) -> Option<&ExtendedType>
        ensures { option_copied result ≡ spec.type_named self.now reference.now }
    {
        self.types.get(reference.inner_named_type().as_str())
    }

    /// The field of a type, both by name: a type's own field, or else `__typename` of a composite type, or `__schema` or
    /// `__type` of the root type of queries (sections 4.1 and 4.2). `None` exactly where there is none of these, or no
    /// such type. It takes no memory.
    #[must_use]
    pub fn type_field(&self, type_name: &str, field_name: &str) -> Option<&Shared<FieldDefinition>>
        ensures { option_copied result ≡ spec.field_of self.now type_name.now field_name.now }
    {
        match self.types.get(type_name) {
            Some(ty) => self.field_on(ty, type_name, field_name),
            None => None,
        }
    }

    /// The field of this type, whose name is given too.
    fn field_on<'s>(
        &'s self,
        ty: &'s ExtendedType,
        type_name: &str,
        field_name: &str,
    ) -> Option<&'s Shared<FieldDefinition>>
        ensures { option_copied result ≡ spec.field_on self.now.schema_definition ty.now type_name.now field_name.now }
    {
        match ty.own_field(field_name) {
            Some(field) => Some(field),
            None => self.meta_fields.field(
                ty.is_composite(),
                self.schema_definition.is_query_root(type_name),
                field_name,
            ),
        }
    }
}
