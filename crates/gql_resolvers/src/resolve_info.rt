//! What resolvers are told.

ghost use Rattle.std.specs.Prelude.{◌≡◌, Some};
ghost use Rattle.std.specs.Option.{ForSome, option_copied};
ghost use Rattle.gql_schema_types.specs.Schemas.{field_of, type_named};
ghost use Rattle.gql_resolvers.specs.NamedTypes.{type_named_by_field};

use gql_ast::FieldDefinition;
use gql_document_types::{ExecutableDocument, Field};
use gql_response::JsonMap;
use gql_schema_types::{ExtendedType, ImplementersMap, ObjectType, Schema, Valid};
use jb_text::Listed;

/// What all resolvers of an execution are told alike.
#[derive(Clone, Copy)]
pub struct RequestInfo<'a> {
    pub schema: &'a Valid<Schema>,
    pub implementers_map: &'a ImplementersMap,
    pub document: &'a Valid<ExecutableDocument>,
}

/// What a resolver is told of the field that is asked for (GraphQL October 2021, section 6.4.2).
///
/// It may also keep the field's definition on the object type, with the type that this names. No resolver sees whether it
/// does: plain data, which needs both, looks up what is not kept.
#[derive(Clone, Copy)]
pub struct ResolveInfo<'a> {
    request: &'a RequestInfo<'a>,
    object_type: &'a ObjectType,
    field: &'a Field,
    fields: &'a Listed<&'a Field>,
    arguments: &'a JsonMap,
    definition: Option<&'a FieldDefinition>,
    named: Option<&'a ExtendedType>,
    ghost defined: { ForSome definition (λ d. field_of request.now.schema.now object_type.now.name.text field.now.name.text ≡ Some d.now) },
    ghost of_its_name: { ForSome definition (λ d. option_copied named ≡ type_named request.now.schema.now d.now.ty) },
}

/// A field as an object type has it: its definition, where the type has the field, and the type of the schema that the
/// definition names, within all lists.
#[derive(Clone, Copy)]
pub(crate) struct FieldOnType<'a> {
    pub(crate) definition: Option<&'a FieldDefinition>,
    pub(crate) named: Option<&'a ExtendedType>,
}

impl<'a> ResolveInfo<'a> {
    ghost use Rattle.gql_resolvers.specs.ResolveInfo as spec;

    /// What a resolver is told: execution makes one for each field, and a test of a resolver may. The fields are those of
    /// one response key, and the first of them is given apart.
    #[must_use]
    #[inline(always)]
    pub fn new(
        request: &'a RequestInfo<'a>,
        object_type: &'a ObjectType,
        field: &'a Field,
        fields: &'a Listed<&'a Field>,
        arguments: &'a JsonMap,
    ) -> ResolveInfo<'a>
        ensures { spec.IsInfo result request.now object_type.now field.now fields.now arguments.now }
    {
        ResolveInfo {
            request,
            object_type,
            field,
            fields,
            arguments,
            definition: None,
            named: None,
        }
    }

    /// The same, where the field's definition on the object type is known, and the type of the schema that it names within all
    /// lists: plain data then looks neither up.
    #[must_use]
    #[inline(always)]
    pub fn planned(
        self,
        definition: &'a FieldDefinition,
        named: Option<&'a ExtendedType>,
    ) -> ResolveInfo<'a>
        requires definition { spec.definition_on_type self ≡ Some definition.now }
        requires named { option_copied named ≡ type_named (spec.schema_of self) definition.now.ty }
        ensures { spec.TellsSame result self.entry }
    {
        ResolveInfo {
            request: self.request,
            object_type: self.object_type,
            field: self.field,
            fields: self.fields,
            arguments: self.arguments,
            definition: Some(definition),
            named,
        }
    }

    /// The schema that the request is executed against.
    #[must_use]
    pub fn schema(&self) -> &'a Valid<Schema>
        ensures { result.now ≡ spec.schema_of self.now }
    {
        self.request.schema
    }

    /// The types that implement each interface of the schema.
    #[must_use]
    pub fn implementers_map(&self) -> &'a ImplementersMap
        ensures { result.now ≡ spec.implementers_of self.now }
    {
        self.request.implementers_map
    }

    /// The document that is executed.
    #[must_use]
    pub fn document(&self) -> &'a Valid<ExecutableDocument>
        ensures { result.now ≡ spec.document_of self.now }
    {
        self.request.document
    }

    /// The object type that the field is executed on: the root type, or the one that the object names.
    #[must_use]
    pub fn object_type(&self) -> &'a ObjectType
        ensures { result.now ≡ spec.object_type_of self.now }
    {
        self.object_type
    }

    /// The name of the field.
    #[must_use]
    pub fn field_name(&self) -> &'a str
        ensures { result.now ≡ spec.field_name_of self.now }
    {
        self.field.name.as_str()
    }

    /// The definition of the field on the type that it is selected on, which may be an interface of the object type.
    #[must_use]
    pub fn field_definition(&self) -> &'a FieldDefinition
        ensures { result.now ≡ spec.field_definition_of self.now }
    {
        &self.field.definition
    }

    /// The fields of the response key that the field is asked for under, in order, each once.
    #[must_use]
    pub fn field_selections(&self) -> &'a Listed<&'a Field>
        ensures { result.now ≡ spec.field_selections_of self.now }
    {
        self.fields
    }

    /// The values of the field's arguments, in the order of their definitions.
    #[must_use]
    pub fn arguments(&self) -> &'a JsonMap
        ensures { result.now ≡ spec.arguments_of self.now }
    {
        self.arguments
    }

    /// The field as the object type has it, which is looked up where it is not kept.
    #[inline(always)]
    pub(crate) fn on_object_type(&self) -> FieldOnType<'a>
        ensures definition { option_copied result.definition ≡ spec.definition_on_type self.now }
        ensures named { option_copied result.named ≡ type_named_by_field (spec.schema_of self.now) (option_copied result.definition) }
    {
        match self.definition {
            Some(definition) => FieldOnType {
                definition: Some(definition),
                named: self.named,
            },
            None => self.looked_up(),
        }
    }

    /// The same, looked up.
    fn looked_up(&self) -> FieldOnType<'a>
        ensures definition { option_copied result.definition ≡ spec.definition_on_type self.now }
        ensures named { option_copied result.named ≡ type_named_by_field (spec.schema_of self.now) (option_copied result.definition) }
    {
        let schema = self.schema().as_ref();
        match schema.type_field(self.object_type.name.as_str(), self.field_name()) {
            Some(definition) => FieldOnType {
                definition: Some(definition),
                named: schema.type_named_by(&definition.ty),
            },
            None => FieldOnType {
                definition: None,
                named: None,
            },
        }
    }
}
