//! Laws of what introspection shows of a schema: section 4 of GraphQL October 2021.

ghost use Rattle.std.specs.Prelude.{◌≡◌, ℕ, false, List, [], Some, codes};
ghost use Rattle.std.specs.Map.{lookup};
ghost use Rattle.std.specs.Str.{bytes_eq};
ghost use Rattle.gql_introspection.specs.Deprecation.{default_reason};
ghost use Rattle.gql_ast.specs.declared.field_definition.EnumValueDefinition.{EnumValueDefinition};
ghost use Rattle.gql_ast.specs.declared.field_definition.FieldDefinition.{FieldDefinition};
ghost use Rattle.gql_ast.specs.declared.field_definition.InputValueDefinition.{InputValueDefinition};
ghost use Rattle.gql_ast.specs.declared.schema_definition.DirectiveDefinition.{DirectiveDefinition};
ghost use Rattle.gql_client_schema.specs.Parts.{read_answer};
ghost use Rattle.gql_client_schema.specs.Reading.{Gives};
ghost use Rattle.gql_client_schema_laws.specs.Alike.{FindAlike};
ghost use Rattle.gql_client_schema_laws.specs.AsPrinted.{AreConstantDefaults, UsesAsPrinted};
ghost use Rattle.gql_client_schema_laws.specs.Given as given;
ghost use Rattle.gql_client_schema_laws.specs.Answer.{Pairs, data_value};
ghost use Rattle.gql_client_schema_laws.specs.PrintedDefinitions.{AreAsPrinted};
ghost use Rattle.gql_client_schema_laws.specs.Proper.{IsProper};
ghost use Rattle.gql_client_schema_laws.specs.Settled.{IsPlaced, settled};
ghost use Rattle.gql_client_schema_laws.specs.Shown as spec;
ghost use Rattle.gql_client_schema_laws.specs.Throughout.{IsPlacedThroughout};
ghost use Rattle.gql_diag_messages.specs.declared.diagnostic_data.DiagnosticData.{DiagnosticData};
ghost use Rattle.gql_schema_rules_parts.specs.DuplicateRootOperationType.{duplicate_root_operation_type};
ghost use Rattle.gql_schema_rules_parts.specs.QueryRootOperationType.{query_root_operation_type};
ghost use Rattle.gql_schema_rules_parts.specs.SchemaRules.{roots_faults};
ghost use Rattle.gql_schema.specs.BuiltInSchema.{IsBuiltIn};
ghost use Rattle.gql_client_schema_laws.specs.Standard.{HasStandard};
ghost use Rattle.gql_schema_build.specs.Build.{built, build_faults};
ghost use Rattle.gql_schema_build.specs.declared.built_in.BuiltIn.{BuiltIn};
ghost use Rattle.gql_schema_build.specs.declared.type_system.TypeSystem.{TypeSystem};
ghost use Rattle.gql_schema_rules.specs.Scalars.{validated};
ghost use Rattle.gql_schema_rules.specs.SchemaFaults.{AreSchemaFaults};
ghost use Rattle.gql_schema_types.specs.declared.schema.Schema.{Schema};
ghost use Rattle.gql_schema_types.specs.declared.types.ExtendedType.{ExtendedType};
ghost use Rattle.gql_schema_types.specs.declared.types.InterfaceType.{InterfaceType};
ghost use Rattle.gql_schema_types.specs.declared.types.UnionType.{UnionType};
ghost use Rattle.gql_sdl.specs.declared.shown.ShownSchema.{ShownSchema};
ghost use Rattle.gql_source.specs.File.{Files};
ghost use Rattle.jb_tree.specs.declared.value.Value.{Object};

use crate::alike_laws;
use gql_ast_laws::laws as tree_laws;
use gql_grammar::laws as grammar_laws;
use gql_print_laws::laws as print_laws;

/// Definitions that say what is shown of a schema build without a fault a schema of which the same is shown (sections 3 and 4 of
/// GraphQL October 2021).
///
/// The first schema is built without a fault of definitions and extensions none of which is of something built in. The others have no
/// extensions, and say each type and directive that is shown and not built in, in order, with the roots. They may stand in any files,
/// and use what other directives they like.
pub fn rebuilt_definitions_show_the_same()
    ensures faults { (sources : Files) (built_in : BuiltIn) (first user : TypeSystem) (shown : ShownSchema)
        → spec.HasBuiltInNames built_in → spec.IsOwn first → build_faults false built_in first ≡ []
        → spec.Shows (built sources false built_in first) shown → spec.Says (default_reason (built sources false built_in first)) user shown
        → build_faults false built_in user ≡ [] }
    ensures shows { (sources files : Files) (built_in : BuiltIn) (first user : TypeSystem) (shown : ShownSchema)
        → spec.HasBuiltInNames built_in → spec.IsOwn first → build_faults false built_in first ≡ []
        → spec.Shows (built sources false built_in first) shown → spec.Says (default_reason (built sources false built_in first)) user shown
        → spec.Shows (built files false built_in user) shown }
{}

/// The built-in definitions have the names that are left out where a schema is printed: the five directives, the types of
/// introspection, and the five scalars.
pub fn built_in_definitions_have_known_names()
    ensures { (built_in : BuiltIn) → IsBuiltIn built_in → spec.HasBuiltInNames built_in }
{
    grammar_laws::factored_is_declared();
    tree_laws::texts_have_one_document();
}

/// What is built of definitions that say what is shown of a schema has what the standard builds in: `String`, `@deprecated`, `@specifiedBy`
/// and `@oneOf` (sections 3.5 and 3.13 of GraphQL October 2021, and section 3.10.1 of September 2025).
pub fn rebuilt_schemas_have_the_standard()
    ensures { (sources files : Files) (built_in : BuiltIn) (first user : TypeSystem) (shown : ShownSchema)
        → IsBuiltIn built_in → spec.IsOwn first → build_faults false built_in first ≡ []
        → spec.Shows (built sources false built_in first) shown → spec.Says (default_reason (built sources false built_in first)) user shown
        → HasStandard (built files false built_in user) }
{
    grammar_laws::factored_is_declared();
    tree_laws::texts_have_one_document();
}

/// Whatever a rule asks of the type of a name, it is answered alike in two schemas of which the same is shown: whether there is one, and
/// whether it is of another kind than object types, composite, or an input object (sections 3.4 and 3.3.1 of GraphQL October 2021).
pub fn shown_types_are_found_alike()
    ensures { (schema other : Schema) (shown : ShownSchema) → spec.Shows schema shown → spec.Shows other shown
        → (name : List ℕ) → FindAlike schema.types other.types name }
{}

/// A schema of which something is shown has a root type of queries; and where each root type of a schema is an object type that is
/// defined, and each operation has one of its own, it is so in another schema of which the same is shown (section 3.3.1 of GraphQL
/// October 2021).
pub fn shown_roots_are_right_alike()
    ensures query { (schema : Schema) (shown : ShownSchema) → spec.Shows schema shown
        → query_root_operation_type schema.schema_definition ≡ [] }
    ensures roots { (schema other : Schema) (shown : ShownSchema) → spec.Shows schema shown → spec.Shows other shown
        → roots_faults schema ≡ [] → roots_faults other ≡ [] }
    ensures apart { (schema other : Schema) (shown : ShownSchema) → spec.Shows schema shown → spec.Shows other shown
        → duplicate_root_operation_type schema.types schema.schema_definition ≡ []
        → duplicate_root_operation_type other.types other.schema_definition ≡ [] }
{}

/// Where no rule of section 3 of GraphQL October 2021 finds a fault in a schema, none finds one in another schema of which the same is
/// shown.
///
/// Of both, what is built in stands in the file of built-in definitions and all else in others, and defaults are constant. The other one
/// uses directives only to tell what is shown, as printing does, and has what the standard builds in. Uses of directives are not shown, so
/// without this it could use one where that may not stand.
pub fn shown_schemas_stay_valid()
    ensures { (schema other : Schema) (shown : ShownSchema) → spec.Shows schema shown → spec.Shows other shown
        → IsPlacedThroughout schema → IsPlacedThroughout other → AreConstantDefaults schema → AreConstantDefaults other
        → UsesAsPrinted other → HasStandard other
        → (faults told : List DiagnosticData) → AreSchemaFaults schema faults → AreSchemaFaults other told → faults ≡ [] → told ≡ [] }
{
    print_laws::printed_values_are_read_back();
    alike_laws::types_stay_right();
    alike_laws::directives_stay_right();
    alike_laws::interfaces_stay_implemented();
    alike_laws::nothing_comes_to_lead_back();
}

/// Definitions that say what is shown of a schema in which no rule of section 3 of GraphQL October 2021 finds a fault build one in which
/// none finds a fault.
///
/// The first schema is built without a fault of definitions and extensions of nothing built in, is placed as texts place schemas, and has
/// constant defaults. The other definitions stand in other files than the built-in one, have constant defaults, and use directives only to
/// tell what is shown, as printing does. What is built in is such by itself.
pub fn rebuilt_schemas_stay_valid()
    ensures { (sources files : Files) (built_in : BuiltIn) (first user : TypeSystem) (shown : ShownSchema)
        → IsBuiltIn built_in → spec.IsOwn first → build_faults false built_in first ≡ []
        → spec.Shows (built sources false built_in first) shown → spec.Says (default_reason (built sources false built_in first)) user shown
        → IsPlacedThroughout (built sources false built_in first) → AreConstantDefaults (built sources false built_in first)
        → AreAsPrinted (default_reason (built files false built_in user)) user
        → (faults told : List DiagnosticData) → AreSchemaFaults (built sources false built_in first) faults
        → AreSchemaFaults (built files false built_in user) told → faults ≡ [] → told ≡ [] }
{
    grammar_laws::factored_is_declared();
    tree_laws::texts_have_one_document();
    built_in_definitions_have_known_names();
    rebuilt_definitions_show_the_same();
    rebuilt_schemas_have_the_standard();
    shown_schemas_stay_valid();
}

/// What each field that the full query asks for gives on each object of introspection, by what is shown of the thing that it tells of
/// (section 4.2 of GraphQL October 2021): the very leaf, null where the kind of a type has no such part, or the objects of all its parts
/// in order, the deprecated ones too.
pub fn introspection_gives_what_is_shown()
    ensures schema { (schema : Schema) → given.GivesSchema schema }
    ensures types { (schema : Schema) (ty : ExtendedType) → given.GivesType schema ty }
    ensures interfaces { (schema : Schema) (it : InterfaceType) → given.GivesPossible schema it }
    ensures unions { (schema : Schema) (it : UnionType) → given.GivesMembers schema it }
    ensures fields { (schema : Schema) (field : FieldDefinition) → given.GivesField schema field }
    ensures inputs { (schema : Schema) (value : InputValueDefinition) → given.GivesInput schema value }
    ensures values { (schema : Schema) (value : EnumValueDefinition) → given.GivesValue schema value }
    ensures directives { (schema : Schema) (directive : DirectiveDefinition) → given.GivesDirective schema directive }
{}

/// What is shown of a schema tells what is shown of it as validation leaves it: without the scalars `Int`, `Float` and `ID` that nothing
/// names which is not built in (section 3.5 of GraphQL October 2021).
///
/// So it is the same of two schemas of which the same is shown. What is built in stands in the file of built-in definitions, and all else
/// in other files.
pub fn settled_schemas_show_the_same()
    ensures { (schema : Schema) (shown : ShownSchema) → spec.Shows schema shown → IsPlaced schema → spec.Shows (validated schema) (settled shown) }
{}

/// An answer that says what is shown of a schema is read as just that, whatever stands beside its data (section 4.2 of GraphQL October
/// 2021).
///
/// Its names are names, its references end within eight wrappers, its defaults are printed constant values, and each type has the parts
/// of its kind alone.
pub fn shown_answers_are_read_back()
    ensures { (shown : ShownSchema) (members : Pairs) → IsProper shown → lookup (bytes_eq (codes "data")) members ≡ Some (data_value shown)
        → Gives (read_answer (Object members)) shown }
{}
