//! Laws of schemas that tell each other again: section 3 of GraphQL October 2021, rule by rule.
//!
//! In each law the second schema tells the first one again (`IsRetold`), and has what the standard builds in (`HasStandard`).

ghost use Rattle.std.specs.Prelude.{◌≡◌, List, []};
ghost use Rattle.gql_diag_messages.specs.declared.diagnostic_data.DiagnosticData.{DiagnosticData};
ghost use Rattle.gql_schema_rules_parts.specs.InterfaceRules.{interfaces_faults};
ghost use Rattle.gql_schema_rules_parts.specs.SchemaRules.{directive_definitions_faults};
ghost use Rattle.gql_schema_rules_parts.specs.TypeRules.{types_faults};
ghost use Rattle.gql_rules_values.specs.Directives.{directive_faults};
ghost use Rattle.gql_rules_values.specs.declared.known.Defined.TheVariants.{TypesAndScalars};
ghost use Rattle.gql_ast.specs.declared.schema_definition.DirectiveLocation.TheVariants as at;
ghost use Rattle.gql_client_schema_laws.specs.Retold.{IsRetold};
ghost use Rattle.gql_client_schema_laws.specs.Standard.{HasStandard};
ghost use Rattle.gql_schema_rules.specs.RecursiveDirectiveDefinition.{AreRecursiveDirectives};
ghost use Rattle.gql_schema_rules.specs.RecursiveInputObjectDefinition.{AreRecursiveInputObjects};
ghost use Rattle.gql_schema_rules.specs.RecursiveInterfaceDefinition.{AreRecursiveInterfaces};
ghost use Rattle.gql_schema_types.specs.declared.schema.Schema.{Schema};

/// Where nothing is wrong with the types of a schema, each by itself, nothing is wrong with those of a schema that tells it again: names
/// that are reserved, sets that are empty, types that are not defined or of no right kind, defaults that do not have their type, fields
/// of one-of input objects, and uses of directives (sections 3.5 to 3.10 of GraphQL October 2021).
pub fn types_stay_right()
    ensures { (schema again : Schema) → IsRetold schema again → HasStandard again → types_faults schema ≡ [] → types_faults again ≡ [] }
{}

/// The same of directives (section 3.13 of GraphQL October 2021). On the schema itself none is used.
pub fn directives_stay_right()
    ensures definitions { (schema again : Schema) → IsRetold schema again → HasStandard again
        → directive_definitions_faults schema ≡ [] → directive_definitions_faults again ≡ [] }
    ensures uses { (schema again : Schema) → IsRetold schema again → HasStandard again
        → directive_faults TypesAndScalars again.types at.Schema again.directive_definitions again.schema_definition.directives ≡ [] }
{}

/// Where each type implements its interfaces in a schema, so it does in a schema that tells it again: the interfaces of interfaces are
/// listed, fields and arguments are there, fields are covariant, and further arguments may be left out (sections 3.6 and 3.7 of GraphQL
/// October 2021).
pub fn interfaces_stay_implemented()
    ensures { (schema again : Schema) → IsRetold schema again → interfaces_faults schema.types ≡ [] → interfaces_faults again.types ≡ [] }
{}

/// Where nothing leads back to itself in a schema, nor by a chain too long, nothing does in a schema that tells it again: interfaces that
/// implement themselves, input objects that need themselves, and directives in their own definitions (sections 3.7, 3.10 and 3.13 of
/// GraphQL October 2021). Of directives the first schema need not be asked: uses that tell what introspection shows lead nowhere.
pub fn nothing_comes_to_lead_back()
    ensures interfaces { (schema again : Schema) (told told_again : List DiagnosticData) → IsRetold schema again
        → AreRecursiveInterfaces schema.types told → AreRecursiveInterfaces again.types told_again → told ≡ [] → told_again ≡ [] }
    ensures input_objects { (schema again : Schema) (told told_again : List DiagnosticData) → IsRetold schema again
        → AreRecursiveInputObjects schema.types told → AreRecursiveInputObjects again.types told_again → told ≡ [] → told_again ≡ [] }
    ensures directives { (schema again : Schema) (told : List DiagnosticData) → IsRetold schema again → HasStandard again
        → AreRecursiveDirectives again.directive_definitions again.types told → told ≡ [] }
{}
