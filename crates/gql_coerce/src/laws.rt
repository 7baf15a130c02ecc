//! Laws of coercion.

ghost use Rattle.std.specs.Prelude.{◌≡◌, List, ℕ};
ghost use Rattle.jb_tree.specs.declared.value.Value.{Value};
ghost use Rattle.gql_ast_base.specs.declared.directive.Argument.{Argument};
ghost use Rattle.gql_ast_base.specs.declared.type_ref.TypeRef.{TypeRef};
ghost use Rattle.gql_ast_base.specs.declared.value.Value.{Value as Literal};
ghost use Rattle.gql_ast.specs.declared.field_definition.InputValueDefinition.{InputValueDefinition};
ghost use Rattle.gql_ast.specs.declared.operation.VariableDefinition.{VariableDefinition};
ghost use Rattle.gql_schema_types.specs.declared.types.ExtendedType.{ExtendedType};
ghost use Rattle.gql_coerce.specs.Filled.{Members};
ghost use Rattle.gql_coerce.specs.InputValue as values;
ghost use Rattle.gql_coerce.specs.LiteralValue as literals;
ghost use Rattle.gql_coerce.specs.Inputs.{InputOf, NoInput, LiteralOf, NoLiteral, Coerced, NotCoerced, ArgumentsOf, NoArguments, HasOne};

/// Coercion of JSON values follows its rule at each level of a value, and no other function does (GraphQL October 2021, section 3).
pub fn values_follow_the_rule()
    ensures follows { (types : List ExtendedType) (value : Value) → values.coerced types value ≡ values.rule types (values.coerced types) value }
    ensures only { (types : List ExtendedType) (other : Value → values.Coercion) → ((value : Value) → other value ≡ values.rule types other value)
        → (value : Value) → other value ≡ values.coerced types value }
{}

/// Coercion of literals follows its rule at each level of a literal, and no other function does (GraphQL October 2021, section 3).
pub fn literals_follow_the_rule()
    ensures follows { (types : List ExtendedType) (env : Members) (it : Literal) → literals.coerced_literal types env it ≡ literals.literal_rule types env (literals.coerced_literal types env) it }
    ensures only { (types : List ExtendedType) (env : Members) (other : Literal → literals.Coercion) → ((it : Literal) → other it ≡ literals.literal_rule types env other it)
        → (it : Literal) → other it ≡ literals.coerced_literal types env it }
{}

/// Each input has exactly one outcome: one value and no fault, or one fault and no value (GraphQL October 2021, sections 3, 6.1.2
/// and 6.4.1).
pub fn each_input_has_one_outcome()
    ensures values { (types : List ExtendedType) (subject : List ℕ) (ty : TypeRef) (value : Value) → HasOne (InputOf types subject ty value) (NoInput types subject ty value) }
    ensures literals { (types : List ExtendedType) (env : Members) (subject : List ℕ) (ty : TypeRef) (it : Literal)
        → HasOne (LiteralOf types env subject ty it) (NoLiteral types env subject ty it) }
    ensures variables { (types : List ExtendedType) (definitions : List VariableDefinition) (values : Members)
        → HasOne (Coerced types definitions values) (NotCoerced types definitions values) }
    ensures arguments { (types : List ExtendedType) (env : Members) (definitions : List InputValueDefinition) (arguments : List Argument)
        → HasOne (ArgumentsOf types env definitions arguments) (NoArguments types env definitions arguments) }
{}
