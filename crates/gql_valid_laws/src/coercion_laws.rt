//! Laws of the definitions alone.

ghost use Rattle.std.specs.Prelude.{List, ℕ};
ghost use Rattle.std.specs.List.{All};
ghost use Rattle.gql_ast.specs.declared.operation.VariableDefinition.{VariableDefinition};
ghost use Rattle.gql_coerce.specs.Filled.{Members};
ghost use Rattle.gql_coerce.specs.Variables.{coerced_variables};
ghost use Rattle.gql_valid_laws.specs.Inputs.{AreInputFields, IsInputVariable};
ghost use Rattle.gql_valid_laws.specs.Marks.{LeavesNoMark};
ghost use Rattle.gql_valid_laws.specs.Unmarked.{IsUnmarked};
ghost use Rattle.gql_document_types.specs.declared.document.ExecutableDocument.{ExecutableDocument as DocumentOf};
ghost use Rattle.gql_parser.specs.DocumentText.{DocumentText};
ghost use Rattle.gql_parser.specs.SchemaText.{SchemaText};
ghost use Rattle.gql_schema_types.specs.declared.schema.Schema.{Schema as SchemaOf};
ghost use Rattle.gql_schema_types.specs.declared.types.ExtendedType.{ExtendedType};

use gql_ast_laws::laws as tree_laws;
use gql_grammar::laws as grammar_laws;
use gql_parser::laws as text_laws;

/// Where each input field and each variable is of an input type and has a constant default, if it has one, no fault that comes of
/// coercing values to the variables is marked as a suspected fault of validation (GraphQL October 2021, section 6.1.2).
pub fn input_types_leave_no_mark()
    ensures { (types : List ExtendedType) (variables : List VariableDefinition) (values : Members) → AreInputFields types
        → All (IsInputVariable types) variables → IsUnmarked (coerced_variables types variables values) }
{}

/// In a schema that a text means, each input field is of an input type and has a constant default, if it has one; and so is and
/// has each variable of a document that a text means against the schema. So no fault that comes of coercing values to the
/// variables of an operation of the document is marked as a suspected fault of validation (GraphQL October 2021, sections
/// 3.10, 5.8.2 and 6.1.2).
pub fn validated_documents_leave_no_mark()
    ensures fields { (text : List ℕ) (schema : SchemaOf) → SchemaText text schema → AreInputFields schema.types }
    ensures variables { (query : List ℕ) (schema : SchemaOf) (document : DocumentOf) → DocumentText schema query document
        → All (λ operation. All (IsInputVariable schema.types) operation.variables) document.operations }
    ensures unmarked { (text query : List ℕ) (schema : SchemaOf) (document : DocumentOf) → SchemaText text schema
        → DocumentText schema query document → All (LeavesNoMark schema) document.operations }
{
    grammar_laws::factored_is_declared();
    tree_laws::texts_have_one_document();
    text_laws::built_in_text_is_a_document();
    tree_laws::defaults_are_constant();
    input_types_leave_no_mark();
}
