//! Laws of the definitions alone.

ghost use Rattle.std.specs.Prelude.{ℕ, List};
ghost use Rattle.gql_valid_laws.specs.UnmarkedAnswers.{LeavesNoMark};
ghost use Rattle.gql_document_types.specs.declared.selection.Selection.{Selection};
ghost use Rattle.gql_exec.specs.Request.{Request};
ghost use Rattle.gql_parser.specs.SchemaText.{SchemaText};
ghost use Rattle.gql_schema_types.specs.declared.types.ObjectType.{ObjectType};

use crate::rule_laws as text_laws;

/// Where a text means the schema, no fault that comes of completing an answer is marked as a suspected fault of validation: the type
/// of each place that an execution reaches names a type that is defined and is no input object type (GraphQL October 2021, sections
/// 3.3 and 6.4.3). This holds whatever the document is, and whatever the resolver answers.
pub fn completing_leaves_no_mark<X>()
    ensures { (text : List ℕ) (r : Request X) → SchemaText text r.schema → (root : ObjectType) (initial : X) (selections : List Selection)
        → LeavesNoMark r root initial selections }
{
    text_laws::all_fields_name_output_types();
}
