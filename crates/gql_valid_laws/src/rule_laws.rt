//! Laws of the definitions alone.

ghost use Rattle.std.specs.Prelude.{ℕ, List};
ghost use Rattle.std.specs.List.{Contains};
ghost use Rattle.gql_collect.specs.Flat.{flat};
ghost use Rattle.gql_collect.specs.Kept.{Variables};
ghost use Rattle.gql_document_types.specs.Expanded.{expanded};
ghost use Rattle.gql_document_types.specs.declared.document.ExecutableDocument.{ExecutableDocument as DocumentOf};
ghost use Rattle.gql_document_types.specs.declared.fragment.Fragment.{Fragment};
ghost use Rattle.gql_document_types.specs.declared.operation.Operation.{Operation as OperationOf};
ghost use Rattle.gql_parser.specs.DocumentText.{DocumentText};
ghost use Rattle.gql_parser.specs.SchemaText.{SchemaText};
ghost use Rattle.gql_schema_types.specs.declared.schema.Schema.{Schema as SchemaOf};
ghost use Rattle.gql_schema_types.specs.declared.types.ObjectType.{ObjectType};
ghost use Rattle.gql_valid_laws.specs.Covariant.{IsCovariant, Stands};
ghost use Rattle.gql_valid_laws.specs.Merge.{AreOfOneName, HaveOneDepth, HaveOneName, OperationsMerge};
ghost use Rattle.gql_valid_laws.specs.Outputs.{NameOutputTypes};

use gql_ast_laws::laws as tree_laws;
use gql_document_types::laws as expansion_laws;
use gql_grammar::laws as grammar_laws;
use gql_parser::laws as text_laws;

/// In a document that a text means, the fields of one response key that are collected for the root of an operation have one name,
/// whatever the variables are (GraphQL October 2021, section 5.3.2). And so have those of the operation with each spread replaced,
/// in a document of any fragments.
pub fn root_fields_have_one_name()
    ensures written { (schema : SchemaOf) (text : List ℕ) (document : DocumentOf) → DocumentText schema text document
        → (operation : OperationOf) → Contains document.operations operation → (T : ObjectType) → Stands schema T operation.selection_set.ty.text
        → (variables : Variables)
        → AreOfOneName (flat (record { fragments = document.fragments; schema = schema; object = T; variables = variables }) operation.selection_set.selections) }
    ensures expanded { (schema : SchemaOf) (text : List ℕ) (document : DocumentOf) → DocumentText schema text document
        → (operation : OperationOf) → Contains document.operations operation → (T : ObjectType) → Stands schema T operation.selection_set.ty.text
        → (variables : Variables) (others : List Fragment)
        → AreOfOneName (flat (record { fragments = others; schema = schema; object = T; variables = variables })
        (expanded document.fragments operation.selection_set.selections)) }
{
    expansion_laws::acyclic_fragments_have_contents();
    text_laws::valid_documents_run();
}

/// In a document that a text means, the fields of one response key that one object can have are one field, at every depth (GraphQL
/// October 2021, section 5.3.2): they have one name. And their types have as many lists in one another, where a text means the schema.
pub fn fields_of_one_key_merge()
    ensures names { (schema : SchemaOf) (text : List ℕ) (document : DocumentOf) → DocumentText schema text document
        → OperationsMerge HaveOneName schema document }
    ensures lists { (schema_text : List ℕ) (schema : SchemaOf) (text : List ℕ) (document : DocumentOf) → SchemaText schema_text schema
        → DocumentText schema text document → OperationsMerge HaveOneDepth schema document }
{
    text_laws::fields_have_output_types();
}

/// In a schema that a text means, an object type has each field of an interface that it lists and of a union that it is a member of,
/// and of a type that fits: with as many lists in one another, and of a type that stands for that of the other (GraphQL October 2021,
/// sections 3.6, 3.7 and 3.8).
pub fn object_types_are_covariant()
    ensures { (text : List ℕ) (schema : SchemaOf) → SchemaText text schema → IsCovariant schema }
{
    grammar_laws::factored_is_declared();
    tree_laws::texts_have_one_document();
    text_laws::fields_have_output_types();
    text_laws::roots_are_object_types();
}

/// In a schema that a text means, each field that a type has, be it its own or one of introspection, names a type that is defined and
/// is no input object type (GraphQL October 2021, sections 3.3, 3.6, 3.7, 4.1 and 4.2).
pub fn all_fields_name_output_types()
    ensures { (text : List ℕ) (schema : SchemaOf) → SchemaText text schema → NameOutputTypes schema }
{
    grammar_laws::factored_is_declared();
    tree_laws::texts_have_one_document();
    text_laws::fields_have_output_types();
}
