//! Laws of the full query over any schema that has introspection: sections 4 and 6 of GraphQL October 2021.

ghost use Rattle.std.specs.Prelude.{◌≡◌, ◌∷◌, [], List, Option, Some, codes, ℕ};
ghost use Rattle.gql_ast.specs.declared.definition.Definition.{Definition};
ghost use Rattle.gql_ast_base.specs.Names.{Named};
ghost use Rattle.gql_ast_laws.specs.Meant.{IsDocumentOf};
ghost use Rattle.gql_client_schema.specs.Answers.{GivesAgain, IsAnsweredWith, IsQueryOn};
ghost use Rattle.gql_client_schema.specs.Query.{full_query};
ghost use Rattle.gql_client_schema_laws.specs.Answer.{data_value, schema_value};
ghost use Rattle.gql_client_schema_laws.specs.Shown.{Shows};
ghost use Rattle.gql_document_types.specs.declared.document.ExecutableDocument.{ExecutableDocument};
ghost use Rattle.gql_client_schema_laws.specs.Asked.{query_file};
ghost use Rattle.gql_client_schema_laws.specs.Data.{IsData};
ghost use Rattle.gql_client_schema_laws.specs.FullQuery.{full_definitions};
ghost use Rattle.gql_client_schema_laws.specs.Introspection.{HasIntrospection};
ghost use Rattle.gql_client_schema_laws.specs.OwnText.{IsOwnText};
ghost use Rattle.gql_client_schema_laws.specs.Selected.{full_document, full_files};
ghost use Rattle.gql_client_schema_laws.specs.Whole.{HasSchemaField, IsWhole};
ghost use Rattle.gql_parser.specs.DocumentAnswers.{IsBuiltOf};
ghost use Rattle.gql_response.specs.declared.execution_response.ExecutionResponse.{ExecutionResponse};
ghost use Rattle.gql_schema_types.specs.declared.schema.Schema.{Schema};
ghost use Rattle.gql_sdl.specs.declared.shown.ShownSchema.{ShownSchema};
ghost use Rattle.jb_tree.specs.declared.value.Value.{Value};

use gql_ast_laws::laws as tree_laws;
use gql_grammar::laws as grammar_laws;
use gql_graph::laws as graph_laws;

/// The full query's text is a document, and these are its definitions (sections 2.2 to 2.8 of GraphQL October 2021): one operation and
/// three fragments, with the place of each part.
pub fn the_full_query_is_known()
    ensures means { IsDocumentOf full_query query_file full_definitions }
    ensures only { (definitions : List Definition) → IsDocumentOf full_query query_file definitions → definitions ≡ full_definitions }
{
    grammar_laws::factored_is_declared();
    tree_laws::texts_have_one_document();
}

/// Against a schema with introspection the full query builds one document (sections 2.5, 2.8 and 5.3.1 of GraphQL October 2021): each of
/// its fields with the definition that the schema has of it.
pub fn the_full_query_builds_one_document()
    ensures { (schema : Schema) (root : Named) → HasIntrospection schema → schema.schema_definition.query ≡ Some root → HasSchemaField schema root
        → (document : ExecutableDocument) → IsBuiltOf schema full_query document → document ≡ full_document schema full_files root }
{
    grammar_laws::factored_is_declared();
    tree_laws::texts_have_one_document();
}

/// The full query is answered with what is shown of the schema, and with no errors (sections 4.2 and 6 of GraphQL October 2021). So these
/// are the data that such a schema gives again.
///
/// The schema has introspection, its types have distinct names, and whatever they refer to is defined.
pub fn the_full_query_gives_what_is_shown()
    ensures answer { (schema : Schema) (root : Named) (shown : ShownSchema) → HasIntrospection schema → IsWhole schema
        → schema.schema_definition.query ≡ Some root → HasSchemaField schema root → Shows schema shown
        → (document : ExecutableDocument) (response : ExecutionResponse) → IsQueryOn schema document → IsAnsweredWith schema document response
        → IsData response ((codes "__schema", schema_value shown) ∷ []) }
    ensures again { (schema : Schema) (root : Named) (shown : ShownSchema) → HasIntrospection schema → IsWhole schema
        → schema.schema_definition.query ≡ Some root → HasSchemaField schema root → Shows schema shown
        → (given : Option Value) → GivesAgain schema given → given ≡ Some (data_value shown) }
{
    grammar_laws::factored_is_declared();
    tree_laws::texts_have_one_document();
    graph_laws::acyclic_graphs_have_ranks();
}

/// A schema whose text defines and extends nothing built in has the types of introspection as the standard defines them (section 4.2 of
/// GraphQL October 2021).
pub fn schemas_have_introspection()
    ensures { (text : List ℕ) (schema : Schema) → IsOwnText text schema → HasIntrospection schema }
{
    grammar_laws::factored_is_declared();
    tree_laws::texts_have_one_document();
}
