//! Laws of the definitions alone.

ghost use Rattle.std.specs.Prelude.{◌≡◌, ◌<◌, ◌^◌, ℕ, List, Option, Some};
ghost use Rattle.gql_parser.specs.DocumentText.{DocumentText};
ghost use Rattle.gql_document_types.specs.ChosenOperation.{chosen};
ghost use Rattle.gql_document_types.specs.declared.document.ExecutableDocument.{ExecutableDocument as DocumentOf};
ghost use Rattle.gql_document_types.specs.declared.operation.Operation.{Operation as OperationOf};
ghost use Rattle.gql_engine.specs.NotAsked.{IsAsked, NotAsked};
ghost use Rattle.gql_engine.specs.Request.{Asked};
ghost use Rattle.gql_engine.specs.declared.request_form.RequestForm.{RequestForm as FormOf};
ghost use Rattle.gql_engine.specs.declared.request_form.RequestForm.TheVariants.{Plain};
ghost use Rattle.gql_engine.specs.SelfTest.{self_test};
ghost use Rattle.gql_parser.specs.SchemaText.{SchemaText};
ghost use Rattle.gql_schema_types.specs.declared.schema.Schema.{Schema as SchemaOf};
ghost use Rattle.gql_engine.specs.Meaning.{IsSelfTest};
ghost use Rattle.gql_engine.specs.Texts.{query_text, schema_text};

use gql_ast_laws::laws as tree_laws;
use gql_grammar::laws as grammar_laws;
use jb_read::laws as json_laws;

/// Bytes are one request of a form, or there is one message that says why they are none.
pub fn bytes_ask_one_thing()
    ensures request { (form : FormOf) (bytes : List ℕ) (one other : Asked) → IsAsked form bytes one → IsAsked form bytes other → one ≡ other }
    ensures not_both { (form : FormOf) (bytes : List ℕ) (request : Asked) (message : List ℕ) → IsAsked form bytes request
        → NotAsked form bytes message → ⊥ }
    ensures message { (form : FormOf) (bytes one other : List ℕ) → NotAsked form bytes one → NotAsked form bytes other → one ≡ other }
{
    json_laws::each_text_has_one_answer();
}

/// The request of a self-test has these texts, however many items its data has.
pub fn self_tests_ask_this()
    ensures { (items : ℕ) (request : Asked) → items < 2 ^ 64 → IsAsked Plain (self_test items) request
        → (request.schema ≡ schema_text) × (request.query ≡ query_text) }
{
    json_laws::each_text_has_one_answer();
}

/// These texts mean the two object types, and the one operation, whichever name it is chosen by (GraphQL October 2021, sections 2
/// and 3).
pub fn self_tests_mean_this()
    ensures { (schema : SchemaOf) (document : DocumentOf) (name : Option (List ℕ)) (operation : OperationOf)
        → SchemaText schema_text schema → DocumentText schema query_text document → chosen name document.operations ≡ Some operation
        → IsSelfTest schema document operation }
{
    grammar_laws::factored_is_declared();
    tree_laws::texts_have_one_document();
}
