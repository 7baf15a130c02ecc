//! Laws of the definitions alone. Those of the texts of schemas and documents, and of requests, are passed on from below.

ghost use Rattle.std.specs.Prelude.{◌≡◌, ◌≢◌, ℕ, List, []};
ghost use Rattle.gql_engine.specs.AnswerError.{Call, ComesFor, HasCause, IsNoVariables, IsObjectText, IsValid, wanted_with};
ghost use Rattle.std.specs.Borrow.{Bor};
ghost use Rattle.std.specs.Option.{unwrap_or};
ghost use Rattle.gql_diag.specs.List.{Diagnostics};
ghost use Rattle.gql_engine.specs.Request.{asked_in};
ghost use Rattle.gql_engine.specs.declared.request_form.Request.{Request as RequestOf};
ghost use Rattle.gql_response.specs.declared.graphql_error.GraphQLError.{GraphQLError as ErrorOf};
ghost use Rattle.gql_engine.specs.Meant.{AreFaults, Meant};
ghost use Rattle.gql_engine.specs.Ready.{Ready};
ghost use Rattle.gql_engine.specs.Reply.{root_of, wanted_of};
ghost use Rattle.gql_engine.specs.Responding.{HasCauseOf};
ghost use Rattle.gql_engine.specs.Unanswered.{Unanswered};
ghost use Rattle.gql_engine.specs.Wanted.{Members, Wanted as WantedOf, wanted_over};
ghost use Rattle.gql_engine.specs.declared.answer_error.AnswerError.{AnswerError as Refusal};
ghost use Rattle.gql_engine.specs.declared.answer_error.AnswerError.TheVariants as refusal;

pub use crate::request_laws::bytes_ask_one_thing;
use gql_parser::laws as text_laws;
pub use gql_parser::laws::{
    documents_are_typed, fields_have_output_types, operations_select_something,
    roots_are_object_types, texts_have_one_document_each, texts_have_one_schema,
    valid_documents_run,
};
use jb_read::laws as json_laws;

/// The causes of refusals exclude one another: where one holds, another is the same refusal, or want of memory, whose cause always
/// holds; and where nothing is in the way of a response, none but that holds. So who refuses only where there is a cause, refuses
/// exactly where there is one. They are those of a call over texts, or of what is wanted of them where the variables are read; and
/// the causes of the latter are causes of the former.
pub fn causes_exclude_one_another()
    ensures calls { (call : Call) (error told : Refusal) → error ≢ refusal.Memory → HasCause call error → HasCause call told → ComesFor error told }
    ensures valid { (call : Call) (error : Refusal) → IsValid call → HasCause call error → error ≡ refusal.Memory }
    ensures wanted { (wanted : WantedOf) (error told : Refusal) → error ≢ refusal.Memory → HasCauseOf wanted error → HasCauseOf wanted told
        → ComesFor error told }
    ensures ready { (wanted : WantedOf) (error : Refusal) → Ready wanted → HasCauseOf wanted error → error ≡ refusal.Memory }
    ensures lifted { (call : Call) (members : Members) (error : Refusal) → IsObjectText call.variables members
        → HasCauseOf (wanted_with call members) error → HasCause call error }
    ensures unread { (call : Call) (error : Refusal) → IsNoVariables call.variables error → HasCause call error }
{
    json_laws::each_text_has_one_answer();
    text_laws::texts_have_one_schema();
    text_laws::texts_have_one_document_each();
}

/// What is answered has no cause of a refusal, and of two texts that mean something nothing is wrong with either.
pub fn answers_and_refusals_exclude_one_another()
    ensures unanswered { (wanted : WantedOf) (errors : List ErrorOf) → Ready wanted → Unanswered wanted errors → ⊥ }
    ensures faulty { (schema query : List ℕ) (list : Diagnostics) → Meant schema query → AreFaults schema query list → ⊥ }
{
    json_laws::each_text_has_one_answer();
    text_laws::texts_have_one_schema();
    text_laws::texts_have_one_document_each();
}

/// A value of what is wanted that has a request's own operation name, variables and introspection wants what the request asks, where
/// an empty map stands for variables that are absent; and so it is with the request's data.
pub fn requests_want_this()
    ensures wanted { (request : RequestOf) (none : Bor Members) → none.now ≡ []
        → wanted_over request.schema.now request.query.now
        (record { operation_name = request.operation_name; variables = unwrap_or request.variables none; introspection = request.introspection })
        ≡ wanted_of (asked_in request) }
    ensures root { (request : RequestOf) (none : Bor Members) (found : Bor Members) → none.now ≡ [] → found ≡ unwrap_or request.root none
        → record { type_name = []; members = found.now } ≡ root_of (asked_in request) }
{}

/// What is wanted is ready in one way: with one schema, document and operation, and one value of each variable; and the text of an
/// object has one list of members.
pub fn readiness_is_one()
    ensures schema { (wanted : WantedOf) (one other : Ready wanted) → one.meant.schema ≡ other.meant.schema }
    ensures document { (wanted : WantedOf) (one other : Ready wanted) → one.meant.document ≡ other.meant.document }
    ensures operation { (wanted : WantedOf) (one other : Ready wanted) → one.operation ≡ other.operation }
    ensures variables { (wanted : WantedOf) (one other : Ready wanted) → one.variables ≡ other.variables }
    ensures members { (text : List ℕ) (one other : Members) → IsObjectText text one → IsObjectText text other → one ≡ other }
{
    json_laws::each_text_has_one_answer();
    text_laws::texts_have_one_schema();
    text_laws::texts_have_one_document_each();
}
