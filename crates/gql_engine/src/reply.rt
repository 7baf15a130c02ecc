//! What is done with a request by the wish: it is answered, or its texts are checked.

ghost use Rattle.std.specs.Prelude.{◌≡◌, ℕ, IfOk};
ghost use Rattle.gql_engine.specs.Request.{asked_in};
ghost use Rattle.gql_engine.specs.declared.task.Wish.TheVariants as wished;
ghost use Rattle.gql_engine.specs.Reply.{wanted_of};
ghost use Rattle.gql_engine.specs.bridge.Reply.{RespondsTo, WishAnswers, WishMust, WishMustNot, WishRefuses};
ghost use Rattle.gql_engine.specs.Reports.{reports_of};
ghost use Rattle.gql_engine.specs.Responding.{OrCause};
ghost use Rattle.gql_engine.specs.declared.output.Output.TheVariants as outputs;
ghost use Rattle.gql_engine.specs.Serving.{IsDoneOutput, IsOutput, IsRefusedOutput};

use crate::answer_error::AnswerError;
use crate::laws;
use crate::list_reports::reports;
use crate::meaning::faults_of_texts;
use crate::output::{Output, done_with, refused_for};
use crate::request_command::RequestCommand;
use crate::request_form::{Request, RequestForm};
use crate::responding::respond;
use crate::response_bytes::Written;
use crate::task::Wish;
use crate::wanted::Wanted;
use bytes::Bytes;
use gql_collect::Steps;
use gql_diag::DiagnosticList;
use gql_resolvers::DataObject;
use jb_tree::{Map, Memory};
use std::alloc::Global;
use std::sync::ledger::Ledger;

impl RequestCommand for Wish {
    ghost use Rattle.gql_engine.specs.declared.request_form.RequestForm.TheVariants.{Plain};
    ghost use Rattle.gql_engine.specs.bridge.Reply.{WishAnswers, WishMust, WishMustNot, WishRefuses};

    ghost form_of = { λ _. Plain };

    ghost answers = { WishAnswers };

    ghost refuses = { WishRefuses };

    ghost must_answer = { WishMust };

    ghost must_refuse = { WishMustNot };

    fn request_form(&self) -> RequestForm {
        RequestForm::Plain
    }

    fn reply<L: Ledger>(
        &self,
        alloc: Global,
        request: &Request<'_>,
        steps: &mut Steps<L>,
    ) -> Result<Output, Memory> {
        match self {
            Wish::Answer => answered(alloc, request, steps),
            Wish::Check => checked(alloc, request),
        }
    }
}

/// The response to a request out of its data, or why there is none.
pub(crate) fn respond_to_request<L: Ledger>(
    alloc: Global,
    request: &Request<'_>,
    steps: &mut Steps<L>,
) -> Result<Written, AnswerError>
    ensures { OrCause (wanted_of (asked_in request.now)) (RespondsTo (asked_in request.now) steps.old steps.new) result }
{
    let no_members = Map::new(alloc);
    let wanted = Wanted {
        operation_name: request.operation_name,
        variables: request.variables.unwrap_or(&no_members),
        introspection: request.introspection,
    };
    let root = DataObject::root(request.root.unwrap_or(&no_members));
    respond(alloc, request.schema, request.query, &wanted, &root, steps)
}

/// The line of the response to a request, or of why there is none.
fn answered<L: Ledger>(
    alloc: Global,
    request: &Request<'_>,
    steps: &mut Steps<L>,
) -> Result<Output, Memory>
    ensures is { IfOk result (IsOutput (WishAnswers wished.Answer (asked_in request.now) steps.old steps.new) (WishRefuses wished.Answer (asked_in request.now))) }
    ensures done { WishMust wished.Answer (asked_in request.now) → IfOk result IsDoneOutput }
    ensures caused { WishMustNot wished.Answer (asked_in request.now) → IfOk result IsRefusedOutput }
{
    laws::causes_exclude_one_another();
    laws::answers_and_refusals_exclude_one_another();
    match respond_to_request(alloc, request, steps) {
        Ok(written) => done_with(alloc, written.bytes),
        Err(refusal) => refused_for(alloc, refusal),
    }
}

/// That the texts of a request mean something, or what is wrong with the first that means nothing.
fn checked(alloc: Global, request: &Request<'_>) -> Result<Output, Memory>
    ensures is { (count : ℕ) → IfOk result (IsOutput (WishAnswers wished.Check (asked_in request.now) count count) (WishRefuses wished.Check (asked_in request.now))) }
    ensures done { WishMust wished.Check (asked_in request.now) → IfOk result IsDoneOutput }
    ensures caused { WishMustNot wished.Check (asked_in request.now) → IfOk result IsRefusedOutput }
{
    laws::answers_and_refusals_exclude_one_another();
    match faults_of_texts(alloc, request.schema, request.query)? {
        None => Ok(Output::Done(Bytes::from_static(b"ok\n"))),
        Some(list) => refused_reports(alloc, list),
    }
}

/// The reports of what is wrong with the texts. `Err` only when out of memory.
fn refused_reports(alloc: Global, list: DiagnosticList) -> Result<Output, Memory>
    ensures { IfOk result (λ output. output ≡ outputs.Refused (reports_of list)) }
{
    let text = reports(alloc, list)?;
    Ok(Output::Refused(text))
}
