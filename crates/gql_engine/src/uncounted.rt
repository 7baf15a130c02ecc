//! Answering for callers who count no steps.

ghost use Rattle.std.specs.Prelude.{◌≡◌, ◌<◌, ℕ, List};
ghost use Rattle.gql_engine.specs.AnswerError.{call_of};
ghost use Rattle.gql_engine.specs.bridge.AnswerError.{call_over};
ghost use Rattle.gql_engine.specs.Answering.{GivesAnswer};
ghost use Rattle.gql_engine.specs.bridge.Made.{IsMadeOf, IsMadeOfSome};

use crate::answer_error::AnswerError;
use crate::answering::answer_call;
use crate::call::Call;
use crate::made::Made;
use bytes::Bytes;
use gql_collect::Steps;
use gql_resolvers::ObjectValue;
use std::alloc::Global;
use std::marker::Brand;
use std::sync::ledger::{Blank, Ledger};

/// [`answer`](crate::answer) without a counter of steps: the same response or refusal.
///
/// # Errors
///
/// Those of [`answer`](crate::answer), exactly where they come there.
pub fn answer_uncounted<O: ObjectValue>(
    alloc: Global,
    schema: &str,
    query: &str,
    operation_name: Option<&str>,
    variables: &Bytes,
    introspection: bool,
    root: &O,
) -> Result<Bytes, AnswerError>
    ensures { GivesAnswer O.type_of O.resolves (O.seen root.now)
        (call_of schema.now query.now operation_name.entry variables.now introspection) result }
{
    let call = Call {
        operation_name,
        variables,
        introspection,
    };
    let texts = Made::Nothing { schema, query };
    answer_alone::<O, Brand>(alloc, texts, &call, root, Blank::new(1))
}

/// The answer, with a counter of its own.
pub(crate) fn answer_alone<O: ObjectValue, L: Ledger>(
    alloc: Global,
    made: Made<'_>,
    call: &Call<'_>,
    root: &O,
    blank: Blank,
) -> Result<Bytes, AnswerError>
    requires made { IsMadeOfSome made }
    requires name { blank.name ≡ L.name }
    requires parts { blank.parts ≡ L.parts }
    requires some { 0 < blank.parts }
    ensures { (schema query : List ℕ) → IsMadeOf schema query made.entry
        → GivesAnswer O.type_of O.resolves (O.seen root.now) (call_over schema query call.now) result }
{
    let mut steps = Steps::<L>::open(blank);
    answer_call(alloc, made, call, root, &mut steps)
}
