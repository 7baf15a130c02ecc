//! Requests to a service, answered within a limit.

ghost use Rattle.std.specs.Prelude.{◌≡◌, ◌<◌, IfErr, IfOk};
ghost use Rattle.gql_cost.specs.Limited.{AnsweredWithin, GivesLimitedAnswer, GivesWanted, HasLimitedCause, HasLimitedCauseOf, IsCallUnexecuted, IsUnexecuted};
ghost use Rattle.gql_engine.specs.AnswerError.{Asks, wanted_with};
ghost use Rattle.gql_engine.specs.Service.{asked_of};
ghost use Rattle.gql_engine.specs.Wanted.{wanted_over};

use crate::cost_limit::CostLimit;
use crate::limited_error::LimitedError;
use crate::responding::respond_within;
use bytes::Bytes;
use gql_engine::phases::{Wanted, check_query, read_variables};
use gql_engine::{Prepared, Question, Service, Steps, laws as engine_laws};
use gql_resolvers::ObjectValue;
use jb_tree::Map;
use std::alloc::Global;
use std::marker::Brand;
use std::sync::ledger::{Blank, Ledger};

impl CostLimit {
    /// Answers a request to a service, as [`Service::answer`] does, unless it costs more than the limit. The cost is known before
    /// the execution, and looks at each selection of the operation and of the fragments once at most; `steps` counts these looks
    /// with the others.
    ///
    /// # Errors
    ///
    /// The first that applies, exactly where it does, and otherwise [`AnswerError::Memory`](gql_engine::AnswerError::Memory):
    ///
    /// - [`LimitedError::Answer`] with the cause for which [`Service::answer`] refuses it.
    /// - [`LimitedError::TooCostly`] where its cost is above the limit. Nothing was executed then: `steps` counts the looks of the
    ///   check of the depth and of the cost alone.
    pub fn answer<O: ObjectValue, L: Ledger>(
        &self,
        alloc: Global,
        service: &Service,
        question: &Question<'_>,
        root: &O,
        steps: &mut Steps<L>,
    ) -> Result<Bytes, LimitedError>
        ensures answer { GivesLimitedAnswer O.type_of O.resolves (O.seen root.now) self.now (asked_of service.now question.now) result }
        ensures unexecuted { IfErr result (IsCallUnexecuted (asked_of service.now question.now) steps.old steps.new) }
    {
        engine_laws::causes_exclude_one_another();
        engine_laws::readiness_is_one();
        answer_question(alloc, self, service, question, root, steps)
    }

    /// [`CostLimit::answer`] without a counter of steps: the same response or refusal.
    ///
    /// # Errors
    ///
    /// Those of [`CostLimit::answer`], exactly where they come there.
    pub fn answer_uncounted<O: ObjectValue>(
        &self,
        alloc: Global,
        service: &Service,
        question: &Question<'_>,
        root: &O,
    ) -> Result<Bytes, LimitedError>
        ensures { GivesLimitedAnswer O.type_of O.resolves (O.seen root.now) self.now (asked_of service.now question.now) result }
    {
        answer_alone::<O, Brand>(alloc, self, service, question, root, Blank::new(1))
    }

    /// Answers an operation of a query that was prepared, as [`Prepared::answer`] does, unless it costs more than the limit.
    ///
    /// # Errors
    ///
    /// Those of [`CostLimit::answer`], exactly where they come there, but for the causes in the texts, which never come. What is
    /// refused for its cost was not executed: `steps` counts the looks of the check of the depth and of the cost alone.
    pub fn answer_prepared<O: ObjectValue, L: Ledger>(
        &self,
        alloc: Global,
        prepared: &Prepared<'_>,
        wanted: &Wanted<'_>,
        root: &O,
        steps: &mut Steps<L>,
    ) -> Result<Bytes, LimitedError>
        ensures answer { GivesWanted O.type_of O.resolves (O.seen root.now) self.now (wanted_over prepared.now.schema prepared.now.query wanted.now) result }
        ensures unexecuted { IfErr result (IsUnexecuted (wanted_over prepared.now.schema prepared.now.query wanted.now) steps.old steps.new) }
    {
        engine_laws::causes_exclude_one_another();
        engine_laws::readiness_is_one();
        respond_within(alloc, self, prepared, wanted, root, steps)
    }
}

/// The answer to a request to a service.
fn answer_question<O: ObjectValue, L: Ledger>(
    alloc: Global,
    limit: &CostLimit,
    service: &Service,
    question: &Question<'_>,
    root: &O,
    steps: &mut Steps<L>,
) -> Result<Bytes, LimitedError>
    ensures answered { IfOk result (λ bytes. Asks (asked_of service.now question.now)
        (λ wanted. AnsweredWithin O.type_of O.resolves (O.seen root.now) limit.now wanted bytes)) }
    ensures refused { IfErr result (HasLimitedCause limit.now (asked_of service.now question.now)) }
    ensures unexecuted { IfErr result (IsCallUnexecuted (asked_of service.now question.now) steps.old steps.new) }
{
    engine_laws::causes_exclude_one_another();
    let variables = match read_variables(alloc, question.variables) {
        Ok(variables) => variables,
        Err(refusal) => return Err(LimitedError::Answer(refusal)),
    };
    match check_query(alloc, service, question.query) {
        Ok(prepared) => answer_asked(alloc, limit, &prepared, question, &variables, root, steps),
        Err(refusal) => Err(LimitedError::Answer(refusal)),
    }
}

/// The answer where the variables have these values.
fn answer_asked<O: ObjectValue, L: Ledger>(
    alloc: Global,
    limit: &CostLimit,
    prepared: &Prepared<'_>,
    question: &Question<'_>,
    variables: &Map,
    root: &O,
    steps: &mut Steps<L>,
) -> Result<Bytes, LimitedError>
    requires { prepared.now.query ≡ question.now.query.now }
    ensures answered { IfOk result (AnsweredWithin O.type_of O.resolves (O.seen root.now) limit.now
        (wanted_with (asked_of prepared.now.schema question.now) variables.now)) }
    ensures refused { IfErr result (HasLimitedCauseOf limit.now (wanted_with (asked_of prepared.now.schema question.now) variables.now)) }
    ensures unexecuted { IfErr result (IsUnexecuted (wanted_with (asked_of prepared.now.schema question.now) variables.now) steps.old steps.new) }
{
    let wanted = Wanted {
        operation_name: question.operation_name,
        variables,
        introspection: question.introspection,
    };
    respond_within(alloc, limit, prepared, &wanted, root, steps)
}

/// The answer, with a counter of its own.
fn answer_alone<O: ObjectValue, L: Ledger>(
    alloc: Global,
    limit: &CostLimit,
    service: &Service,
    question: &Question<'_>,
    root: &O,
    blank: Blank,
) -> Result<Bytes, LimitedError>
    requires name { blank.name ≡ L.name }
    requires parts { blank.parts ≡ L.parts }
    requires some { 0 < blank.parts }
    ensures { GivesLimitedAnswer O.type_of O.resolves (O.seen root.now) limit.now (asked_of service.now question.now) result }
{
    let mut steps = Steps::<L>::open(blank);
    limit.answer(alloc, service, question, root, &mut steps)
}
