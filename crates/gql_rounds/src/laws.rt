//! Laws of asks, of rounds, and of the steps of a request.

ghost use Rattle.std.specs.Prelude.{◌≡◌, ◌≤◌, ℕ, suc, false, true, List, [], ◌∷◌};
ghost use Rattle.std.specs.List.{AllByRecursion};
ghost use Rattle.gql_rounds.specs.Known.{beside, type_of_entity};
ghost use Rattle.gql_rounds.specs.Rounds.{AreAskedOf, root_of};
ghost use Rattle.gql_rounds.specs.Table.{Table, with_answer};
ghost use Rattle.gql_rounds.specs.Telling.{AskedWith, IsNextRound, IsToldOrAsked, LacksNothing, Subject, TellsMore, lacking};
ghost use Rattle.gql_rounds.specs.ToldMeaning.{told};
ghost use Rattle.gql_rounds.specs.declared.ask.Ask.{Ask as AskOf};
ghost use Rattle.gql_document_types.specs.Ranks.{AreRanked};
ghost use Rattle.gql_engine.specs.Answered.{Answered, IsAnsweredInFull};
ghost use Rattle.gql_engine.specs.Wanted.{Wanted as WantedOf};
ghost use Rattle.gql_exec.specs.Thing.{of_user, type_of_thing};
ghost use Rattle.gql_exec.specs.ThingMeaning.{thing_meaning};
ghost use Rattle.gql_exec.specs.Executing.{request_by};
ghost use Rattle.gql_exec.specs.Nesting.{nesting};
ghost use Rattle.gql_exec.specs.RequestWorld.{plain_world};
ghost use Rattle.gql_resolvers.specs.Skips.{ReachesNoSkip};
ghost use Rattle.jb_tree.specs.declared.value.Value.{Value};

use gql_engine::laws as engine_laws;

/// What a table tells, it tells still after a further answer.
pub fn told_answers_stay()
    ensures { (table : Table) (key : List ℕ) (value : Value) → TellsMore table (with_answer table key value) }
{}

/// With further answers all is asked that was asked before, at the same level, but for what they tell.
pub fn asks_stay_until_they_are_told()
    ensures { (subject : Subject) (old new : Table) → TellsMore old new → (depth : ℕ)
        → AllByRecursion (IsToldOrAsked subject new depth) (lacking subject old depth) }
{}

/// Each round goes a level deeper: where the objects above a level lack nothing, and all that is asked is told, those of the level
/// lack nothing either.
pub fn rounds_go_deeper()
    ensures { (subject : Subject) (old new : Table) (depth : ℕ) → LacksNothing subject old depth → IsNextRound subject old new
        → LacksNothing subject new (suc depth) }
{}

/// After as many rounds as selection sets are nested nothing is asked any more.
pub fn rounds_are_few()
    ensures { (subject : Subject) (tables : ℕ → Table) → ((round : ℕ) → IsNextRound subject (tables round) (tables (suc round)))
        → ((rank : ℕ → ℕ) × AreRanked subject.document.fragments rank)
        → (round : ℕ) → nesting subject.document.fragments (subject.selections ∷ []) ≤ round
        → (asks : List (List ℕ × AskOf)) → AskedWith subject (tables round) asks → asks ≡ [] }
{}

/// Where nothing is asked, nothing that an execution reaches is left out, without introspection and with it (GraphQL October 2021,
/// sections 4 and 6.4). So its response is explained with no further premise.
pub fn nothing_is_left_out_where_nothing_is_asked()
    ensures plain { (subject : Subject) (table : Table) → AskedWith subject table []
        → ReachesNoSkip (plain_world (request_by false subject.schema subject.document subject.variables type_of_entity told)) subject.root
        (beside table (record { number = 0; type_name = [] })) (subject.selections ∷ []) }
    ensures introspected { (subject : Subject) (table : Table) → AskedWith subject table []
        → ReachesNoSkip (plain_world (request_by true subject.schema subject.document subject.variables (type_of_thing type_of_entity) (thing_meaning told)))
        subject.root (of_user subject.schema (beside table (record { number = 0; type_name = [] }))) (subject.selections ∷ []) }
{}

/// The response of a step, which comes where nothing is asked any more, is explained, with no premise: its errors are true faults, and
/// they and the data account for each other (GraphQL October 2021, section 6.4.4).
pub fn responses_of_steps_are_explained()
    ensures { (table : Table) (wanted : WantedOf) (bytes : List ℕ) (answered : Answered type_of_entity told (root_of table) wanted bytes)
        → AreAskedOf table wanted [] → IsAnsweredInFull answered }
{
    engine_laws::readiness_is_one();
    nothing_is_left_out_where_nothing_is_asked();
}
