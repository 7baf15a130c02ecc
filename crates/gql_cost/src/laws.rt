//! Laws of costs and responses.

ghost use Rattle.std.specs.Prelude.{◌≤◌, ℕ, List};
ghost use Rattle.gql_cost.specs.ReachedNodes.{HasDataNodes, HasShortLists, cost_of};
ghost use Rattle.gql_engine.specs.Answered.{Answered};
ghost use Rattle.gql_engine.specs.Wanted.{Wanted};
ghost use Rattle.gql_exec.specs.ThingMeaning.{Resolving};

use crate::bound_laws as cost_laws;
use gql_graph::laws as graph_laws;
use gql_parser::laws as text_laws;

/// The data of a response have at most as many nodes as its operation costs, for every resolver and all values of variables, where no
/// list that is reached and fits has more items than `items` (GraphQL October 2021, sections 6.3 and 6.4).
pub fn responses_cost_at_most<X>()
    ensures { (type_of : X → List ℕ) (resolves : Resolving X) (root : X) (wanted : Wanted) (bytes : List ℕ)
        → (answered : Answered type_of resolves root wanted bytes)
        → (items : ℕ) → HasShortLists answered items → (count : ℕ) → HasDataNodes answered count → count ≤ cost_of items answered.ready }
{
    text_laws::valid_documents_run();
    text_laws::documents_are_typed();
    graph_laws::acyclic_graphs_have_ranks();
    cost_laws::fields_of_one_key_merge();
    cost_laws::object_types_are_covariant();
}
