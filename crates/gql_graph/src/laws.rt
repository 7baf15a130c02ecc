//! Laws of graphs.

ghost use Rattle.std.specs.Prelude.{ℕ};
ghost use Rattle.gql_graph.specs.Cycles.{IsOnCycle};
ghost use Rattle.gql_graph.specs.Graph.{Graph};
ghost use Rattle.gql_graph.specs.Ranks.{IsRanked};

/// In a graph without cycles each node has a rank: it falls along each edge, and is at most the number of nodes.
pub fn acyclic_graphs_have_ranks()
    ensures { (g : Graph) → ((v : ℕ) → IsOnCycle g v → ⊥) → (rank : ℕ → ℕ) × IsRanked g rank }
{}
