//! What the definitions say of small queries.

ghost use Rattle.std.specs.Prelude.{◌≡◌, ◌+◌, ◌*◌, ◌∷◌, ℕ, []};
ghost use Rattle.gql_resolvers.specs.World.{World};
ghost use Rattle.gql_cost.specs.Examples.{answers, fragments, made, of_lists, of_objects, spread};
ghost use Rattle.gql_cost.specs.Nodes.{Inside, value_nodes};
ghost use Rattle.gql_cost.specs.Sum.{cost};

/// `{ a { y x } }` of `type Query { a: A } type A { x: Int! y: Int }` costs 4, whatever lists have: one for the data, and one for
/// each field.
pub fn objects_cost_their_fields()
    ensures { (items : ℕ) → cost items [] of_objects ≡ 4 }
{}

/// `{ f }` of `type Query { f: [[Int]] }` costs one for the data, one for the outer list, and for each of its items one for the inner
/// list and one for each of that list's items: 112 where lists have ten items, and 2 where they have none.
pub fn lists_cost_each_of_their_items()
    ensures any { (items : ℕ) → cost items [] of_lists ≡ 2 + items * (1 + items * 1) }
    ensures ten { cost 10 [] of_lists ≡ 112 }
    ensures none { cost 0 [] of_lists ≡ 2 }
{}

/// `{ ...F ...F } fragment F on Query { f }` costs what the fragment selects for each of its spreads, and a fragment that is not
/// defined costs nothing.
pub fn each_spread_costs_its_fragment()
    ensures twice { (items : ℕ) → cost items fragments (spread ∷ spread ∷ []) ≡ 3 }
    ensures undefined { (items : ℕ) → cost items [] (spread ∷ []) ≡ 1 }
{}

/// A list of a leaf, of an item that is left out, and of a leaf that holds a list itself, has three nodes: its own, and one for each
/// item that has a value.
pub fn items_that_are_left_out_are_no_nodes<X, T, G, S>()
    ensures { (w : World X T G S) (inside : Inside w) (group : G) → value_nodes w inside group answers made ≡ 3 }
{}
