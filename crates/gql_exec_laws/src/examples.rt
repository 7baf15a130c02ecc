//! Small examples of the definitions that execution is made of.

ghost use Rattle.std.specs.Prelude.{◌≡◌, ◌⊎◌, ◌∷◌, ℕ, [], codes, suc, List, None, Option, Some, Contains};
ghost use Rattle.gql_ast_base.specs.declared.type_ref.TypeRef.TheVariants as ty;
ghost use Rattle.gql_collect.specs.DepthPlace.{depth_place};
ghost use Rattle.gql_collect.specs.View.{fragments_nested, nested};
ghost use Rattle.gql_exec.specs.NeverSkips.{IsFullyExplained};
ghost use Rattle.gql_exec.specs.Opened.{Way};
ghost use Rattle.gql_exec.specs.RequestWorld.{plain_world};
ghost use Rattle.gql_resolvers.specs.Execute.{Member};
ghost use Rattle.gql_resolvers.specs.Explained.{IsExplainedBy};
ghost use Rattle.gql_resolvers.specs.Trail.{held};
ghost use Rattle.gql_schema_types.specs.declared.types.ObjectType.{ObjectType};
ghost use Rattle.gql_response.specs.declared.graphql_error.GraphQLError.{GraphQLError};
ghost use Rattle.gql_exec_laws.specs.DeepFields.{again, once, place_at, three_deep, two_deep, two_deep_again};
ghost use Rattle.gql_exec_laws.specs.Depths.{depth_in};
ghost use Rattle.gql_exec_laws.specs.Example.{IsAnswered, request, root};
ghost use Rattle.gql_exec_laws.specs.Examples.{failed_items, int};
ghost use Rattle.gql_exec_laws.specs.Explaining.{nulls, with_nulls};
ghost use Rattle.gql_exec_laws.specs.Inputs.{IsRefused, IsTakenAs, list, one, two, word};
ghost use Rattle.gql_exec_laws.specs.Nulls.{at_field, at_item, at_list, inner_list_null, item_null, outer_list_null, stricter_type, strict_int};
ghost use Rattle.gql_exec_laws.specs.Opening.{IsOpened, to_items};

/// An item two lists deep fails: it is null, or the innermost list that may be null: `{ f }` of `type Query { f: [[Int]!] }`, of
/// `[[Int!]]` and of `[[Int!]!]` (GraphQL October 2021, section 6.4.4).
pub fn a_failed_item_nulls_the_innermost_place()
    ensures item { IsAnswered item_null }
    ensures inner { IsAnswered inner_list_null }
    ensures outer { IsAnswered outer_list_null }
{}

/// The place where the null of this error falls: the item, its list, the field, or the root.
pub fn nulls_fall_at_the_innermost_place()
    ensures item { let type = ty.List (ty.NonNullList int) in held (at_item type) ≡ Some (at_item type) }
    ensures inner { let type = ty.List (ty.List strict_int) in held (at_item type) ≡ Some (at_list type) }
    ensures outer { let type = ty.List (ty.NonNullList strict_int) in held (at_item type) ≡ Some (at_field type) }
    ensures root { let type = ty.NonNullList (ty.NonNullList strict_int) in held (at_item type) ≡ None }
{}

/// The object's own type decides whether a field may be null, and not the interface through which it is selected: `{ i { x } }` of
/// `interface I { x: Int } type A implements I { x: Int! } type Query { i: I }`.
pub fn the_type_of_the_object_decides()
    ensures { IsAnswered stricter_type }
{}

/// Of the list whose first and third items fail: its errors and its nulls explain each other, and whatever errors are listed,
/// they explain no other data; and where none is listed, no data is explained.
pub fn errors_and_nulls_explain_each_other()
    ensures explained { IsFullyExplained (request failed_items) failed_items.root_type root failed_items.selections with_nulls }
    ensures only { (errors : List GraphQLError) (found : Option (List Member))
        → IsExplainedBy (plain_world (request failed_items)) failed_items.root_type root (failed_items.selections ∷ []) (Contains errors) found
        → found ≡ nulls }
    ensures unlisted { (found : Option (List Member))
        → IsExplainedBy (plain_world (request failed_items)) failed_items.root_type root (failed_items.selections ∷ []) (Contains []) found → ⊥ }
{}

/// A fragment is as deep as what it selects: of `{ __schema { types { ...F } } }`, two where `F` selects
/// `fields { type { fields { name } } }` and three where it selects `interfaces { name }` in place of `name`. And of the first `F`,
/// three where a `fields { type { ...F } }` stands beside it.
pub fn depths_of_a_query_of_the_schema()
    ensures two { depth_in two_deep once ≡ 2 }
    ensures three { depth_in three_deep once ≡ 3 }
    ensures again { depth_in two_deep_again again ≡ 3 }
{}

/// The first field that is the third on its chain is told, `interfaces` in the fragment; and where a fragment of depth two is spread
/// again below `fields`, the later spread. A query of depth two has no such place.
pub fn places_of_a_query_of_the_schema()
    ensures none { depth_place (fragments_nested two_deep) (nested two_deep once) ≡ None }
    ensures field { depth_place (fragments_nested three_deep) (nested three_deep once) ≡ Some (place_at 80 10) }
    ensures spread { depth_place (fragments_nested two_deep_again) (nested two_deep_again again) ≡ Some (place_at 42 4) }
{}

/// A value for a variable of `[[Int]]` stands in lists of its own as far as it isn't in lists: 1 is taken as `[[1]]`, `[1, 2]` as
/// `[[1], [2]]`, and `[[1, 2]]` as it is. A text is no value for it, at any depth (section 3.11).
pub fn values_stand_in_lists_of_their_own()
    ensures single { IsTakenAs one (list (list (one ∷ []) ∷ [])) }
    ensures each { IsTakenAs (list (one ∷ two ∷ [])) (list (list (one ∷ []) ∷ list (two ∷ []) ∷ [])) }
    ensures whole { IsTakenAs (list (list (one ∷ two ∷ []) ∷ [])) (list (list (one ∷ two ∷ []) ∷ [])) }
    ensures text { IsRefused word (codes "could not coerce variable v: \"a\" to type Int") }
    ensures inside { IsRefused (list (one ∷ list (word ∷ []) ∷ [])) (codes "could not coerce variable v: \"a\" to type Int") }
{}

/// A list of objects of one type opens two ways, that of the root and that to the objects, however many objects it has; one that is
/// empty opens the first alone: `{ l { y } }` of `type Query { l: [A] } type A { y: Int }`.
pub fn items_of_one_type_share_their_way()
    ensures root { (n : ℕ) → IsOpened n [] }
    ensures items { (n : ℕ) → IsOpened (suc n) to_items }
    ensures none_else { (n : ℕ) (way : Way ObjectType) → IsOpened n way → (way ≡ []) ⊎ (way ≡ to_items) }
    ensures empty { IsOpened 0 to_items → ⊥ }
{}
