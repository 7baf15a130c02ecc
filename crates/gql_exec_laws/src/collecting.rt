//! What collecting gives of each kind of selection, and how deep each goes.
//!
//! The definitions count down, so that they end; these laws say what they are without it.

ghost use Rattle.std.specs.Prelude.{◌≡◌, ◌+◌, ◌++◌, ◌∷◌, ◌&&◌, ℕ, [], Bool, List, max};
ghost use Rattle.gql_collect.specs.Applies.{applies_if};
ghost use Rattle.gql_collect.specs.DepthPlace.{enter_at, way_with};
ghost use Rattle.gql_collect.specs.Expanded.{most};
ghost use Rattle.gql_collect.specs.Flat.{body, flat, when};
ghost use Rattle.gql_collect.specs.Kept.{is_kept};
ghost use Rattle.gql_collect.specs.Nested.{body_of};
ghost use Rattle.gql_collect.specs.Setting.{Setting};
ghost use Rattle.gql_collect.specs.Standing.{fields_in};
ghost use Rattle.gql_collect.specs.View.{fragments_nested, weight_of};
ghost use Rattle.gql_document_types.specs.Spreads.{AreAcyclic};
ghost use Rattle.gql_document_types.specs.declared.fragment.Fragment.{Fragment};
ghost use Rattle.gql_document_types.specs.declared.selection.Field.{Field};
ghost use Rattle.gql_document_types.specs.declared.selection.FragmentSpread.{FragmentSpread};
ghost use Rattle.gql_document_types.specs.declared.selection.InlineFragment.{InlineFragment};
ghost use Rattle.gql_document_types.specs.declared.selection.Selection.{Selection};
ghost use Rattle.gql_document_types.specs.declared.selection.Selection.TheVariants as selection;
ghost use Rattle.gql_exec_laws.specs.Depths.{depth_in, selections_of};

use gql_graph::laws as graph_laws;

/// Selections are collected one after the other (GraphQL October 2021, section 6.3.2). A field stands for itself, a spread for the
/// fields of its fragment, if that is defined and applies to the object type, and an inline fragment for its own fields, if it
/// applies: each of them unless `@skip` or `@include` leaves it out. No fragment may lead back to itself.
pub fn each_selection_is_collected()
    ensures nothing { (s : Setting) → flat s [] ≡ [] }
    ensures field { (s : Setting) → AreAcyclic s.fragments → (it : Field) (rest : List Selection)
        → flat s (selection.Field it ∷ rest) ≡ when (is_kept s.variables it.directives) (it ∷ []) ++ flat s rest }
    ensures spread { (s : Setting) → AreAcyclic s.fragments → (it : FragmentSpread) (rest : List Selection)
        → flat s (selection.FragmentSpread it ∷ rest)
        ≡ when (is_kept s.variables it.directives) (flat s (body s it.fragment_name.text)) ++ flat s rest }
    ensures inline { (s : Setting) → AreAcyclic s.fragments → (it : InlineFragment) (rest : List Selection)
        → flat s (selection.InlineFragment it ∷ rest)
        ≡ when (is_kept s.variables it.directives && applies_if s.schema.types s.object it.type_condition) (flat s it.selection_set.selections)
        ++ flat s rest }
{
    graph_laws::acyclic_graphs_have_ranks();
}

/// The depth of selections is the greatest depth of one of them. A field has that of what is selected below it, and one more if its
/// name counts; a spread has that of its fragment, none where that is not defined; and an inline fragment that of its own
/// selections. No fragment may lead back to itself.
pub fn each_selection_has_its_depth()
    ensures nothing { (fragments : List Fragment) → depth_in fragments [] ≡ 0 }
    ensures field { (fragments : List Fragment) (it : Field) (rest : List Selection) → depth_in fragments (selection.Field it ∷ rest)
        ≡ max (weight_of it.name.text + depth_in fragments it.selection_set.selections) (depth_in fragments rest) }
    ensures spread { (fragments : List Fragment) → AreAcyclic fragments → (it : FragmentSpread) (rest : List Selection)
        → depth_in fragments (selection.FragmentSpread it ∷ rest)
        ≡ max (depth_in fragments (selections_of fragments it.fragment_name.text)) (depth_in fragments rest) }
    ensures inline { (fragments : List Fragment) (it : InlineFragment) (rest : List Selection) → depth_in fragments (selection.InlineFragment it ∷ rest)
        ≡ max (depth_in fragments it.selection_set.selections) (depth_in fragments rest) }
{
    graph_laws::acyclic_graphs_have_ranks();
}

/// Where the check of the depth enters a fragment, it goes on through the fragment's selections as through any others. No fragment
/// may lead back to itself.
pub fn entered_fragments_are_gone_through()
    ensures { (fragments : List Fragment) → AreAcyclic fragments → (depth_of : ℕ → ℕ) (chain f : ℕ) (entered : List Bool)
        → enter_at (fragments_nested fragments) depth_of (most (fragments_nested fragments)) chain f entered
        ≡ way_with depth_of (enter_at (fragments_nested fragments) depth_of (most (fragments_nested fragments))) chain
        (body_of (fragments_nested fragments) f) entered }
{
    graph_laws::acyclic_graphs_have_ranks();
}

/// The fields that stand in a set are its own and those of its inline fragments; a spread has none.
pub fn fields_stand_in_their_set()
    ensures nothing { fields_in [] ≡ [] }
    ensures field { (it : Field) (rest : List Selection) → fields_in (selection.Field it ∷ rest) ≡ it ∷ fields_in rest }
    ensures spread { (it : FragmentSpread) (rest : List Selection) → fields_in (selection.FragmentSpread it ∷ rest) ≡ fields_in rest }
    ensures inline { (it : InlineFragment) (rest : List Selection)
        → fields_in (selection.InlineFragment it ∷ rest) ≡ fields_in it.selection_set.selections ++ fields_in rest }
{}
