//! Laws of expansion.

ghost use Rattle.std.specs.Prelude.{◌≡◌, List, [], ◌∷◌};
ghost use Rattle.gql_document_types.specs.Contents.{HaveContents};
ghost use Rattle.gql_document_types.specs.Count.{count};
ghost use Rattle.gql_document_types.specs.Expanded.{expanded, in_place};
ghost use Rattle.gql_document_types.specs.OneSpread.{IsOneSpread};
ghost use Rattle.gql_document_types.specs.Spreadless.{HasNoSpread};
ghost use Rattle.gql_document_types.specs.Spreads.{AreAcyclic};
ghost use Rattle.gql_document_types.specs.declared.fragment.Fragment.{Fragment};
ghost use Rattle.gql_document_types.specs.declared.selection.Field.{Field};
ghost use Rattle.gql_document_types.specs.declared.selection.FragmentSpread.{FragmentSpread};
ghost use Rattle.gql_document_types.specs.declared.selection.Selection.{Selection};
ghost use Rattle.gql_document_types.specs.declared.selection.Selection.TheVariants as selection;

use gql_graph::laws as graph_laws;

/// Where no fragment leads back to itself, what stands for a fragment is what its own selections are expanded to: no spread in
/// it is left out for want of room (GraphQL October 2021, section 5.5.2.2).
pub fn acyclic_fragments_have_contents()
    ensures { (fragments : List Fragment) → AreAcyclic fragments → HaveContents fragments }
{
    graph_laws::acyclic_graphs_have_ranks();
}

/// An expansion names no fragment, at any depth, whatever the fragments are.
pub fn expansions_have_no_spread()
    ensures { (fragments : List Fragment) (selections : List Selection) → HasNoSpread (expanded fragments selections) }
{}

/// `{ ...F }` beside `fragment F on T { f }` is expanded to `{ ... on T { f } }` (section 2.8.2), which has two selections.
pub fn a_spread_becomes_an_inline_fragment()
    ensures selections { (fragment : Fragment) (spread : FragmentSpread) (field : Field) → IsOneSpread fragment spread field
        → expanded (fragment ∷ []) (selection.FragmentSpread spread ∷ []) ≡ selection.InlineFragment (in_place spread fragment (selection.Field field ∷ [])) ∷ [] }
    ensures count { (fragment : Fragment) (spread : FragmentSpread) (field : Field) → IsOneSpread fragment spread field
        → count (expanded (fragment ∷ []) (selection.FragmentSpread spread ∷ [])) ≡ 2 }
{}
