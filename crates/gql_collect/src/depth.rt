//! A walk through selections that enters each fragment once and remembers its depth.

ghost use Rattle.std.specs.Prelude.{◌≡◌, ◌<◌, length, MatchResult};
ghost use Rattle.gql_collect.specs.bridge.Checked.{Accepted, AcceptedOne, Refused, RefusedOne};
ghost use Rattle.gql_collect.specs.View.{fragments_nested, nested, number_of, one_of, one_spread, spread_of, weight_of};
ghost use Rattle.gql_collect.specs.bridge.View.{field_of, inline_of};

use crate::steps::Steps;
use gql_document_types::{Field, Fragment, FragmentSpread, InlineFragment, Selection};
use gql_schema_types::Table;
use gql_source::SourceSpan;
use jb_text::Listed;
use std::sync::ledger::Ledger;

/// The number of counted fields on a chain that is refused.
const TOO_MANY: u32 = 3;

/// How much a field of the name counts.
fn weight(name: &str) -> u32
    ensures { result ≡ weight_of name.now }
{
    if name == "fields"
        || (name == "interfaces" || (name == "possibleTypes" || name == "inputFields"))
    {
        1
    } else {
        0
    }
}

/// What stays the same throughout a walk.
#[derive(Clone, Copy)]
pub(crate) struct DepthCheck<'a> {
    pub fragments: &'a Table<Fragment>,
}

impl<'a> DepthCheck<'a> {
    /// The depth of these selections below a chain of counted fields, or the place where a chain is found to have three.
    /// `memo` has the depths of the fragments that were entered, and 0 for those that the walk is in.
    #[cycle(depth)]
    pub(crate) fn selection_set<L: Ledger>(
        &self,
        selections: &Listed<Selection>,
        chain: u32,
        memo: &mut [Option<u32>],
        steps: &mut Steps<L>,
    ) -> Result<u32, Option<SourceSpan>>
        requires sized { length memo.old ≡ length self.now.fragments.now }
        requires low { chain < 3 }
        ensures { MatchResult result
            (λ depth. Accepted (fragments_nested self.now.fragments.now) chain (nested self.now.fragments.now selections.now) memo.old steps.old depth memo.new steps.new)
            (λ place. Refused (fragments_nested self.now.fragments.now) chain (nested self.now.fragments.now selections.now) memo.old steps.old place steps.new) }
    {
        let mut depth = 0;
        for selection in selections.as_slice() {
            let below = self.one(selection, chain, memo, steps)?;
            depth = depth.max(below);
        }
        Ok(depth)
    }

    /// The same of one selection.
    #[cycle(depth)]
    fn one<L: Ledger>(
        &self,
        selection: &Selection,
        chain: u32,
        memo: &mut [Option<u32>],
        steps: &mut Steps<L>,
    ) -> Result<u32, Option<SourceSpan>>
        requires sized { length memo.old ≡ length self.now.fragments.now }
        requires low { chain < 3 }
        ensures { MatchResult result
            (λ depth. AcceptedOne (fragments_nested self.now.fragments.now) chain (one_of self.now.fragments.now selection.now) memo.old steps.old depth memo.new steps.new)
            (λ place. RefusedOne (fragments_nested self.now.fragments.now) chain (one_of self.now.fragments.now selection.now) memo.old steps.old place steps.new) }
    {
        match selection {
            Selection::Field(field) => self.field(field, chain, memo, steps),
            Selection::FragmentSpread(spread) => self.spread(spread, chain, memo, steps),
            Selection::InlineFragment(fragment) => self.inline(fragment, chain, memo, steps),
        }
    }

    /// The same of a field, which may be counted.
    #[cycle(depth)]
    fn field<L: Ledger>(
        &self,
        field: &Field,
        chain: u32,
        memo: &mut [Option<u32>],
        steps: &mut Steps<L>,
    ) -> Result<u32, Option<SourceSpan>>
        requires sized { length memo.old ≡ length self.now.fragments.now }
        requires low { chain < 3 }
        ensures { MatchResult result
            (λ depth. AcceptedOne (fragments_nested self.now.fragments.now) chain (field_of self.now.fragments.now field.now) memo.old steps.old depth memo.new steps.new)
            (λ place. RefusedOne (fragments_nested self.now.fragments.now) chain (field_of self.now.fragments.now field.now) memo.old steps.old place steps.new) }
    {
        steps.tick();
        let counted = weight(field.name.as_str());
        let longer = chain + counted;
        if longer >= TOO_MANY {
            return Err(field.name.location());
        }
        let below = self.selection_set(&field.selection_set.selections, longer, memo, steps)?;
        Ok(counted + below)
    }

    /// The same of an inline fragment.
    #[cycle(depth)]
    fn inline<L: Ledger>(
        &self,
        fragment: &InlineFragment,
        chain: u32,
        memo: &mut [Option<u32>],
        steps: &mut Steps<L>,
    ) -> Result<u32, Option<SourceSpan>>
        requires sized { length memo.old ≡ length self.now.fragments.now }
        requires low { chain < 3 }
        ensures { MatchResult result
            (λ depth. AcceptedOne (fragments_nested self.now.fragments.now) chain (inline_of self.now.fragments.now fragment.now) memo.old steps.old depth memo.new steps.new)
            (λ place. RefusedOne (fragments_nested self.now.fragments.now) chain (inline_of self.now.fragments.now fragment.now) memo.old steps.old place steps.new) }
    {
        steps.tick();
        self.selection_set(&fragment.selection_set.selections, chain, memo, steps)
    }

    /// The same of a spread. That of a fragment which is not defined counts nothing.
    #[cycle(depth)]
    fn spread<L: Ledger>(
        &self,
        spread: &FragmentSpread,
        chain: u32,
        memo: &mut [Option<u32>],
        steps: &mut Steps<L>,
    ) -> Result<u32, Option<SourceSpan>>
        requires sized { length memo.old ≡ length self.now.fragments.now }
        requires low { chain < 3 }
        ensures { MatchResult result
            (λ depth. AcceptedOne (fragments_nested self.now.fragments.now) chain
            (spread_of (number_of self.now.fragments.now spread.now.fragment_name) spread.now.location) memo.old steps.old depth memo.new steps.new)
            (λ place. RefusedOne (fragments_nested self.now.fragments.now) chain
            (spread_of (number_of self.now.fragments.now spread.now.fragment_name) spread.now.location) memo.old steps.old place steps.new) }
    {
        match self.fragments.find(spread.fragment_name.as_str()) {
            Some(number) => self.fragment(number, spread.location, chain, memo, steps),
            None => {
                steps.tick();
                Ok(0)
            }
        }
    }

    /// The same of a spread of the fragment of this number: it is walked at its first spread, and remembered.
    #[cycle(depth)]
    fn fragment<L: Ledger>(
        &self,
        number: usize,
        place: Option<SourceSpan>,
        chain: u32,
        memo: &mut [Option<u32>],
        steps: &mut Steps<L>,
    ) -> Result<u32, Option<SourceSpan>>
        requires within { number < length self.now.fragments.now }
        requires sized { length memo.old ≡ length self.now.fragments.now }
        requires low { chain < 3 }
        ensures { MatchResult result
            (λ depth. AcceptedOne (fragments_nested self.now.fragments.now) chain (one_spread number place) memo.old steps.old depth memo.new steps.new)
            (λ at. RefusedOne (fragments_nested self.now.fragments.now) chain (one_spread number place) memo.old steps.old at steps.new) }
    {
        steps.tick();
        if let Some(depth) = memo[number] {
            if depth >= TOO_MANY - chain {
                return Err(place);
            }
            return Ok(depth);
        }
        let body = &self.fragments.as_slice()[number].selection_set.selections;
        memo[number] = Some(0);
        let depth = self.selection_set(body, chain, memo, steps)?;
        memo[number] = Some(depth);
        Ok(depth)
    }
}
