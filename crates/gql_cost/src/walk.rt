//! A walk through selections that adds what they cost and looks into each fragment once.

ghost use Rattle.std.specs.Prelude.{◌≡◌, ◌<◌, ◌≤◌, ◌+◌, ◌*◌, ℕ, suc, length};
ghost use Rattle.gql_cost.specs.Size.{size};
ghost use Rattle.gql_cost.specs.bridge.Walked.{AreRight, HaveSums, IsCapped, WalkedAll, WalkedField, WalkedFragment, WalkedInline, WalkedOne, WalkedSpread};
ghost use Rattle.gql_document_types.specs.Contents.{HaveContents};

use gql_ast_base::TypeRef;
use gql_collect::Steps;
use gql_document_types::{Field, Fragment, FragmentSpread, InlineFragment, Selection};
use gql_schema_types::Table;
use jb_text::Listed;
use std::sync::ledger::Ledger;

/// What stays the same throughout a walk.
#[derive(Clone, Copy)]
pub(crate) struct CostWalk<'a> {
    pub fragments: &'a Table<Fragment>,
    pub items: u32,
    pub limit: u32,
}

impl<'a> CostWalk<'a> {
    /// What these cost, or one more than the limit where it is more. `memo` has the sums of the fragments that were looked into.
    #[cycle(costs)]
    pub(crate) fn all<L: Ledger>(
        &self,
        selections: &Listed<Selection>,
        memo: &mut [Option<u64>],
        steps: &mut Steps<L>,
    ) -> u64
        requires contents { HaveContents self.now.fragments.now }
        requires sums { HaveSums self.now.items self.now.fragments.now }
        requires right { AreRight self.now.items (suc self.now.limit) self.now.fragments.now memo.old }
        ensures { WalkedAll self.now.items (suc self.now.limit) self.now.fragments.now selections.now memo.old steps.old result memo.new steps.new }
    {
        let mut total = 0;
        for selection in selections.as_slice() {
            let more = self.one(selection, memo, steps);
            total = self.sum(total, more);
        }
        total
    }

    /// The same of one selection.
    #[cycle(costs)]
    fn one<L: Ledger>(
        &self,
        selection: &Selection,
        memo: &mut [Option<u64>],
        steps: &mut Steps<L>,
    ) -> u64
        requires contents { HaveContents self.now.fragments.now }
        requires sums { HaveSums self.now.items self.now.fragments.now }
        requires right { AreRight self.now.items (suc self.now.limit) self.now.fragments.now memo.old }
        ensures { WalkedOne self.now.items (suc self.now.limit) self.now.fragments.now selection.now memo.old steps.old result memo.new steps.new }
    {
        match selection {
            Selection::Field(field) => self.field(field, memo, steps),
            Selection::FragmentSpread(spread) => self.spread(spread, memo, steps),
            Selection::InlineFragment(fragment) => self.inline(fragment, memo, steps),
        }
    }

    /// A field, with what is inside it.
    #[cycle(costs)]
    fn field<L: Ledger>(&self, field: &Field, memo: &mut [Option<u64>], steps: &mut Steps<L>) -> u64
        requires contents { HaveContents self.now.fragments.now }
        requires sums { HaveSums self.now.items self.now.fragments.now }
        requires right { AreRight self.now.items (suc self.now.limit) self.now.fragments.now memo.old }
        ensures { WalkedField self.now.items (suc self.now.limit) self.now.fragments.now field.now memo.old steps.old result memo.new steps.new }
    {
        steps.tick();
        let below = self.all(&field.selection_set.selections, memo, steps);
        self.size(&field.definition.ty, below)
    }

    /// What is inside an inline fragment.
    #[cycle(costs)]
    fn inline<L: Ledger>(
        &self,
        fragment: &InlineFragment,
        memo: &mut [Option<u64>],
        steps: &mut Steps<L>,
    ) -> u64
        requires contents { HaveContents self.now.fragments.now }
        requires sums { HaveSums self.now.items self.now.fragments.now }
        requires right { AreRight self.now.items (suc self.now.limit) self.now.fragments.now memo.old }
        ensures { WalkedInline self.now.items (suc self.now.limit) self.now.fragments.now fragment.now memo.old steps.old result memo.new steps.new }
    {
        steps.tick();
        self.all(&fragment.selection_set.selections, memo, steps)
    }

    /// What is inside the fragment of a spread. There is none for a fragment that is not defined.
    #[cycle(costs)]
    fn spread<L: Ledger>(
        &self,
        spread: &FragmentSpread,
        memo: &mut [Option<u64>],
        steps: &mut Steps<L>,
    ) -> u64
        requires contents { HaveContents self.now.fragments.now }
        requires sums { HaveSums self.now.items self.now.fragments.now }
        requires right { AreRight self.now.items (suc self.now.limit) self.now.fragments.now memo.old }
        ensures { WalkedSpread self.now.items (suc self.now.limit) self.now.fragments.now spread.now memo.old steps.old result memo.new steps.new }
    {
        steps.tick();
        match self.fragments.find(spread.fragment_name.as_str()) {
            Some(number) => self.fragment(number, memo, steps),
            None => 0,
        }
    }

    /// What is inside the fragment of the number: it is looked into once, and remembered.
    #[cycle(costs)]
    fn fragment<L: Ledger>(
        &self,
        number: usize,
        memo: &mut [Option<u64>],
        steps: &mut Steps<L>,
    ) -> u64
        requires contents { HaveContents self.now.fragments.now }
        requires sums { HaveSums self.now.items self.now.fragments.now }
        requires right { AreRight self.now.items (suc self.now.limit) self.now.fragments.now memo.old }
        requires within { number < length self.now.fragments.now }
        ensures { WalkedFragment self.now.items (suc self.now.limit) self.now.fragments.now number memo.old steps.old result memo.new steps.new }
    {
        if let Some(sum) = memo[number] {
            return sum;
        }
        let body = &self.fragments.as_slice()[number].selection_set.selections;
        let sum = self.all(body, memo, steps);
        memo[number] = Some(sum);
        sum
    }

    /// What is made at a type, where what is below it costs so much.
    fn size(&self, ty: &TypeRef, below: u64) -> u64
        requires low { below ≤ suc self.now.limit }
        ensures low { result ≤ suc self.now.limit }
        ensures is { (sum : ℕ) → IsCapped (suc self.now.limit) sum below → IsCapped (suc self.now.limit) (size self.now.items ty.now sum) result }
    {
        match ty {
            TypeRef::Named(_) | TypeRef::NonNullNamed(_) => self.sum(1, below),
            TypeRef::List(item) | TypeRef::NonNullList(item) => {
                let one = self.size(item.get(), below);
                self.items_of(one)
            }
        }
    }

    /// A list of items that cost so much each.
    fn items_of(&self, one: u64) -> u64
        requires low { one ≤ suc self.now.limit }
        ensures { IsCapped (suc self.now.limit) (suc (self.now.items * one)) result }
    {
        let items = u64::from(self.items);
        self.capped(items * one + 1)
    }

    /// The sum of two.
    fn sum(&self, one: u64, other: u64) -> u64
        requires one { one ≤ suc self.now.limit }
        requires other { other ≤ suc self.now.limit }
        ensures { IsCapped (suc self.now.limit) (one + other) result }
    {
        self.capped(one + other)
    }

    /// The number, or one more than the limit where it is more.
    fn capped(&self, n: u64) -> u64
        ensures { IsCapped (suc self.now.limit) n result }
    {
        let most = u64::from(self.limit) + 1;
        if n < most { n } else { most }
    }
}
