//! How many selections an operation would have without spreads, counted by what is written.

ghost use Rattle.std.specs.Prelude.{◌≡◌, ◌+◌, ◌<◌, length, leb, IfOk};
ghost use Rattle.gql_document_types.specs.Contents.{HaveContents};
ghost use Rattle.gql_document_types.specs.Count.{count};
ghost use Rattle.gql_document_types.specs.bridge.Counted.{AreRight, IsCounted, count_at, field_count, inline_count, one_count, spread_count};
ghost use Rattle.gql_document_types.specs.Expanded.{expanded};

use crate::fragment::Fragment;
use crate::selection::{Field, FragmentSpread, InlineFragment, Selection};
use gql_schema_types::Table;
use jb_text::{Listed, Memory};
use std::alloc::Global;

/// Whether these selections have at most `limit` once each spread is replaced. `Err` only when out of memory. The time is
/// linear in the selections and in those of the fragments.
pub(crate) fn fits(
    alloc: Global,
    fragments: &Table<Fragment>,
    selections: &Listed<Selection>,
    limit: usize,
) -> Result<bool, Memory>
    requires contents { HaveContents fragments.now }
    ensures { IfOk result (λ fits. fits ≡ leb (count (expanded fragments.now selections.now)) limit) }
{
    let mut memo = vec![in alloc; None; fragments.len()]?;
    let counter = Counter { fragments, limit };
    Ok(counter.all(selections, memo.as_mut_slice()).is_some())
}

/// What stays the same while selections are counted: the fragments, and the limit.
#[derive(Clone, Copy)]
struct Counter<'a> {
    fragments: &'a Table<Fragment>,
    limit: usize,
}

impl<'a> Counter<'a> {
    /// How many these are once each spread is replaced, unless they are more than the limit. `memo` has the counts of the
    /// fragments that were counted.
    #[cycle(counting)]
    fn all(&self, selections: &Listed<Selection>, memo: &mut [Option<usize>]) -> Option<usize>
        requires contents { HaveContents self.now.fragments.now }
        requires right { AreRight self.now.fragments.now self.now.limit memo.old }
        ensures right { AreRight self.now.fragments.now self.now.limit memo.new }
        ensures counted { IsCounted self.now.limit (count (expanded self.now.fragments.now selections.now)) result }
    {
        let mut total = 0;
        for selection in selections.as_slice() {
            let more = self.one(selection, memo)?;
            total = self.sum(total, more)?;
        }
        Some(total)
    }

    /// The same of one selection.
    #[cycle(counting)]
    fn one(&self, selection: &Selection, memo: &mut [Option<usize>]) -> Option<usize>
        requires contents { HaveContents self.now.fragments.now }
        requires right { AreRight self.now.fragments.now self.now.limit memo.old }
        ensures right { AreRight self.now.fragments.now self.now.limit memo.new }
        ensures counted { IsCounted self.now.limit (one_count self.now.fragments.now selection.now) result }
    {
        match selection {
            Selection::Field(field) => self.field(field, memo),
            Selection::FragmentSpread(spread) => self.spread(spread, memo),
            Selection::InlineFragment(fragment) => self.inline(fragment, memo),
        }
    }

    /// A field, with what is inside it.
    #[cycle(counting)]
    fn field(&self, field: &Field, memo: &mut [Option<usize>]) -> Option<usize>
        requires contents { HaveContents self.now.fragments.now }
        requires right { AreRight self.now.fragments.now self.now.limit memo.old }
        ensures right { AreRight self.now.fragments.now self.now.limit memo.new }
        ensures counted { IsCounted self.now.limit (field_count self.now.fragments.now field.now) result }
    {
        let inside = self.all(&field.selection_set.selections, memo)?;
        self.sum(1, inside)
    }

    /// An inline fragment, with what is inside it.
    #[cycle(counting)]
    fn inline(&self, fragment: &InlineFragment, memo: &mut [Option<usize>]) -> Option<usize>
        requires contents { HaveContents self.now.fragments.now }
        requires right { AreRight self.now.fragments.now self.now.limit memo.old }
        ensures right { AreRight self.now.fragments.now self.now.limit memo.new }
        ensures counted { IsCounted self.now.limit (inline_count self.now.fragments.now fragment.now) result }
    {
        let inside = self.all(&fragment.selection_set.selections, memo)?;
        self.sum(1, inside)
    }

    /// The inline fragment that a spread becomes, with what is inside it. There is none for a fragment that is not defined.
    #[cycle(counting)]
    fn spread(&self, spread: &FragmentSpread, memo: &mut [Option<usize>]) -> Option<usize>
        requires contents { HaveContents self.now.fragments.now }
        requires right { AreRight self.now.fragments.now self.now.limit memo.old }
        ensures right { AreRight self.now.fragments.now self.now.limit memo.new }
        ensures counted { IsCounted self.now.limit (spread_count self.now.fragments.now spread.now) result }
    {
        match self.fragments.find(spread.fragment_name.as_str()) {
            Some(number) => {
                let inside = self.fragment(number, memo)?;
                self.sum(1, inside)
            }
            None => Some(0),
        }
    }

    /// What is inside the fragment of the number: it is counted once, and remembered.
    #[cycle(counting)]
    fn fragment(&self, number: usize, memo: &mut [Option<usize>]) -> Option<usize>
        requires contents { HaveContents self.now.fragments.now }
        requires right { AreRight self.now.fragments.now self.now.limit memo.old }
        requires within { number < length self.now.fragments.now }
        ensures right { AreRight self.now.fragments.now self.now.limit memo.new }
        ensures counted { IsCounted self.now.limit (count_at self.now.fragments.now number) result }
    {
        if let Some(count) = memo[number] {
            return Some(count);
        }
        let body = &self.fragments.as_slice()[number].selection_set.selections;
        let count = self.all(body, memo)?;
        memo[number] = Some(count);
        Some(count)
    }

    /// The sum, unless it is more than the limit.
    fn sum(&self, one: usize, other: usize) -> Option<usize>
        ensures { IsCounted self.now.limit (one + other) result }
    {
        let limit = self.limit;
        let sum = one.checked_add(other)?;
        (sum <= limit).then_some(sum)
    }
}
