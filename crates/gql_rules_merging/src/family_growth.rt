//! Families of fields, grown from each field alone: fields of one response key in one set are joined, and so are those in the sets
//! of a family taken together.
//!
//! No contract says that nothing is left to be joined. `families.rt` looks at what is made here.

use crate::numbering::{Numbered, Selected};
use gql_graph::{Graph, flood};
use jb_text::{Listed, Memory};
use std::alloc::Global;

/// How often the sets of all families are gone through at most. Once is enough where each field is numbered after those in its
/// set and in the fragments that are spread there, and a second time tells so.
const MOST_ROUNDS: usize = 16;

/// The family of each field, called after its field of the highest number. `Err` only when out of memory. The time is linear in
/// what is entered from all sets.
pub(crate) fn grown_families(
    alloc: Global,
    numbered: &Numbered<'_>,
    keys: &[usize],
) -> Result<Vec<usize>, Memory> {
    let mut growth = Growth::alone(alloc, numbered.fragments.len(), keys.len())?;
    growth.join_rows(alloc, numbered, keys, numbered.operations.as_slice())?;
    growth.join_rows(alloc, numbered, keys, numbered.fragments.as_slice())?;
    for _round in 0..MOST_ROUNDS {
        growth.has_grown = false;
        growth.join_families(alloc, numbered, keys)?;
        if !growth.has_grown {
            break;
        }
    }
    name_all(growth.above.as_mut_slice());
    Ok(growth.above)
}

/// Families on their way.
#[derive(Drop)]
struct Growth {
    /// At each field one of its family that has a higher number, or itself where there is none.
    above: Vec<usize>,
    /// At each field the next one around its family.
    next: Vec<usize>,
    /// At each fragment and field 1 where it is in the set that is gone through, or else 0.
    marks: Vec<usize>,
    /// At each response key one more than the number of the first field in that set that has it, or else 0.
    firsts: Vec<usize>,
    has_grown: bool,
}

impl Growth {
    /// Each field alone.
    fn alone(alloc: Global, fragments: usize, fields: usize) -> Result<Growth, Memory> {
        let above = numbers(alloc, fields)?;
        let next = numbers(alloc, fields)?;
        let firsts = vec![in alloc; 0; fields]?;
        let marks = vec![in alloc; 0; fields.saturating_add(fragments)]?;
        Ok(Growth {
            above,
            next,
            marks,
            firsts,
            has_grown: false,
        })
    }

    /// Joins fields of sets that select these.
    fn join_rows(
        &mut self,
        alloc: Global,
        numbered: &Numbered<'_>,
        keys: &[usize],
        rows: &[Listed<usize>],
    ) -> Result<(), Memory> {
        for row in rows {
            self.join_set(alloc, &numbered.fragments, keys, row.as_slice())?;
        }
        Ok(())
    }

    /// Joins fields in the sets of each family, from the highest number down.
    fn join_families(
        &mut self,
        alloc: Global,
        numbered: &Numbered<'_>,
        keys: &[usize],
    ) -> Result<(), Memory> {
        let fields = numbered.fields.as_slice();
        for behind in 0..fields.len() {
            let field = fields.len() - 1 - behind;
            if entry(self.above.as_slice(), field) == field {
                let items = self.family_items(alloc, fields, field)?;
                self.join_set(alloc, &numbered.fragments, keys, items.as_slice())?;
            }
        }
        Ok(())
    }

    /// What is selected in the fields of a family, which is called after `head`.
    fn family_items(
        &self,
        alloc: Global,
        fields: &[Selected<'_>],
        head: usize,
    ) -> Result<Vec<usize>, Memory> {
        let mut items = Vec::new(alloc);
        let mut field = head;
        for _member in 0..fields.len() {
            match fields.get(field) {
                Some(member) => items.extend_from_slice(member.items.as_slice())?,
                None => {}
            }
            field = entry(self.next.as_slice(), field);
            if field == head {
                break;
            }
        }
        Ok(items)
    }

    /// Joins the fields of a set that selects these.
    fn join_set(
        &mut self,
        alloc: Global,
        fragments: &Graph,
        keys: &[usize],
        items: &[usize],
    ) -> Result<(), Memory> {
        let nodes = flood(alloc, fragments, self.marks.as_mut_slice(), items, 0, 1)?;
        self.meet_all(fragments.len(), keys, nodes.as_slice());
        self.forget_all(fragments.len(), keys, nodes.as_slice());
        Ok(())
    }

    /// Joins those of these nodes that are fields of one response key. The fields come behind the fragments, of which there are
    /// so many.
    fn meet_all(&mut self, base: usize, keys: &[usize], nodes: &[usize]) {
        for node in nodes {
            if base <= *node {
                self.meet(keys, *node - base);
            }
        }
    }

    /// Joins a field with the first of its response key, or takes it for that.
    fn meet(&mut self, keys: &[usize], field: usize) {
        let key = entry(keys, field);
        let first = entry(self.firsts.as_slice(), key);
        if first == 0 {
            set_entry(self.firsts.as_mut_slice(), key, field.saturating_add(1));
        } else {
            self.join(first - 1, field);
        }
    }

    /// Takes the marks off these nodes, and forgets the first of each response key.
    fn forget_all(&mut self, base: usize, keys: &[usize], nodes: &[usize]) {
        for node in nodes {
            set_entry(self.marks.as_mut_slice(), *node, 0);
            set_entry(
                self.firsts.as_mut_slice(),
                entry(keys, node.saturating_sub(base)),
                0,
            );
        }
    }

    /// Makes one family of those of two fields.
    fn join(&mut self, one: usize, other: usize) {
        let one = self.head_of(one);
        let other = self.head_of(other);
        if one != other {
            self.has_grown = true;
            set_entry(self.above.as_mut_slice(), one.min(other), one.max(other));
            let behind = entry(self.next.as_slice(), one);
            let next = entry(self.next.as_slice(), other);
            set_entry(self.next.as_mut_slice(), one, next);
            set_entry(self.next.as_mut_slice(), other, behind);
        }
    }

    /// The field that the family of a field is called after. The way there gets shorter.
    fn head_of(&mut self, field: usize) -> usize {
        let mut at = field;
        for _step in 0..self.above.len() {
            let above = entry(self.above.as_slice(), at);
            if above == at {
                break;
            }
            let further = entry(self.above.as_slice(), above);
            set_entry(self.above.as_mut_slice(), at, further);
            at = further;
        }
        at
    }
}

/// Calls each field's family after the same field, where each entry leads to a higher one, or to itself.
fn name_all(above: &mut [usize]) {
    for behind in 0..above.len() {
        let field = above.len() - 1 - behind;
        let head = entry(above, entry(above, field));
        set_entry(above, field, head);
    }
}

/// The numbers below `count`.
fn numbers(alloc: Global, count: usize) -> Result<Vec<usize>, Memory> {
    let mut numbers = Vec::with_capacity(alloc, count)?;
    for number in 0..count {
        numbers.push(number)?;
    }
    Ok(numbers)
}

/// The entry at a place, or the place itself where there is none.
fn entry(entries: &[usize], at: usize) -> usize {
    match entries.get(at) {
        Some(entry) => *entry,
        None => at,
    }
}

/// Sets the entry at a place, if there is one.
fn set_entry(entries: &mut [usize], at: usize, entry: usize) {
    if at < entries.len() {
        entries[at] = entry;
    }
}
