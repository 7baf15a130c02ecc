//! The exploration of pairs: from the sets of a document on, and below each pair that is found.

ghost use Rattle.std.specs.Prelude.{◌≡◌, ◌++◌, [], ℕ, Bool, List, Option, IfOk, OnOk};
ghost use Rattle.gql_graph.specs.bridge.Explored as spec;
ghost use Rattle.gql_graph.specs.bridge.Exploring as exploring;

use crate::meeting::add_pairs;
use crate::members::fields_of;
use crate::pair::Pair;
use crate::reach::Graph;
use crate::seen::Seen;
use jb_text::{Listed, Memory};
use std::alloc::{AllocError, Global};

/// What pairs of fields are compared by.
pub trait Compares {
    ghost use Rattle.gql_graph.specs.declared.pair.Pair.{Pair};

    ghost items: { Self → ℕ → List ℕ };

    ghost below: { Self → Pair → Option Bool };

    /// What is selected in the field of a number: fragments by their numbers, and fields by their own behind those of all
    /// fragments.
    fn items(&self, field: usize) -> &[usize]
        ensures { result.now ≡ items self.now field };

    /// Whether what is below a pair is compared in full. `None` where the pair breaks the rule: nothing below it is compared.
    fn below(&self, pair: Pair) -> Option<bool>
        ensures { result ≡ below self.now pair };
}

/// The sets of a document: what its fragments and its operations select. The response keys of its fields have numbers below
/// their count. Fields of one class stand for each other; one without a class is alone in its own.
#[derive(Clone, Copy)]
pub struct DocumentSets<'d> {
    pub fragments: &'d Graph,
    pub operations: &'d Graph,
    pub keys: &'d [usize],
    pub key_count: usize,
    pub classes: &'d [usize],
}

/// The pairs that are compared for the rule on merging fields (GraphQL October 2021, section 5.3.2), each once in full and once
/// by type alone, but of fields of one class one alone. `Err` only when out of memory.
pub fn explore<C: Compares>(
    alloc: Global,
    compares: &C,
    sets: &DocumentSets<'_>,
) -> Result<Seen, Memory>
    requires { spec.AreKeys sets.now.keys.now sets.now.key_count }
    ensures { IfOk result (λ found. spec.IsExplored (exploring.sets_by (C.items compares.now) (C.below compares.now) sets.now) sets.now.classes.now found) }
{
    let mut states = vec![in alloc; 0; sets.fragments.as_slice().len() + sets.keys.len()]?;
    let mut buckets = no_buckets(alloc, sets.key_count)?;
    let mut seen = Seen::new(alloc);
    add_all_sets(
        alloc,
        compares,
        sets,
        states.as_mut_slice(),
        &mut buckets,
        &mut seen,
    )?;
    go_on(
        alloc,
        compares,
        sets,
        states.as_mut_slice(),
        &mut buckets,
        &mut seen,
    )?;
    Ok(seen)
}

/// So many empty buckets.
fn no_buckets(alloc: Global, count: usize) -> Result<Graph, Memory>
    ensures { IfOk result (λ made. made ≡ exploring.no_buckets count) }
{
    let mut made = Listed::new(alloc);
    for _key in 0..count {
        made.push(Listed::new(alloc))?;
    }
    Ok(made)
}

/// Adds the pairs of the sets of operations, fragments and fields.
fn add_all_sets<C: Compares>(
    alloc: Global,
    compares: &C,
    sets: &DocumentSets<'_>,
    states: &mut [usize],
    buckets: &mut Graph,
    seen: &mut Seen,
) -> Result<(), Memory>
    requires keys { spec.AreKeys sets.now.keys.now sets.now.key_count }
    requires clean { exploring.IsCleanFor sets.now states.old buckets.old }
    requires none { seen.old ≡ [] }
    ensures clean { OnOk result (exploring.IsCleanFor sets.now states.new buckets.new) }
    ensures begun { OnOk result (exploring.IsBegun (exploring.sets_by (C.items compares.now) (C.below compares.now) sets.now) sets.now.classes.now seen.new) }
{
    add_rows(
        alloc,
        sets,
        sets.operations.as_slice(),
        states,
        buckets,
        seen,
    )?;
    add_rows(
        alloc,
        sets,
        sets.fragments.as_slice(),
        states,
        buckets,
        seen,
    )?;
    add_field_sets(alloc, compares, sets, states, buckets, seen)?;
    Ok(())
}

/// Adds the pairs of sets that select these.
fn add_rows(
    alloc: Global,
    sets: &DocumentSets<'_>,
    rows: &[Listed<usize>],
    states: &mut [usize],
    buckets: &mut Graph,
    seen: &mut Seen,
) -> Result<(), Memory>
    requires keys { spec.AreKeys sets.now.keys.now sets.now.key_count }
    requires clean { exploring.IsCleanFor sets.now states.old buckets.old }
    ensures clean { OnOk result (exploring.IsCleanFor sets.now states.new buckets.new) }
    ensures added { OnOk result (spec.AreAdded sets.now.fragments.now sets.now.keys.now sets.now.classes.now rows.now seen.old seen.new) }
{
    for row in rows {
        add_set(alloc, sets, row.as_slice(), true, states, buckets, seen)?;
    }
    Ok(())
}

/// Adds the pairs of the sets of all fields.
fn add_field_sets<C: Compares>(
    alloc: Global,
    compares: &C,
    sets: &DocumentSets<'_>,
    states: &mut [usize],
    buckets: &mut Graph,
    seen: &mut Seen,
) -> Result<(), Memory>
    requires keys { spec.AreKeys sets.now.keys.now sets.now.key_count }
    requires clean { exploring.IsCleanFor sets.now states.old buckets.old }
    ensures clean { OnOk result (exploring.IsCleanFor sets.now states.new buckets.new) }
    ensures added { OnOk result (spec.AreAdded sets.now.fragments.now sets.now.keys.now sets.now.classes.now (exploring.field_sets (C.items compares.now) sets.now.keys.now) seen.old seen.new) }
{
    for field in 0..sets.keys.len() {
        add_set(
            alloc,
            sets,
            compares.items(field),
            true,
            states,
            buckets,
            seen,
        )?;
    }
    Ok(())
}

/// Adds the pairs of a set that selects these.
fn add_set(
    alloc: Global,
    sets: &DocumentSets<'_>,
    items: &[usize],
    in_full: bool,
    states: &mut [usize],
    buckets: &mut Graph,
    seen: &mut Seen,
) -> Result<(), Memory>
    requires keys { spec.AreKeys sets.now.keys.now sets.now.key_count }
    requires clean { exploring.IsCleanFor sets.now states.old buckets.old }
    ensures clean { OnOk result (exploring.IsCleanFor sets.now states.new buckets.new) }
    ensures added { OnOk result (spec.IsAdded sets.now.fragments.now sets.now.keys.now sets.now.classes.now in_full items.now seen.old seen.new) }
{
    let fields = fields_of(alloc, sets.fragments, states, items)?;
    add_pairs(
        sets.keys,
        sets.classes,
        fields.as_slice(),
        in_full,
        buckets,
        seen,
    )?;
    Ok(())
}

/// Goes on below each pair that is found.
fn go_on<C: Compares>(
    alloc: Global,
    compares: &C,
    sets: &DocumentSets<'_>,
    states: &mut [usize],
    buckets: &mut Graph,
    seen: &mut Seen,
) -> Result<(), Memory>
    requires keys { spec.AreKeys sets.now.keys.now sets.now.key_count }
    requires clean { exploring.IsCleanFor sets.now states.old buckets.old }
    requires begun { exploring.IsBegun (exploring.sets_by (C.items compares.now) (C.below compares.now) sets.now) sets.now.classes.now seen.old }
    ensures { OnOk result (spec.IsExplored (exploring.sets_by (C.items compares.now) (C.below compares.now) sets.now) sets.now.classes.now seen.new) }
{
    for next in 0..usize::MAX {
        match seen.at(next) {
            Some(pair) => go_below(alloc, compares, sets, pair, states, buckets, seen)?,
            None => return Ok(()),
        }
    }
    Err(AllocError)
}

/// Adds the pairs below a pair.
fn go_below<C: Compares>(
    alloc: Global,
    compares: &C,
    sets: &DocumentSets<'_>,
    pair: Pair,
    states: &mut [usize],
    buckets: &mut Graph,
    seen: &mut Seen,
) -> Result<(), Memory>
    requires keys { spec.AreKeys sets.now.keys.now sets.now.key_count }
    requires clean { exploring.IsCleanFor sets.now states.old buckets.old }
    ensures clean { OnOk result (exploring.IsCleanFor sets.now states.new buckets.new) }
    ensures below { OnOk result (exploring.IsGoneBelow (exploring.sets_by (C.items compares.now) (C.below compares.now) sets.now) sets.now.classes.now pair seen.old seen.new) }
{
    match compares.below(pair) {
        Some(in_full) => {
            let items = joined(
                alloc,
                compares.items(pair.first),
                compares.items(pair.second),
            )?;
            add_set(
                alloc,
                sets,
                items.as_slice(),
                in_full,
                states,
                buckets,
                seen,
            )?;
            Ok(())
        }
        None => Ok(()),
    }
}

/// These and those.
fn joined(alloc: Global, these: &[usize], those: &[usize]) -> Result<Vec<usize>, Memory>
    ensures { IfOk result (λ joined. joined.items ≡ these.now ++ those.now) }
{
    let mut joined = Vec::with_capacity(alloc, these.len())?;
    joined.extend_from_slice(these)?;
    joined.extend_from_slice(those)?;
    Ok(joined)
}
