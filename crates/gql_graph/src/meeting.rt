//! Fields of one set that meet in buckets, one for each response key.

ghost use Rattle.std.specs.Prelude.{◌≡◌, [], OnOk, length, slice_set};
ghost use Rattle.gql_graph.specs.bridge.Explored as spec;
ghost use Rattle.gql_graph.specs.bridge.Steps as step;

use crate::pair::Pair;
use crate::reach::Graph;
use crate::seen::Seen;
use jb_text::{Listed, Memory};

/// Adds the pairs of these fields that have one response key, of each class one field. The time is linear in the fields and the
/// pairs, and in the classes that a field is compared with.
pub(crate) fn add_pairs(
    keys: &[usize],
    classes: &[usize],
    fields: &[usize],
    in_full: bool,
    buckets: &mut Graph,
    seen: &mut Seen,
) -> Result<(), Memory>
    requires { spec.AreEmpty buckets.old }
    ensures empty { OnOk result (spec.AreEmpty buckets.new) }
    ensures as_many { OnOk result (length buckets.new ≡ length buckets.old) }
    ensures paired { OnOk result (spec.IsPaired keys.now classes.now fields.now (length buckets.old) in_full seen.old seen.new) }
{
    meet_all(keys, classes, fields, in_full, buckets, seen)?;
    empty_all(keys, fields, buckets);
    Ok(())
}

/// Lets each of these fields meet those of its response key that came before it.
fn meet_all(
    keys: &[usize],
    classes: &[usize],
    fields: &[usize],
    in_full: bool,
    buckets: &mut Graph,
    seen: &mut Seen,
) -> Result<(), Memory>
    ensures { OnOk result (step.meeting buckets.new seen.new ≡ step.all_met keys.now classes.now in_full fields.now (step.meeting buckets.old seen.old)) }
{
    for field in fields {
        meet(keys, classes, *field, in_full, buckets, seen)?;
    }
    Ok(())
}

fn meet(
    keys: &[usize],
    classes: &[usize],
    field: usize,
    in_full: bool,
    buckets: &mut Graph,
    seen: &mut Seen,
) -> Result<(), Memory>
    ensures { OnOk result (step.meeting buckets.new seen.new ≡ step.met keys.now classes.now in_full field (step.meeting buckets.old seen.old)) }
{
    match keys.get(field) {
        Some(key) => meet_by_key(classes, *key, field, in_full, buckets, seen),
        None => Ok(()),
    }
}

fn meet_by_key(
    classes: &[usize],
    key: usize,
    field: usize,
    in_full: bool,
    buckets: &mut Graph,
    seen: &mut Seen,
) -> Result<(), Memory>
    ensures { OnOk result (step.meeting buckets.new seen.new ≡ step.met_by_key classes.now in_full field (step.meeting buckets.old seen.old) key) }
{
    match buckets.get_mut(key) {
        Some(bucket) => meet_in(classes, field, in_full, bucket, seen),
        None => Ok(()),
    }
}

/// Adds the pairs of a field and those in a bucket, and puts it there, unless one of its class is there.
fn meet_in(
    classes: &[usize],
    field: usize,
    in_full: bool,
    bucket: &mut Listed<usize>,
    seen: &mut Seen,
) -> Result<(), Memory>
    ensures bucket { OnOk result (bucket.new ≡ step.bucket_met classes.now field bucket.old) }
    ensures seen { OnOk result (seen.new ≡ step.seen_met classes.now in_full field bucket.old seen.old) }
{
    if is_covered(classes, field, bucket.as_slice()) {
        return Ok(());
    }
    insert_all(field, bucket.as_slice(), in_full, seen)?;
    bucket.push(field)
}

/// Whether one of these fields is of the class of the field.
fn is_covered(classes: &[usize], field: usize, others: &[usize]) -> bool
    ensures { result ≡ step.is_covered classes.now field others.now }
{
    let class = class_of(classes, field);
    others
        .iter()
        .any(|other| class == class_of(classes, *other))
}

/// The class of a field.
pub(crate) fn class_of(classes: &[usize], field: usize) -> usize
    ensures { result ≡ spec.class_of classes.now field }
{
    match classes.get(field) {
        Some(class) => *class,
        None => field,
    }
}

/// Adds the pairs of a field and each of the others.
fn insert_all(field: usize, others: &[usize], in_full: bool, seen: &mut Seen) -> Result<(), Memory>
    ensures { OnOk result (seen.new ≡ step.all_inserted in_full field others.now seen.old) }
{
    for other in others {
        seen.insert(pair_of(in_full, *other, field))?;
    }
    Ok(())
}

/// A pair of fields.
pub(crate) fn pair_of(in_full: bool, one: usize, other: usize) -> Pair
    ensures { result ≡ spec.pair_of in_full one other }
{
    if one < other {
        Pair {
            first: one,
            second: other,
            in_full,
        }
    } else {
        Pair {
            first: other,
            second: one,
            in_full,
        }
    }
}

/// Empties the buckets of these fields' response keys.
fn empty_all(keys: &[usize], fields: &[usize], buckets: &mut Graph)
    ensures { buckets.new ≡ step.all_emptied keys.now buckets.old fields.now }
{
    for field in fields {
        empty_one(keys, *field, buckets);
    }
}

fn empty_one(keys: &[usize], field: usize, buckets: &mut Graph)
    ensures { buckets.new ≡ step.emptied keys.now buckets.old field }
{
    match keys.get(field) {
        Some(key) => empty_key(*key, buckets),
        None => {}
    }
}

fn empty_key(key: usize, buckets: &mut Graph)
    ensures { buckets.new ≡ slice_set buckets.old key [] }
{
    match buckets.get_mut(key) {
        Some(bucket) => empty(bucket),
        None => {}
    }
}

/// Takes all fields out of a bucket.
fn empty(bucket: &mut Listed<usize>)
    ensures { bucket.new ≡ [] }
{
    while let Some(_field) = bucket.pop() {}
}
