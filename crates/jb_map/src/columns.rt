//! What is done to the keys and the values of a map in step. Contracts see both as one list of pairs.
ghost use Rattle.std.specs.Prelude.{◌≡◌, ◌≤◌, ◌+◌, [], ◌++◌, IfOk, IfNone, OnOk, OnErr, length, zip, vec_len};
ghost use Rattle.std.specs.Option.{option_to_list};
ghost use Rattle.std.specs.Vec.{vec_capacity};
ghost use Rattle.std.specs.Map.{keys_of, values_of};
ghost use Rattle.jb_map.specs.Retained.{Keeps, Retains};

use jb_text::{ByteString, Memory};
use std::alloc::Global;

/// Takes the last pair out.
pub(crate) fn pop_pair<V>(
    texts: &mut Vec<ByteString>,
    values: &mut Vec<V>,
) -> Option<(ByteString, V)>
    requires even { vec_len values.old ≡ vec_len texts.old }
    ensures pairs { zip texts.old.items values.old.items ≡ zip texts.new.items values.new.items ++ option_to_list result }
    ensures even { vec_len values.new ≡ vec_len texts.new }
    ensures len { vec_len texts.new + length (option_to_list result) ≡ vec_len texts.old }
    ensures last { IfNone result (vec_len texts.new ≡ 0) }
    ensures texts_room { vec_capacity texts.new ≡ vec_capacity texts.old }
    ensures values_room { vec_capacity values.new ≡ vec_capacity values.old }
{
    match texts.pop() {
        Some(key) => Some((key, values.pop().unwrap())),
        None => None,
    }
}

/// Keeps the pairs for which `keep` gives true, in their order. It takes no memory.
pub(crate) fn keep_pairs<V: Drop, F: Fn(&ByteString, &V) -> bool>(
    texts: &mut Vec<ByteString>,
    values: &mut Vec<V>,
    keep: F,
)
    requires callable { F.IsAlwaysCallable keep }
    requires even { vec_len values.old ≡ vec_len texts.old }
    ensures kept { Retains (Keeps F.Fn keep) (zip texts.old.items values.old.items) (zip texts.new.items values.new.items) }
    ensures even { vec_len values.new ≡ vec_len texts.new }
{
    let mut kept = 0;
    for index in 0..texts.len() {
        if keep(&texts[index], &values[index]) {
            texts.swap(kept, index);
            values.swap(kept, index);
            kept += 1;
        }
    }
    texts.truncate(kept);
    values.truncate(kept);
}

/// Moves the keys and the values into one list of pairs, and leaves the room for them. `Err` only when out of memory,
/// with both as they were.
pub(crate) fn join<V>(
    alloc: Global,
    texts: &mut Vec<ByteString>,
    values: &mut Vec<V>,
) -> Result<Vec<(ByteString, V)>, Memory>
    requires even { vec_len values.old ≡ vec_len texts.old }
    ensures pairs { IfOk result (λ pairs. pairs.items ≡ zip texts.old.items values.old.items) }
    ensures emptied { OnOk result ((texts.new.items ≡ []) × (values.new.items ≡ [])) }
    ensures room { IfOk result (λ pairs. (vec_len pairs ≤ vec_capacity texts.new) × (vec_len pairs ≤ vec_capacity values.new)) }
    ensures refused { OnErr result ((texts.new.items ≡ texts.old.items) × (values.new.items ≡ values.old.items)) }
{
    let mut pairs = Vec::with_capacity(alloc, texts.len())?;
    while let Some(pair) = pop_pair(texts, values) {
        pairs.push_reserved(pair);
    }
    pairs.reverse();
    Ok(pairs)
}

/// Moves pairs into the room that [`join`] left.
pub(crate) fn split<V: Drop>(
    mut pairs: Vec<(ByteString, V)>,
    texts: &mut Vec<ByteString>,
    values: &mut Vec<V>,
)
    requires emptied { (texts.old.items ≡ []) × (values.old.items ≡ []) }
    requires room { (vec_len pairs ≤ vec_capacity texts.old) × (vec_len pairs ≤ vec_capacity values.old) }
    ensures texts { texts.new.items ≡ keys_of pairs.items }
    ensures values { values.new.items ≡ values_of pairs.items }
{
    pairs.reverse();
    while let Some((key, value)) = pairs.pop() {
        texts.push_reserved(key);
        values.push_reserved(value);
    }
}
