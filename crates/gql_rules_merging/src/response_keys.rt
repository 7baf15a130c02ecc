//! Response keys by numbers.

ghost use Rattle.std.specs.Prelude.{◌≡◌, IfOk, OnOk};
ghost use Rattle.gql_rules_merging.specs.bridge.Gathering.{fields_of, selected_of};
ghost use Rattle.gql_rules_merging.specs.bridge.Keying as keying;
ghost use Rattle.gql_rules_merging.specs.ResponseKeys as spec;

use crate::numbering::Selected;
use jb_map::Pairs;
use jb_text::{ByteString, Memory};
use std::alloc::Global;

/// At each field the number of the first one that has its response key. `Err` only when out of memory. Keys are found by hash.
pub(crate) fn key_numbers(alloc: Global, fields: &[Selected<'_>]) -> Result<Vec<usize>, Memory>
    ensures { IfOk result (λ keys. keys.items ≡ spec.key_numbers (fields_of fields.now)) }
{
    let mut firsts = Pairs::new(alloc);
    let mut keys = Vec::new(alloc);
    for field in fields {
        note_key(alloc, field, &mut firsts, &mut keys)?;
    }
    Ok(keys)
}

/// Notes the number of a field's response key.
fn note_key(
    alloc: Global,
    field: &Selected<'_>,
    firsts: &mut Pairs<usize>,
    keys: &mut Vec<usize>,
) -> Result<(), Memory>
    ensures { OnOk result (keying.noted firsts.new keys.new.items ≡ keying.with_field (selected_of field.now) (keying.noted firsts.old keys.old.items)) }
{
    match firsts.get(field.key().as_str()) {
        Some(first) => {
            let first = *first;
            keys.push(first)?;
        }
        None => {
            let key = ByteString::from_text(alloc, field.key().as_str())?;
            firsts.insert_new(key, keys.len())?;
            keys.push(keys.len())?;
        }
    }
    Ok(())
}
