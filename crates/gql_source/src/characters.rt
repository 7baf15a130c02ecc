//! Characters of a text, counted ahead so that no long line has to be gone through for a column.

ghost use Rattle.std.specs.Prelude.{◌≡◌, ◌≤◌, ◌/◌, IfOk, length};
ghost use Rattle.std.specs.List.{count_by};
ghost use Rattle.gql_source.specs.Lines as lines;
ghost use Rattle.gql_source.specs.bridge.Characters as spec;

use crate::Memory;
use std::alloc::Global;

/// How many bytes lie between two marks.
const STEP: usize = 256;

/// How many characters begin before each mark of a text.
pub(crate) fn counts_at_marks(alloc: Global, text: &[u8]) -> Result<Vec<usize>, Memory>
    ensures { IfOk result (λ counts. counts.items ≡ spec.counts_at_marks text.now (length text.now / spec.step)) }
{
    let mut counts = vec![in alloc; 0]?;
    let mut count = 0;
    for mark in 0..text.len() / STEP {
        let start = mark * STEP;
        count += count_characters(&text[start..start + STEP]);
        counts.push(count)?;
    }
    Ok(counts)
}

/// How many characters begin before the offset, from the counts at the text's marks.
pub(crate) fn characters_before(text: &[u8], counts: &[usize], offset: usize) -> usize
    requires counts { counts.now ≡ spec.counts_at_marks text.now (length text.now / spec.step) }
    requires within { offset ≤ length text.now }
    ensures { result ≡ spec.characters_before text.now offset }
{
    let mark = offset / STEP;
    counts[mark] + count_characters(&text[mark * STEP..offset])
}

/// How many characters begin in these bytes.
fn count_characters(bytes: &[u8]) -> usize
    ensures { result ≡ count_by lines.begins_character bytes.now }
{
    let mut count = 0;
    for byte in bytes {
        if begins_character(*byte) {
            count += 1;
        }
    }
    count
}

/// Whether the byte begins a character.
pub(crate) fn begins_character(byte: u8) -> bool
    ensures { result ≡ lines.begins_character byte }
{
    byte < 0x80 || 0xC0 <= byte
}
