//! Rows that stand behind each other.

ghost use Rattle.std.specs.Prelude.{◌≡◌, ◌<◌, ◌≤◌, [], ◌∷◌, ◌++◌, ◌+◌, length, OnOk, vec_len};
ghost use Rattle.gql_ast_reader.specs.bridge.Stand.{empty, Hands};

use crate::open_row::OpenRow;
use gql_ast_base::{Memory, Source, SyntaxKind};
use std::alloc::Global;

/// One more row, with nothing in it.
#[inline(never)]
pub(crate) fn push_row(
    rows: &mut Vec<OpenRow>,
    alloc: Global,
    kind: SyntaxKind,
) -> Result<(), Memory>
    ensures items { OnOk result (rows.new.items ≡ rows.old.items ++ empty kind ∷ []) }
    ensures len { OnOk result (vec_len rows.new ≡ vec_len rows.old + 1) }
    ensures stay { vec_len rows.old ≤ vec_len rows.new }
{
    rows.push(OpenRow::new(alloc))?;
    if let Some(row) = rows.last_mut() {
        row.begin(alloc, kind);
    }
    Ok(())
}

/// What the row behind the one at the place holds comes in that one, as a node of the kind.
pub(crate) fn hand_on(
    rows: &mut [OpenRow],
    at: usize,
    source: &Source<'_>,
    kind: SyntaxKind,
) -> Result<(), Memory>
    requires { at < length rows.old }
    ensures len { length rows.new ≡ length rows.old }
    ensures hands { OnOk result (Hands source.now.text.now source.now.file_id kind at rows.old rows.new) }
{
    let (open, behind) = rows.split_at_mut(at + 1);
    let (Some(outer), Some(inner)) = (open.last_mut(), behind.first_mut()) else {
        return Ok(());
    };
    inner.hand_on(source, kind, outer)
}
