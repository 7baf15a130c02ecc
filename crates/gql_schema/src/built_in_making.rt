//! What is made of rows.

ghost use Rattle.std.specs.Prelude.{◌≡◌, IfOk, List, ℕ, map, slice_range};
ghost use Rattle.std.specs.Option.{option_map};
ghost use Rattle.gql_source.specs.declared.file_id.FileId.{FileId as File};
ghost use Rattle.gql_schema.specs.Rows as spec;

use crate::built_in_row::Place;
use gql_ast_base::{Name, Source};
use gql_source::{FileId, SourceSpan};
use jb_text::{Listed, Memory};
use std::alloc::AllocError;

/// What can be made of a row.
pub(crate) trait FromRow<R>: Sized + Drop {
    /// What a row stands for in a text.
    ghost meaning: { List ℕ → File → R → Self };

    /// What the row stands for. `Err` where memory runs out. It would come as well at a place that the text does not
    /// have, or at a name that is none.
    fn of(source: &Source<'_>, row: &R) -> Result<Self, Memory>
        ensures { IfOk result (λ made. made ≡ meaning source.now.text.now source.now.file_id row.now) };
}

/// What the rows stand for, one after the other. `Err` as where one of them is made.
pub(crate) fn all_of<R, T: FromRow<R>>(source: &Source<'_>, rows: &[R]) -> Result<Listed<T>, Memory>
    ensures { IfOk result (λ made. made ≡ map (T.meaning source.now.text.now source.now.file_id) rows.now) }
{
    let mut list = Listed::with_capacity(source.alloc, rows.len())?;
    for row in rows {
        list.push(T::of(source, row)?)?;
    }
    Ok(list)
}

/// What the row stands for, if there is one. `Err` as where it is made.
pub(crate) fn maybe_of<R, T: FromRow<R>>(
    source: &Source<'_>,
    row: &Option<R>,
) -> Result<Option<T>, Memory>
    ensures { IfOk result (λ made. made ≡ option_map (T.meaning source.now.text.now source.now.file_id) row.now) }
{
    match row {
        Some(row) => {
            let made = T::of(source, row)?;
            Ok(Some(made))
        }
        None => Ok(None),
    }
}

/// The text between two places that lie between characters.
pub(crate) fn piece(text: &str, start: usize, end: usize) -> Result<&str, Memory>
    ensures { IfOk result (λ found. found.now ≡ slice_range text.now start end) }
{
    if start <= end && text.is_char_boundary(start) && text.is_char_boundary(end) {
        Ok(&text[start..end])
    } else {
        Err(AllocError)
    }
}

/// The place in the file.
pub(crate) fn span(file_id: FileId, place: Place) -> Result<SourceSpan, Memory>
    ensures { IfOk result (λ made. made ≡ spec.span file_id place) }
{
    if place.0 <= place.1 {
        Ok(SourceSpan::new(file_id, place.0, place.1))
    } else {
        Err(AllocError)
    }
}

/// The name that stands at the place.
pub(crate) fn name_at(source: &Source<'_>, place: Place) -> Result<Name, Memory>
    ensures { IfOk result (λ made. made ≡ spec.name_at source.now.text.now source.now.file_id place) }
{
    let found = source.name_in(place.0..place.1)?;
    match found {
        Some(name) => Ok(name),
        None => Err(AllocError),
    }
}
