//! Places of a text, and what stands there.

ghost use Rattle.std.specs.Prelude.{◌≡◌, IfOk};
ghost use Rattle.std.specs.Option.{option_copied};
ghost use Rattle.gql_ast_reader.specs.bridge.Places as spec;

use gql_ast_base::{Name, Source, piece};
use jb_text::Memory;

/// The bytes of a text from one place to another.
#[derive(Clone, Copy)]
pub(crate) struct Place {
    pub(crate) start: usize,
    pub(crate) end: usize,
}

/// What stands at the place, if both of its ends lie between characters.
#[must_use]
pub(crate) fn text_at(text: &str, place: Place) -> Option<&str>
    ensures { option_copied result ≡ spec.text_at text.now place }
{
    piece(text, place.start, place.end)
}

/// What stands there, if there is a place.
#[must_use]
pub(crate) fn text_there(text: &str, place: Option<Place>) -> Option<&str>
    ensures { option_copied result ≡ spec.text_there text.now place }
{
    let place = place?;
    text_at(text, place)
}

/// The name that stands there, if there is a place and one does. `Err` only where memory runs out.
pub(crate) fn name_there(source: &Source<'_>, place: Option<Place>) -> Result<Option<Name>, Memory>
    ensures { IfOk result (λ made. made ≡ spec.name_there source.now.text.now source.now.file_id place) }
{
    let Some(place) = place else {
        return Ok(None);
    };
    source.name_in(place.start..place.end)
}
