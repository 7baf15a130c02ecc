//! The names among the tokens of a row, one by one.

ghost use Rattle.std.specs.Prelude.{◌≡◌, Some, OnOk};
ghost use Rattle.gql_ast_reader.specs.bridge.Taking as taking;
ghost use Rattle.gql_ast_reader.specs.bridge.Fresh as fresh;

use crate::place::{Place, text_at};
use crate::row::Words;
use crate::row::keeping::{add, clear, clear_slot};
use gql_ast::{DirectiveLocation, location_word};
use gql_ast_base::Source;
use jb_text::{Listed, Memory};
use std::alloc::Global;

/// Where a directive may stand, by the name at a place.
fn location_at(text: &str, place: Place) -> Option<DirectiveLocation>
    ensures { result ≡ taking.location_at text.now place }
{
    match text_at(text, place) {
        Some(found) => location_word(found),
        None => None,
    }
}

impl Words {
    pub(crate) fn new(alloc: Global) -> Words
        ensures { result ≡ fresh.no_words }
    {
        Words {
            one: None,
            two: None,
            three: None,
            locations: Listed::new(alloc),
        }
    }

    pub(crate) fn empty(&mut self)
        ensures { self.new ≡ fresh.no_words }
    {
        clear_slot(&mut self.one);
        clear_slot(&mut self.two);
        clear_slot(&mut self.three);
        clear(&mut self.locations);
    }

    /// The name at a place. `Err` only where memory runs out.
    pub(crate) fn take(&mut self, source: &Source<'_>, place: Place) -> Result<(), Memory>
        ensures { OnOk result (self.new ≡ taking.words_taken source.now.text.now self.old (Some place)) }
    {
        if self.one.is_none() {
            self.one = Some(place);
            return Ok(());
        }
        if self.two.is_none() {
            self.two = Some(place);
            return Ok(());
        }
        if self.three.is_none() {
            self.three = Some(place);
        }
        add(
            &mut self.locations,
            source.alloc,
            location_at(source.text, place),
        )
    }
}
