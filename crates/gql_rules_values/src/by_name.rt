//! Things in a list, found by their names.

ghost use Rattle.std.specs.Prelude.{◌≡◌, ◌<◌, ℕ, List, Some, not, length, position, slice_get, take, IfOk, OnOk};
ghost use Rattle.std.specs.Option.{option_copied};
ghost use Rattle.std.specs.List.{list_any};
ghost use Rattle.std.specs.Map.{lookup};
ghost use Rattle.std.specs.Str.{bytes_eq};
ghost use Rattle.gql_rules_values.specs.bridge.ByName as spec;
ghost use Rattle.gql_schema_types.specs.Entries.{is_called, entry};

use crate::seconds::Placed;
use jb_map::Pairs;
use jb_text::{ByteString, Memory};
use std::alloc::Global;
use std::marker::Model;

/// Up to this many things, or look-ups, a look-up goes through the things; past it the places of their names are kept by hash.
const MOST_SCANNED: usize = 16;

/// Things in a list, of which the first of a name counts. Contracts see the list of them.
///
/// Many look-ups in many things are expected to take time that grows with the sum of both, not with their product.
#[derive(Drop)]
pub struct ByName<'s, T: Placed> {
    items: &'s [T],
    places: Option<Pairs<usize>>,
}

impl<'s, T: Placed> Model for ByName<'s, T> {
    ghost use Rattle.std.specs.Prelude.{◌≡◌, ℕ, List, IfSome, position};
    ghost use Rattle.std.specs.Coded.{coded_list};
    ghost use Rattle.std.specs.Map.{lookup};
    ghost use Rattle.std.specs.Str.{bytes_eq};
    ghost use Rattle.gql_schema_types.specs.Entries.{is_called};

    ghost Value = { List T };

    ghost coded = { coded_list T.code };

    ghost view = { λ b. b.items.now };

    ghost invariant = { λ b. IfSome b.places (λ places. (name : List ℕ) → lookup (bytes_eq name) places ≡ position (is_called T.name_of name) b.items.now) };
}

impl<'s, T: Placed> ByName<'s, T> {
    /// These things, in which about so many names are to be found. Where there are more than sixteen of both, it takes
    /// time that grows with the number of things, and memory. `Err` only when out of memory.
    pub fn new(alloc: Global, items: &'s [T], lookups: usize) -> Result<ByName<'s, T>, Memory>
        ensures { IfOk result (λ made. made ≡ items.now) }
    {
        if items.len() <= MOST_SCANNED || lookups <= MOST_SCANNED {
            return Ok(ByName {
                items,
                places: None,
            });
        }
        let places = places_of(alloc, items)?;
        Ok(ByName {
            items,
            places: Some(places),
        })
    }

    /// The things in order.
    #[must_use]
    pub fn as_slice(&self) -> &'s [T]
        ensures { result.now ≡ self.now }
    {
        self.items
    }

    /// The place of the first of the name; `None` exactly where there is none. It takes no memory.
    #[must_use]
    pub fn find(&self, name: &str) -> Option<usize>
        ensures { result ≡ position (is_called T.name_of name.now) self.now }
    {
        match &self.places {
            Some(places) => places.get(name).copied(),
            None => scan(self.items, name),
        }
    }

    /// Whether there is one of the name. It takes no memory.
    #[must_use]
    pub fn contains(&self, name: &str) -> bool
        ensures { result ≡ list_any (is_called T.name_of name.now) self.now }
    {
        self.find(name).is_some()
    }

    /// Whether the one at `at` is the first of its name. It takes no memory.
    #[must_use]
    pub fn is_first(&self, at: usize) -> bool
        requires { at < length self.now }
        ensures { (item : T) → slice_get self.now at ≡ Some item → result ≡ not (list_any (is_called T.name_of (T.name_of item).text) (take at self.now)) }
    {
        match self.find(self.as_slice()[at].placed_name().as_str()) {
            Some(first) => first == at,
            None => false,
        }
    }

    /// The first of the name; `None` exactly where there is none. It takes no memory.
    #[must_use]
    pub fn get(&self, name: &str) -> Option<&'s T>
        ensures { option_copied result ≡ entry T.name_of name.now self.now }
    {
        match self.find(name) {
            Some(at) => Some(&self.items[at]),
            None => None,
        }
    }
}

/// The place of the first of these things that has the name.
fn scan<T: Placed>(items: &[T], name: &str) -> Option<usize>
    ensures { result ≡ position (is_called T.name_of name.now) items.now }
{
    items
        .iter()
        .position(|item| name == item.placed_name().as_str())
}

/// Of each name the place of the first thing that has it.
fn places_of<T: Placed>(alloc: Global, items: &[T]) -> Result<Pairs<usize>, Memory>
    ensures { IfOk result (λ places. (name : List ℕ) → lookup (bytes_eq name) places ≡ position (is_called T.name_of name) items.now) }
{
    let mut places = Pairs::new(alloc);
    for at in 0..items.len() {
        note_place(alloc, &items[at], at, &mut places)?;
    }
    Ok(places)
}

/// Notes the place of a thing, unless its name was noted.
fn note_place<T: Placed>(
    alloc: Global,
    item: &T,
    at: usize,
    places: &mut Pairs<usize>,
) -> Result<(), Memory>
    ensures { OnOk result (places.new ≡ spec.with_place T.name_of places.old item.now at) }
{
    let name = item.placed_name().as_str();
    match places.get(name) {
        Some(_) => Ok(()),
        None => {
            let key = ByteString::from_text(alloc, name)?;
            places.insert_new(key, at)
        }
    }
}
