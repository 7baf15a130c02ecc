//! The table of answers.

ghost use Rattle.std.specs.Prelude.{◌≡◌, [], IfOk, OnOk, OnErr, not};
ghost use Rattle.std.specs.Map.{lookup};
ghost use Rattle.std.specs.Option.{option_copied};
ghost use Rattle.std.specs.Str.{bytes_eq};
ghost use Rattle.gql_rounds.specs.Key.{key};
ghost use Rattle.gql_rounds.specs.Table.{has_key, with_answer};

use crate::ask::answer_key;
use jb_text::{ByteString, Memory};
use jb_tree::{Map, Value};
use std::alloc::Global;
use std::marker::Model;

/// What a caller told of the fields of its objects: a value for each field of an object with its arguments.
///
/// A contract sees the list of the values by the texts that they are found by.
#[derive(Drop)]
pub struct Answers {
    values: Map,
}

impl Model for Answers {
    ghost use Rattle.gql_rounds.specs.Table.{Table};
    ghost use Rattle.jb_tree.specs.contracts.value.Value as json;
    ghost use Rattle.std.specs.Coded.{codes};

    ghost Value = { Table };

    ghost coded = { Prim.hlevel (codes, json.the_row.coded) };

    ghost view = { λ answers. answers.values };
}

impl Answers {
    /// No answer yet. It allocates nothing until the first [`Answers::tell`].
    #[must_use]
    pub fn new(alloc: Global) -> Answers
        ensures { result ≡ [] }
    {
        Answers {
            values: Map::new(alloc),
        }
    }

    /// Tells the value of a field of the object of this number with these arguments. What was told before stays: then the answer is
    /// `Ok(false)`, and the table is as it was. `Err` only when out of memory: the table is as it was then too.
    pub fn tell(
        &mut self,
        alloc: Global,
        object: u64,
        field: &str,
        arguments: &Map,
        value: Value,
    ) -> Result<bool, Memory>
        ensures told { OnOk result (self.new ≡ with_answer self.old (key object field.now arguments.now) value) }
        ensures first { IfOk result (λ first. first ≡ not (has_key (key object field.now arguments.now) self.old)) }
        ensures unchanged { OnErr result (self.new ≡ self.old) }
    {
        let key = answer_key(alloc, object, field, arguments)?;
        if self.values.contains_key(key.as_str()) {
            return Ok(false);
        }
        let key = ByteString::from_text(alloc, key.as_str())?;
        self.values.insert_new(key, value)?;
        Ok(true)
    }

    /// The value that is found by this text, where one was told.
    pub(crate) fn find(&self, key: &str) -> Option<&Value>
        ensures { option_copied result ≡ lookup (bytes_eq key.now) self.now }
    {
        self.values.get(key)
    }
}
