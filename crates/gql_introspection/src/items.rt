//! Lists that are answered with.

ghost use Rattle.std.specs.Prelude.{◌≡◌, [], ◌∷◌, ◌++◌, OnOk};
ghost use Rattle.gql_resolvers.specs.Meaning.{meaning_by};
ghost use Rattle.gql_introspection.specs.Answers.{list_of};
ghost use Rattle.gql_introspection.specs.bridge.Items.{answers_in};
ghost use Rattle.gql_introspection.specs.Seen.{stands_for};

use crate::meta_object::MetaObject;
use gql_resolvers::{FieldError, ResolvedValue};
use jb_text::{Listed, Memory};
use std::alloc::Global;

/// The items of a list, none of which fails.
#[derive(Drop)]
pub(crate) struct Items<'a> {
    held: Listed<Result<ResolvedValue<MetaObject<'a>>, FieldError>>,
}

impl<'a> Items<'a> {
    /// No items.
    pub(crate) fn new(alloc: Global) -> Items<'a>
        ensures { answers_in result ≡ [] }
    {
        Items {
            held: Listed::new(alloc),
        }
    }

    /// Adds an item last.
    pub(crate) fn push(&mut self, item: ResolvedValue<MetaObject<'a>>) -> Result<(), Memory>
        ensures { OnOk result (answers_in self.new ≡ answers_in self.old ++ meaning_by stands_for item.entry ∷ []) }
    {
        self.held.push(Ok(item))
    }

    /// The list of them.
    pub(crate) fn into_list(self) -> ResolvedValue<MetaObject<'a>>
        ensures { meaning_by stands_for result ≡ list_of (answers_in self.entry) }
    {
        ResolvedValue::List(self.held)
    }
}
