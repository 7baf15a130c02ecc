//! What a collection gives.

ghost use Rattle.std.specs.Prelude.{◌≡◌, length, slice_get};
ghost use Rattle.std.specs.Option.{option_copied, option_map};
ghost use Rattle.gql_collect.specs.Groups.{response_name};
ghost use Rattle.gql_collect.specs.declared.group.Group.{Group};

use crate::group::Group;
use gql_ast_base::Name;
use gql_document_types::Field;
use jb_text::Listed;
use std::marker::Model;

/// The groups of fields that a collection gives, one for each response key, in the order in which the keys first occur
/// (GraphQL October 2021, section 6.3.2, CollectFields).
///
/// A contract sees the list of the groups.
#[derive(Drop)]
pub struct Grouped<'d> {
    groups: Listed<Group<'d>>,
}

impl<'d> Model for Grouped<'d> {
    ghost use Rattle.std.specs.Prelude.{List};
    ghost use Rattle.std.specs.Coded.{codes};
    ghost use Rattle.gql_ast_base.specs.contracts.type_ref.TypeRef as ty;
    ghost use Rattle.gql_ast_base.specs.contracts.value.ValueKind as value;
    ghost use Rattle.gql_document_types.specs.contracts.selection.Selection as selection;
    ghost use Rattle.gql_collect.specs.declared.group.Group.{Group};

    ghost Value = { List Group };

    ghost coded = { Prim.hlevel (codes, ty.the_row.coded, value.the_row.coded, selection.the_row.coded) };

    ghost view = { λ grouped. grouped.groups };
}

impl<'d> Grouped<'d> {
    /// These groups.
    pub(crate) fn of(groups: Listed<Group<'d>>) -> Grouped<'d>
        ensures { result ≡ groups.entry }
    {
        Grouped { groups }
    }

    /// How many response keys there are.
    #[must_use]
    pub fn len(&self) -> usize
        ensures { result ≡ length self.now }
    {
        self.groups.len()
    }

    /// The response key at an index: the alias of the first field, or else its name (section 2.7). `None` at the length and
    /// past it.
    #[must_use]
    pub fn key(&self, index: usize) -> Option<&'d Name>
        ensures { option_copied result ≡ option_map (λ (group : Group). response_name group.first.now) (slice_get self.now index) }
    {
        match self.groups.get(index) {
            Some(group) => Some(group.key()),
            None => None,
        }
    }

    /// The fields of the response key at an index, in order. `None` at the length and past it.
    #[must_use]
    pub fn fields(&self, index: usize) -> Option<&Listed<&'d Field>>
        ensures { option_copied result ≡ option_map (λ (group : Group). group.fields) (slice_get self.now index) }
    {
        match self.groups.get(index) {
            Some(group) => Some(&group.fields),
            None => None,
        }
    }

    /// The groups in order, lent.
    #[must_use]
    pub fn groups(&self) -> &Listed<Group<'d>>
        ensures { result.now ≡ self.now }
    {
        &self.groups
    }

    /// The groups in order.
    #[must_use]
    pub fn into_groups(self) -> Listed<Group<'d>>
        ensures { result ≡ self.entry }
    {
        let Grouped { groups } = self;
        groups
    }
}
