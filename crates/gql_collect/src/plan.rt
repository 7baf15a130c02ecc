//! Plans: trees of groups that are collected already.

ghost use Rattle.std.specs.Prelude.{◌≡◌, []};
ghost use Rattle.gql_collect.specs.Plan as spec;
ghost use Rattle.gql_collect.specs.bridge.Plan as spec_bridge;

use crate::planned_field::PlannedField;
use gql_schema_types::ObjectType;
use jb_text::Listed;
use std::alloc::Global;

/// What is selected on the objects of one type below a group: the parts in order.
#[cycle(plan)]
pub struct Node<'d> {
    pub object_type: &'d ObjectType,
    pub parts: Listed<Part<'d>>,
}

impl Drop for Node<'_> {
    #[cycle(drop_nodes)]
    fn drop(self) {
        let Node {
            object_type: _,
            parts: _,
        } = self;
    }
}

/// What is asked by a group, and the nodes of the objects that its field has led to so far, one for each of their types.
#[cycle(plan)]
pub struct Part<'d> {
    pub field: PlannedField<'d>,
    pub nodes: Listed<Node<'d>>,
}

impl Drop for Part<'_> {
    #[cycle(drop_nodes)]
    fn drop(self) {
        let Part { field: _, nodes: _ } = self;
    }
}

impl<'d> Node<'d> {
    /// The node of objects of this type, with these parts.
    pub(crate) fn new(object_type: &'d ObjectType, parts: Listed<Part<'d>>) -> Node<'d>
        ensures typed { spec_bridge.type_in result ≡ object_type.now }
        ensures parts { spec_bridge.parts_in result ≡ parts.entry }
    {
        Node { object_type, parts }
    }
}

impl<'d> Part<'d> {
    /// The part of a field, with no nodes yet.
    pub(crate) fn new(alloc: Global, field: PlannedField<'d>) -> Part<'d>
        ensures field { spec.field_in result ≡ field.entry }
        ensures nodes { spec_bridge.nodes_in result ≡ [] }
    {
        let nodes = Listed::new(alloc);
        Part { field, nodes }
    }
}
