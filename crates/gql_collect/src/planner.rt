//! How plans begin and grow.

ghost use Rattle.std.specs.Prelude.{◌≡◌, ◌≤◌, ◌+◌, [], ℕ, IfOk, OnOk};
ghost use Rattle.std.specs.List.{position};
ghost use Rattle.gql_collect.specs.Collected.{sets_of};
ghost use Rattle.gql_document_types.specs.Ranks.{AreRanked};
ghost use Rattle.gql_collect.specs.Sizes.{outer_size};
ghost use Rattle.gql_collect.specs.bridge.Growth as growth;
ghost use Rattle.gql_collect.specs.bridge.Plan as spec;
ghost use Rattle.gql_collect.specs.bridge.Ways.{Grows, turns_to};

use crate::group::Group;
use crate::grouping::collect_fields;
use crate::pieces::Pieces;
use crate::plan::{Node, Part};
use crate::steps::Steps;
use gql_document_types::{ExecutableDocument, Operation};
use gql_response::JsonMap;
use gql_schema_types::{ObjectType, Schema, Valid};
use jb_text::{Listed, Memory};
use std::alloc::Global;
use std::sync::ledger::Ledger;

/// What stays the same while a plan grows: the schema, the document with the operation that is executed, and the values of
/// the variables.
#[derive(Clone, Copy)]
pub struct Planner<'d> {
    pub alloc: Global,
    pub schema: &'d Valid<Schema>,
    pub document: &'d ExecutableDocument,
    pub operation: &'d Operation,
    pub variables: &'d Valid<JsonMap>,
}

impl<'d> Planner<'d> {
    /// The parts of selection sets on objects of this type, with no nodes below them yet (GraphQL October 2021, section
    /// 6.3.2, CollectFields). `Err` only when out of memory. No more steps are counted than the operation and all fragments
    /// have selections, at every depth.
    pub fn parts<L: Ledger>(
        &self,
        object_type: &ObjectType,
        pieces: &Pieces<'d>,
        steps: &mut Steps<L>,
    ) -> Result<Listed<Part<'d>>, Memory>
        requires ranked { (rank : ℕ → ℕ) × AreRanked self.now.document.now.fragments rank }
        requires within { spec.IsWithin (spec.ground_of self.now) (sets_of pieces.now) }
        ensures parts { IfOk result (λ parts. spec.ArePartsOf (spec.ground_of self.now) object_type.now (sets_of pieces.now) parts) }
        ensures fresh { IfOk result growth.AreFresh }
        ensures looks { steps.new ≤ steps.old + spec.most_looks (spec.ground_of self.now) }
        ensures rises { steps.old ≤ steps.new }
        ensures counted { OnOk result (steps.old + outer_size (sets_of pieces.now) ≤ steps.new) }
    {
        let schema = self.schema.as_ref();
        let variables = self.variables.as_ref();
        let grouped = collect_fields(
            self.alloc,
            schema,
            self.document,
            object_type,
            pieces,
            variables,
            steps,
        )?;
        self.begun(object_type, grouped.into_groups())
    }

    /// The number of the node for objects of this type among those below a group. It is added where none was there, and only
    /// then steps are counted. `Err` only when out of memory.
    #[inline(always)]
    pub fn node_number<L: Ledger>(
        &self,
        object_type: &'d ObjectType,
        group: &Group<'d>,
        nodes: &mut Listed<Node<'d>>,
        steps: &mut Steps<L>,
    ) -> Result<usize, Memory>
        requires ranked { (rank : ℕ → ℕ) × AreRanked self.now.document.now.fragments rank }
        requires typed { spec.IsTyped self.now.schema.now object_type.now }
        requires planned { spec.AreNodes (spec.ground_of self.now) (spec.sets_below group.now) nodes.old }
        ensures planned { OnOk result (spec.AreNodes (spec.ground_of self.now) (spec.sets_below group.now) nodes.new) }
        ensures there { IfOk result (λ number. spec.IsNodeOf object_type.now nodes.new number) }
        ensures grows { OnOk result (Grows (spec.most_looks (spec.ground_of self.now)) steps.old steps.new
            (λ n. turns_to n nodes.old) (λ n. turns_to n nodes.new) (λ turn. turn ≡ (object_type.now, []))) }
    {
        match number_of(object_type.name.as_str(), nodes.as_slice()) {
            Some(number) => Ok(number),
            None => self.add_node(object_type, group, nodes, steps),
        }
    }

    /// Adds the node for objects of this type below a group, and gives its number.
    fn add_node<L: Ledger>(
        &self,
        object_type: &'d ObjectType,
        group: &Group<'d>,
        nodes: &mut Listed<Node<'d>>,
        steps: &mut Steps<L>,
    ) -> Result<usize, Memory>
        requires ranked { (rank : ℕ → ℕ) × AreRanked self.now.document.now.fragments rank }
        requires within { spec.IsWithin (spec.ground_of self.now) (spec.sets_below group.now) }
        ensures added { IfOk result (λ number.
            growth.IsAdded (spec.ground_of self.now) object_type.now (spec.sets_below group.now) nodes.old nodes.new number) }
        ensures looks { steps.new ≤ steps.old + spec.most_looks (spec.ground_of self.now) }
        ensures rises { steps.old ≤ steps.new }
    {
        let pieces = group.sub_selections(self.alloc)?;
        let parts = self.parts(object_type, &pieces, steps)?;
        let number = nodes.len();
        nodes.push(Node::new(object_type, parts))?;
        Ok(number)
    }

    /// These groups on objects of this type as parts with no nodes.
    fn begun(
        &self,
        object_type: &ObjectType,
        groups: Listed<Group<'d>>,
    ) -> Result<Listed<Part<'d>>, Memory>
        ensures { IfOk result (λ parts. growth.AreBegun (spec.ground_of self.now) object_type.now groups.entry parts) }
    {
        let mut parts = Listed::new(self.alloc);
        for group in groups {
            let field = self.planned(object_type, group)?;
            parts.push(Part::new(self.alloc, field))?;
        }
        Ok(parts)
    }
}

/// Where the node for objects of the type of this name is.
#[inline(always)]
fn number_of(name: &str, nodes: &[Node<'_>]) -> Option<usize>
    ensures { result ≡ position (growth.is_for name.now) nodes.now }
{
    nodes
        .iter()
        .position(|node| name == node.object_type.name.as_str())
}
