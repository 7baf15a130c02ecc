//! What stands before an execution: the depth of its operation, the values of its variables, the groups of its fields, and its
//! plan.
//!
//! - The fields `fields`, `interfaces`, `possibleTypes` and `inputFields` lead from a type to further types, so a short query can
//!   ask for a very long answer (GraphQL October 2021, section 4). [`check_max_depth`] refuses three of them on one chain of nested
//!   selections.
//! - [`coerce_variable_values`] coerces the values of a request to the variables that an operation defines (section 6.1.2), and
//!   tells what fails as the error of the request.
//! - What a selection set asks of an object type (section 6.3.2) is a list of groups: [`collect_fields`] goes through selection sets
//!   and the fragments that apply to the type, enters each fragment once, and gives the fields in order, those of one response key
//!   together, as a [`Group`]. They are borrowed from the document; nothing is copied. It counts each look at a selection, and
//!   takes no more looks than there are selections in the sets and in all fragments.
//! - A plan (section 6.3) has the groups of a selection on objects of one type, which are collected once, however many objects
//!   there are. A [`Part`] is a group with what objects ask by it, a [`PlannedField`]: its definition is looked up and its arguments
//!   are coerced once as well. It keeps a [`Node`] for each type of the objects that its field has led to, which has the parts of
//!   what is selected on them. A [`Planner`] begins a plan, and adds the node of a type when it first comes.
//! - [`Steps`] counts looks at selections, for contracts alone.
#![tactic(auto)]

mod applies;
mod collecting;
mod depth;
mod directives;
mod group;
mod grouped;
mod grouping;
mod kept_arguments;
mod max_depth;
mod pieces;
mod plan;
mod planned_field;
mod planner;
mod steps;
mod variable_values;

pub use group::Group;
pub use grouped::Grouped;
pub use grouping::collect_fields;
pub use jb_text::Memory;
pub use max_depth::check_max_depth;
pub use pieces::Pieces;
pub use plan::{Node, Part};
pub use planned_field::PlannedField;
pub use planner::Planner;
pub use steps::Steps;
pub use variable_values::coerce_variable_values;
