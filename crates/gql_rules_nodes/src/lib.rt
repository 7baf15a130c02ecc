//! The nodes of an executable document, the one walk over them that its rules share, and the rules that look at one node or at the
//! spreads of fragments (GraphQL October 2021, sections 5.3 to 5.8).
//!
//! A document's nodes are its operations, its fragments and all selections in them, each once: operations come before fragments,
//! and each selection before what it selects. A fragment's selections are nodes of the fragment and not of its spreads. A
//! [`Visitor`] says what it finds at one node; [`walk_document`] adds all that it finds, in the order of the nodes.
//!
//! - [`list_document_nodes`] lists what is wrong with each node of a document by itself: one diagnostic for each fault of each
//!   rule, by one walk. The [`PossibleTypes`] that it asks follow from the schema alone, and serve any number of documents.
//! - [`list_spread_faults`] lists spreads that lead nowhere, back or too far, without which no other rule on documents makes
//!   sense; [`list_unused_fragments`] lists fragments that no operation reaches (section 5.5).
//!
//! Each takes time that is linear in the selections of the document. A rule has a file of its own here and in `specs/`, named after
//! it; those on values, arguments and directives stand in the crate below.
#![tactic(auto)]

mod composite;
mod document_nodes;
mod invalid_fragment_spread;
mod invalid_fragment_target;
mod known_types;
mod missing_subselection;
mod node_rules;
mod possible_types;
mod reaching;
mod recursive_fragment_definition;
mod spread_faults;
mod undefined_fragment;
mod unique_variable;
mod unused_fragment;
mod variable_input_type;
mod variable_type;
mod variables;
mod visitor;
mod walk;
mod ways;

pub use document_nodes::list_document_nodes;
pub use jb_text::Memory;
pub use possible_types::PossibleTypes;
pub use reaching::{is_reached, reached};
pub use spread_faults::list_spread_faults;
pub use unique_variable::list_unique_variable;
pub use unused_fragment::list_unused_fragments;
pub use visitor::Visitor;
pub use walk::walk_document;
