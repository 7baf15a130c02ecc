//! Executable documents: operations and fragments whose fields have their definitions.
//!
//! An [`ExecutableDocument`] is plain data. Each [`SelectionSet`] has the name of its type, and each [`Field`] the definition
//! that a schema gives it. [`ExecutableDocument::operations_get`] finds the operation that a request names, and
//! [`Operation::root_fields`] the fields that an operation asks of its root type. [`spread_graph`] gives
//! the fragments that each fragment spreads, and [`ExecutableDocument::fragments_acyclic`] tells whether none leads back to itself.
//! [`Copying`] copies each of the trees.
//!
//! [`expand_fragments`] gives an operation with an inline fragment in the place of each spread (GraphQL October 2021, section
//! 2.8), and refuses where more selections than a limit would stand there. The functions of [`laws`] do nothing when they run:
//! their contracts say what stands there.
#![tactic(auto)]

mod counting;
mod document;
mod expand;
mod expansion;
mod fragment;
mod fragments_acyclic;
pub mod laws;
mod operation;
mod operations_get;
mod root_fields;
mod selection;
mod spreads;

pub use document::{ExecutableDocument, FieldSet};
pub use expand::{ExpandFault, expand_fragments};
pub use fragment::Fragment;
pub use gql_ast_base::Copying;
pub use jb_text::Memory;
pub use operation::Operation;
pub use selection::{Field, FragmentSpread, InlineFragment, Selection, SelectionSet};
pub use spreads::{add_spreads, spread_graph};
