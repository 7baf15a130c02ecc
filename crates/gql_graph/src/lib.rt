//! Graphs, for the rules of GraphQL on cycles and chains: what is reached, what is on a cycle, and long chains; and pairs of
//! fields of one response key, for the rule on merging them (GraphQL October 2021, section 5.3.2).
//!
//! A graph has at each node the nodes that its edges lead to, by number. [`flood`] marks what is reached, [`judge`] tells which
//! nodes are on cycles and which begin a chain of names that is too long. Each takes time that grows with the number of nodes
//! and edges. [`explore`] lists the pairs of fields that meet, and those below them.
//!
//! The functions of [`laws`] do nothing when they run: their contracts hold of all graphs.
#![tactic(auto)]

mod chains;
mod cycles;
mod exploration;
mod flat;
pub mod laws;
mod meeting;
mod members;
mod order;
mod pair;
mod reach;
mod reverse;
mod seen;

pub use chains::{Judged, is_marked, judge};
pub use exploration::{Compares, DocumentSets, explore};
pub use jb_text::Memory;
pub use pair::Pair;
pub use reach::{Graph, flood, targets};
pub use seen::Seen;
