//! A text has one meaning, and nothing of a sentence is left out of it.
//!
//! The grammar does not say in which node of a concrete tree an ignored token stands, nor what a node's own place is. The
//! functions of [`laws`] do nothing when they run: their contracts are the laws that what a text stands for does not
//! depend on that. So a text is one document, one list of selections or one reference to a type, whichever of its trees
//! is read. And each node of a document stands for a definition, so the list of a document's definitions has them all. In a
//! document that a text means, the defaults of variables and of input fields are constant values (GraphQL October 2021, section
//! 2.9). The texts that types are written as are read back as those types.
#![tactic(auto)]

pub mod laws;
