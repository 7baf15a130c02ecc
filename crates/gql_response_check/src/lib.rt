//! The verdict on a response that anyone gave (GraphQL October 2021, sections 6.4.4 and 7.1): whether its errors are true and explain
//! its data.
//!
//! [`check_response`] reads the bytes of a response and walks along its data and along the paths of its errors at once, beside an
//! execution: it goes where the data or an error goes, asks each resolver on the way once, and compares what it gives with what the
//! response has there. What it finds is what the theory of crate `gql_checker_laws` says of such a walk.
#![tactic(auto)]

mod check;
mod check_place;
mod claim;
mod error_at_place;
mod findings;
mod path_of_place;
mod reported;
mod shares;
mod verdict;
mod walk;

pub use check::check_response;
pub use jb_text::Memory;
pub use verdict::Verdict;
