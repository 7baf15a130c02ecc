//! What a given response is (GraphQL October 2021, sections 6.4.4 and 7.1): whether its errors are true and explain its data, whoever gave
//! it; and how a walk along its data finds that.
//!
//! The definitions stand on the theory of places (crate `gql_resolvers`). An error is true where some fault of a reached place is
//! shown like it, names in paths by their texts alone. Data are judged place by place: the first bad value is one that is neither as it
//! was resolved nor a null that a listed error brings there, depth first in order.
//!
//! A walk along the data and along the paths of the listed errors at once, which asks each resolver on the way once, finds which errors
//! are true and where the first bad value is. It is a function of that theory. The functions of [`verdict_laws`], [`claim_laws`],
//! [`claims`], [`places`] and [`walks`] do nothing when they run: their contracts say that it decides just that; that over a request what
//! it finds of a response is the judgement on it; that selection sets may be walked by the groups that a plan collects; and that what is
//! found is told place by place, list by list and object by object, as a checker of responses goes.
#![tactic(auto)]

pub mod claim_laws;
pub mod claims;
pub mod places;
pub mod verdict_laws;
pub mod walks;
