//! The rule on fields of one response key in GraphQL documents (GraphQL October 2021, section 5.3.2).
//!
//! [`list_conflicting_fields`] lists the pairs of fields that cannot be merged. The fields of a document are numbered first. Where
//! families of fields, or else classes of fields that are alike, tell that none breaks the rule, that is all. Else pairs of fields are
//! explored, from those of each set of selections down to those of the sets below a pair; last, those that break the rule are
//! told. The three ways to break it have a file of their own here and in `specs/`, named after the rule.
#![tactic(auto)]

mod classes;
mod comparison;
mod conflicting_field_argument;
mod conflicting_field_name;
mod conflicting_field_type;
mod description;
mod families;
mod family_growth;
mod family_sets;
mod field_selection_merging;
mod numbering;
mod object_families;
mod places;
mod response_keys;
mod same_value;

pub use field_selection_merging::list_conflicting_fields;
pub use jb_text::Memory;
