//! Diagnostics of GraphQL schemas and documents: lists of them, and what is said of each on the command line and in a
//! response; why requests are refused; and guards of recursions.
//!
//! A [`DiagnosticList`] is sorted by place, then by the tables of rules. A [`Diagnostic`] is an item together with its
//! files, and can be written as a [`CliReport`] or as the [`GraphQLError`] of a response. A report has the message, the places that
//! it is about, a help and a note, each in a line of its own. Rules and responses are those of the crates below, under this
//! crate's name.
//!
//! A [`DepthCounter`] counts levels and a [`RecursionStack`] keeps names, each with a limit. A step gives a guard, which undoes
//! the step when it is dropped. So a recursion that passes its guard down can't forget to step back.
//!
//! A request that is refused has a JSON text too: an object with `errors` alone, each written as an error of a response (GraphQL
//! October 2021, section 7.1.2). [`refusal_of_diagnostics`] has an error for each diagnostic, [`refusal_of_request`] the one of a
//! request that is refused, and [`refusal_of_message`] one with a message alone. The text is exactly the compact JSON of the value
//! that `specs/` says.
#![tactic(auto)]

mod depth;
mod diagnostic;
mod diagnostic_list;
mod diagnostics;
mod error_text;
mod guard_laws;
pub mod laws;
mod order;
mod recursion;
mod refusal_text;
mod report;
mod report_text;
mod response_laws;
mod taken;
mod to_cli_report;
mod with_errors;

pub use depth::{DepthCounter, DepthGuard, RecursionLimitError};
pub use diagnostic::Diagnostic;
pub use diagnostic_list::DiagnosticList;
pub use diagnostics::Diagnostics;
pub use gql_diag_messages::{Details, DiagnosticData, Rule, RuleFault};
pub use gql_response::{
    ExecutionResponse, GraphQLError, JsonMap, JsonValue, RequestError, ResponseDataPathSegment,
    ResponseFault,
};
pub use gql_schema_types::Valid;
pub use jb_text::Memory;
pub use recursion::{RecursionGuard, RecursionStack};
pub use refusal_text::{refusal_of_diagnostics, refusal_of_message, refusal_of_request};
pub use report::CliReport;
pub use taken::{add_items, take_faults};
pub use to_cli_report::ToCliReport;
pub use with_errors::WithErrors;
