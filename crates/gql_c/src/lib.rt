//! The engine for programs in other languages: what C calls.
//!
//! C owns a [`Handle`], a struct of one pointer, which holds one value of the library: a schema, a query, data, answers, or a reply. A
//! call that makes a value puts it into a handle, and one that uses a value leaves it there. Each tells by a status whether it did what it
//! says. `bindings/c/gql.h` declares the calls for C.
//!
//! The contract of each call speaks of the bytes that it is given and of what the handles hold before and after. What
//! [`gql_execute`] puts into the reply is what a service of the schema's text gives for the query's text: the same promise as that
//! of `gql_engine`. Where the caller's own code resolves fields, a request goes by steps: [`gql_step`] tells all that is asked of the
//! caller's objects beyond the answers so far, which [`gql_answers_add`] collects, or the response once nothing is asked: the promise
//! of `gql_rounds`. A call tells [`REFUSED`] exactly where its texts or the request have a fault, with what is wrong as the reply,
//! [`UNREAD`] exactly where bytes are no text, and [`WRONG_HANDLE`] exactly where a handle does not hold what the call takes. Want of
//! memory is [`NO_MEMORY`], and may come at any time.
#![tactic(auto)]

mod answers_add;
mod check;
mod data_new;
mod execute;
mod handle;
mod held;
pub mod laws;
mod loose;
mod operation_cost;
mod operation_kind;
mod outcome;
mod query;
mod query_new;
mod reply;
mod request;
mod schema_new;
pub mod sending_laws;
mod share;
mod status;
mod step;
mod store;
mod told;
mod version;

pub use answers_add::gql_answers_add;
pub use check::gql_check;
pub use data_new::gql_data_new;
pub use execute::gql_execute;
pub use handle::Handle;
pub use held::Held;
pub use operation_cost::{Limit, gql_operation_cost};
pub use operation_kind::gql_operation_kind;
pub use query::Query;
pub use query_new::gql_query_new;
pub use reply::{gql_reply_copy, gql_reply_length};
pub use schema_new::gql_schema_new;
pub use share::gql_share;
pub use status::{ANSWERED, ASKS, NO_MEMORY, REFUSED, TOO_COSTLY, UNREAD, WRONG_HANDLE};
pub use step::gql_step;
pub use store::gql_free;
pub use version::{VERSION, gql_version};
