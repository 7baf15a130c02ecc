//! Requests in rounds, for resolvers in the caller's language (GraphQL October 2021, section 6).
//!
//! A caller keeps its objects, gives each a number, and answers what it is asked. One [`step`] of a request takes the table of all its
//! [`Answers`] so far, and gives a [`Round`]: all [`Asks`] at once for what can be reached with them, so that a caller may resolve
//! them together; or the response, once nothing is asked. There are no more rounds than selection sets are nested.
//!
//! Both sides are JSON: [`asks_bytes`] prints what is asked, and [`read_answers`] reads what is answered.
//!
//! The functions of [`laws`] do nothing when they run: their contracts say what rounds come to, and that the response of a step is
//! explained, with no premise.
#![tactic(auto)]

mod answers;
mod answers_json;
mod ask;
mod asking;
mod asks_json;
pub mod laws;
mod ready;
mod round;
mod steps;
mod told;
mod told_value;
mod walk;

pub use answers::Answers;
pub use answers_json::{AnswersFault, read_answers};
pub use ask::{Ask, Asks, answer_key};
pub use asking::asks;
pub use asks_json::asks_bytes;
pub use gql_collect::Steps;
pub use jb_text::Memory;
pub use round::Round;
pub use steps::step;
pub use told::Told;
