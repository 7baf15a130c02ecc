//! What the words of a program ask to do with a request.

use crate::output::Output;
use crate::request_form::{Request, RequestForm};
use gql_collect::Steps;
use jb_tree::Memory;
use std::alloc::Global;
use std::sync::ledger::Ledger;

/// What is made of each request that is read.
pub trait RequestCommand {
    ghost use Rattle.std.specs.Prelude.{◌≡◌, List, ℕ, IfOk};
    ghost use Rattle.gql_engine.specs.Request.{Asked, HasForm, asked_in};
    ghost use Rattle.gql_engine.specs.declared.request_form.RequestForm.{RequestForm as FormOf};
    ghost use Rattle.gql_engine.specs.Serving.{IsDoneOutput, IsOutput, IsRefusedOutput};

    // Which members its requests must have.
    ghost form_of: { Self → FormOf };

    // Between a request, the looks at selections before and after, and the text that was asked for, with its line feed.
    ghost answers: { Self → Asked → ℕ → ℕ → List ℕ → Type 0 };

    // Between a request and the text that says why there is none, with its line feed.
    ghost refuses: { Self → Asked → List ℕ → Type 0 };

    // The requests that are answered unless memory fails.
    ghost must_answer: { Self → Asked → Type 0 };

    // The requests that are refused unless memory fails.
    ghost must_refuse: { Self → Asked → Type 0 };

    /// Which members its requests must have.
    fn request_form(&self) -> RequestForm
        ensures { result ≡ form_of self.now };

    /// What is written for a request of the form. `steps` may count looks at selections.
    ///
    /// # Errors
    ///
    /// Only when out of memory.
    fn reply<L: Ledger>(
        &self,
        alloc: Global,
        request: &Request<'_>,
        steps: &mut Steps<L>,
    ) -> Result<Output, Memory>
        requires { HasForm (form_of self.now) (asked_in request.now) }
        ensures is { IfOk result (IsOutput (answers self.now (asked_in request.now) steps.old steps.new) (refuses self.now (asked_in request.now))) }
        ensures done { must_answer self.now (asked_in request.now) → IfOk result IsDoneOutput }
        ensures caused { must_refuse self.now (asked_in request.now) → IfOk result IsRefusedOutput };
}
