//! The self-test: a request of its own, and how large the response to it is.

ghost use Rattle.std.specs.Prelude.{◌≡◌, length, IfOk};
ghost use Rattle.gql_engine.specs.Output.{Line, Measures, summary as summary_of};
ghost use Rattle.gql_engine.specs.bridge.Output.{IsMeasured};

use crate::output::line;
use crate::reply::respond_to_request;
use crate::request_form::{RequestForm, decode};
use crate::request_laws;
use crate::response_bytes::Written;
use crate::self_test_request::self_test_text;
use bytes::Bytes;
use gql_collect::Steps;
use jb_read::from_bytes_whole;
use jb_tree::Memory;
use std::alloc::{AllocError, Global};
use std::sync::ledger::Ledger;

/// The line that tells how many bytes the response to the self-test's request has, and how many errors. That request is answered; if
/// it were not, no line would be right, and the self-test would end as when out of memory.
pub(crate) fn self_test<L: Ledger>(
    alloc: Global,
    items: u32,
    steps: &mut Steps<L>,
) -> Result<Bytes, Memory>
    ensures { IfOk result (Line (Measures steps.old steps.new items)) }
{
    request_laws::self_tests_ask_this();
    request_laws::self_tests_mean_this();
    let text = self_test_text(alloc, items)?;
    let Ok(value) = from_bytes_whole(alloc, &text) else {
        return Err(AllocError);
    };
    let Ok(request) = decode(&value, RequestForm::Plain) else {
        return Err(AllocError);
    };
    let Ok(written) = respond_to_request(alloc, &request, steps) else {
        return Err(AllocError);
    };
    measured(alloc, items, &written)
}

/// The line of a self-test whose response this is.
fn measured(alloc: Global, items: u32, written: &Written) -> Result<Bytes, Memory>
    ensures { IfOk result (IsMeasured items written.now) }
{
    line(alloc, summary(alloc, items, written)?)
}

/// What the self-test writes, without its line feed.
fn summary(alloc: Global, items: u32, written: &Written) -> Result<Bytes, Memory>
    ensures { IfOk result (λ text. text ≡ summary_of items (length written.now.bytes) written.now.errors) }
{
    let length = written.bytes.len();
    let errors = written.errors;
    let text = format!(in alloc; "selftest {items}: {length} bytes, {errors} errors")?;
    Bytes::from_string(text)
}
