//! Responses as bytes.

ghost use Rattle.std.specs.Prelude.{IfOk};
ghost use Rattle.gql_engine.specs.bridge.Answered.{IsPrint};
ghost use Rattle.gql_exec.specs.Running.{IsPrintedIn};
ghost use Rattle.gql_response.specs.declared.execution_response.ExecutionResponse.{ExecutionResponse as Response};

use bytes::Bytes;
use gql_diag::ExecutionResponse;
use gql_exec::WrittenResponse;
use jb_tree::Memory;
use std::alloc::Global;

/// The bytes of a response, as JSON without white space (GraphQL October 2021, section 7), and the number of its errors.
#[derive(Drop)]
pub struct Written {
    pub bytes: Bytes,
    pub errors: usize,
}

/// A response as its bytes. `Err` only when out of memory.
pub(crate) fn write_response(alloc: Global, written: WrittenResponse) -> Result<Written, Memory>
    ensures { IfOk result (λ made. (response : Response) → IsPrintedIn response written → IsPrint response made) }
{
    let WrittenResponse { errors, data } = written;
    let bytes = ExecutionResponse::bytes_with(alloc, errors.as_slice(), data.as_str())?;
    Ok(Written {
        bytes,
        errors: errors.len(),
    })
}
