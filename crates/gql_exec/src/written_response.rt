//! Responses whose data were written as they were made.

ghost use Rattle.std.specs.Prelude.{◌≡◌, [], List, Option, IfOk};
ghost use Rattle.jb_print.specs.Compact.{compact};
ghost use Rattle.gql_resolvers.specs.Execute.{Member};
ghost use Rattle.gql_exec.specs.bridge.Output.{AreWritten};
ghost use Rattle.gql_exec.specs.bridge.Written.{IsOpenObject};
ghost use Rattle.gql_response.specs.Response.{data_value};

use crate::executed::Executed;
use crate::{OpenObject, Output, TextOutput};
use gql_response::GraphQLError;
use jb_text::{Listed, Memory, Text};
use jb_tree::Value;

/// What an execution gives (GraphQL October 2021, section 7.1), with the data as a text.
#[derive(Drop)]
pub struct WrittenResponse {
    /// The errors in the order in which they came.
    pub errors: Listed<GraphQLError>,
    /// The data as JSON without white space: an object, or `null`.
    pub data: Text,
}

/// The response of an execution whose data were written to this output alone. `Err` only when out of memory.
pub(crate) fn written(
    executed: Executed<OpenObject>,
    mut out: TextOutput,
) -> Result<WrittenResponse, Memory>
    requires { (found : Option (List Member)) × AreWritten IsOpenObject [] out executed.members found }
    ensures errors { IfOk result (λ response. response.errors ≡ executed.errors) }
    ensures data { IfOk result (λ response. (found : Option (List Member)) → AreWritten IsOpenObject [] out executed.members found
        → response.data ≡ compact (data_value found)) }
{
    let Executed { errors, members } = executed;
    match members {
        Some(object) => out.end_object(object)?,
        None => out.value(Value::Null)?,
    }
    Ok(WrittenResponse {
        errors,
        data: out.into_text(),
    })
}
