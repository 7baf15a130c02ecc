//! What holds of all responses: what one prints reads back, and which of them are equal.

ghost use Rattle.std.specs.Prelude.{◌≡◌, ◌≤◌, ◌↔◌, Ok, IsTrue};
ghost use Rattle.jb_io.specs.Proper.{IsProper, depth};
ghost use Rattle.jb_tree.specs.Tree.{tree};
ghost use Rattle.jb_print.specs.Compact.{compact};
ghost use Rattle.gql_response.specs.Held.{IsHeld, unplaced};
ghost use Rattle.gql_response.specs.Reading.{response_read};
ghost use Rattle.gql_response.specs.Response.{response_value};
ghost use Rattle.gql_response.specs.Same.{IsSameError, IsSameResponse};
ghost use Rattle.gql_response.specs.declared.execution_response.ExecutionResponse.{ExecutionResponse as Response};

use gql_response::{ExecutionResponse, GraphQLError};
use jb_io::laws;

/// A response that prints nested at most 127 is read back from its print, the places of names aside: for each response
/// whose names are names and whose counts are of 64 bits, and whose value is one that JSON texts can hold.
pub fn responses_read_back()
    ensures { (response : Response) → IsHeld response → IsProper (tree (response_value response)) → depth (tree (response_value response)) ≤ 127
        → response_read (compact (response_value response)) ≡ Ok (unplaced response) }
{
    laws::compact_reads_back();
}

/// Errors are equal just where they are the same, the order of pairs and the places of names aside.
pub fn error_equality_is_sameness(error: &GraphQLError, other: &GraphQLError) -> bool
    ensures { IsTrue result ↔ IsSameError error.now other.now }
{
    error == other
}

/// Responses are equal just where they are the same, the order of pairs and the places of names aside.
pub fn response_equality_is_sameness(
    response: &ExecutionResponse,
    other: &ExecutionResponse,
) -> bool
    ensures { IsTrue result ↔ IsSameResponse response.now other.now }
{
    response == other
}
