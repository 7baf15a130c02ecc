//! What users wrote, as opposed to what is built in.

ghost use Rattle.std.specs.Prelude.{◌≡◌};
ghost use Rattle.gql_rules_values.specs.Written.{is_written};

use gql_source::SourceSpan;

/// The number of the file of built-in definitions.
const BUILT_IN: u64 = 1;

/// Whether what has this place is not built in: whether it does not stand in the file of built-in definitions.
#[must_use]
pub fn is_written(location: Option<SourceSpan>) -> bool
    ensures { result ≡ is_written location }
{
    match location {
        Some(span) => span.file_id().number != BUILT_IN,
        None => true,
    }
}
