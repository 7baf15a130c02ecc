//! Whether something is deprecated, and why.

ghost use Rattle.std.specs.Prelude.{◌≡◌};
ghost use Rattle.gql_client_schema.specs.Parts as spec;
ghost use Rattle.gql_client_schema.specs.Reading.{Answers};

use crate::path::Unread;
use crate::reading::{both, required, spared};
use gql_sdl::Deprecation;
use jb_text::ByteString;
use jb_tree::Map;
use std::alloc::Global;

/// The deprecation of a field or an enum value (GraphQL October 2021, section 4.2.3).
pub(crate) fn deprecation_in(alloc: Global, members: &Map) -> Result<Option<Deprecation>, Unread>
    ensures { Answers (spec.deprecation_in members.now) result }
{
    let is_deprecated = required(alloc, "isDeprecated", members);
    match both(is_deprecated, reason_in(alloc, members)) {
        Ok(parts) => Ok(deprecation_by(parts)),
        Err(unread) => Err(unread),
    }
}

/// The deprecation of an input value, where an absent `isDeprecated` counts as false.
pub(crate) fn deprecation_if_there(
    alloc: Global,
    members: &Map,
) -> Result<Option<Deprecation>, Unread>
    ensures { Answers (spec.deprecation_if_there members.now) result }
{
    let is_deprecated = spared(alloc, "isDeprecated", false, members);
    match both(is_deprecated, reason_in(alloc, members)) {
        Ok(parts) => Ok(deprecation_by(parts)),
        Err(unread) => Err(unread),
    }
}

fn reason_in(alloc: Global, members: &Map) -> Result<Option<ByteString>, Unread>
    ensures { Answers (spec.reason_in members.now) result }
{
    spared(alloc, "deprecationReason", None, members)
}

fn deprecation_by(parts: (bool, Option<ByteString>)) -> Option<Deprecation>
    ensures { result ≡ spec.deprecation_by parts }
{
    let (is_deprecated, reason) = parts;
    if is_deprecated {
        Some(Deprecation { reason })
    } else {
        None
    }
}
