//! Why a request gets no response.

ghost use Rattle.std.specs.Prelude.{◌≡◌, IfOk};
ghost use Rattle.gql_response.specs.RequestFault.{request_error, suspected_bug};

use crate::graphql_error::GraphQLError;
use crate::json::{JsonMap, JsonValue};
use gql_source::{SourceMap, SourceSpan};
use jb_text::{ByteString, Memory, Text};
use std::alloc::Global;

/// Why a request gets no response: what is wrong, where in the document, and whether that points to a fault of
/// validation rather than of the request.
#[derive(Debug)]
pub struct RequestError {
    pub message: Text,
    pub location: Option<SourceSpan>,
    pub is_suspected_validation_bug: bool,
}

impl Drop for RequestError {
    fn drop(self) {
        let RequestError {
            message: _,
            location: _,
            is_suspected_validation_bug: _,
        } = self;
    }
}

impl RequestError {
    /// What is wrong, as a sentence.
    #[must_use]
    pub fn message(&self) -> &str
        ensures { result.now ≡ self.now.message }
    {
        self.message.as_str()
    }

    /// Where in the document.
    #[must_use]
    pub fn location(&self) -> Option<SourceSpan>
        ensures { result ≡ self.now.location }
    {
        self.location
    }

    /// The error of a response: the message, the start of the location where that is found in the files, and the
    /// extension `APOLLO_SUSPECTED_VALIDATION_BUG` where it is one. `Err` only when out of memory.
    pub fn to_graphql_error(
        &self,
        alloc: Global,
        sources: &SourceMap,
    ) -> Result<GraphQLError, Memory>
        ensures { IfOk result (λ error. error ≡ request_error self.now sources.now) }
    {
        let mut error = GraphQLError::new(alloc, self.message.as_str(), self.location, sources)?;
        if self.is_suspected_validation_bug {
            error.extensions = suspected_bug(alloc)?;
            return Ok(error);
        }
        Ok(error)
    }
}

/// The extensions of an error that points to a fault of validation. `Err` only when out of memory.
fn suspected_bug(alloc: Global) -> Result<JsonMap, Memory>
    ensures { IfOk result (λ extensions. extensions ≡ suspected_bug) }
{
    let mut extensions = JsonMap::new(alloc);
    let key = ByteString::from_text(alloc, "APOLLO_SUSPECTED_VALIDATION_BUG")?;
    extensions.insert_new(key, JsonValue::Bool(true))?;
    Ok(extensions)
}
