//! Listed errors on the way to their places.

ghost use Rattle.std.specs.Prelude.{◌≡◌, IfOk};
ghost use Rattle.gql_checker_laws.specs.Claims.{claims_from};
ghost use Rattle.gql_response_check.specs.bridge.Views.{claims_of};

use gql_response::{GraphQLError, ResponseDataPathSegment};
use jb_text::{Listed, Memory};
use std::alloc::Global;

/// A listed error on the way to its place: its number in the list, and the steps of its path that are left.
#[derive(Clone, Copy)]
pub(crate) struct Claim<'r> {
    pub number: usize,
    pub error: &'r GraphQLError,
    pub rest: &'r [ResponseDataPathSegment],
}

/// Each listed error at the root. `Err` only when out of memory.
pub(crate) fn claims<'r>(
    alloc: Global,
    errors: &'r [GraphQLError],
) -> Result<Listed<Claim<'r>>, Memory>
    ensures { IfOk result (λ claims. claims_of claims ≡ claims_from 0 errors.now) }
{
    let mut claims = Listed::with_capacity(alloc, errors.len())?;
    for number in 0..errors.len() {
        let error = &errors[number];
        claims.push(Claim {
            number,
            error,
            rest: error.path.as_slice(),
        })?;
    }
    Ok(claims)
}
