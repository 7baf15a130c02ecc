//! The path of a place, as a response tells it.

ghost use Rattle.std.specs.Prelude.{◌≡◌, IfOk};
ghost use Rattle.gql_resolvers.specs.Spot.{trail};
ghost use Rattle.gql_resolvers.specs.Trail.{path_of};
ghost use Rattle.gql_exec.specs.bridge.Trails.{segment_of, spot_of, trail_of};

use gql_ast_base::Copying;
use gql_exec::{Path, Place, Step};
use gql_response::ResponseDataPathSegment;
use jb_text::{Listed, Memory};
use std::alloc::Global;

/// The steps from the root to a place. `Err` only when out of memory.
pub(crate) fn path_to(
    alloc: Global,
    place: &Place<'_, '_>,
) -> Result<Listed<ResponseDataPathSegment>, Memory>
    ensures { IfOk result (λ path. path ≡ path_of (trail (spot_of place.now))) }
{
    let mut path = steps_of(alloc, place.around)?;
    path.push(segment(alloc, &place.step)?)?;
    Ok(path)
}

fn steps_of(alloc: Global, path: &Path<'_>) -> Result<Listed<ResponseDataPathSegment>, Memory>
    ensures { IfOk result (λ steps. steps ≡ path_of (trail_of path.now)) }
{
    match path {
        Path::Root => Ok(Listed::new(alloc)),
        Path::Below(around, step, _) => {
            let mut steps = steps_of(alloc, around)?;
            steps.push(segment(alloc, step)?)?;
            Ok(steps)
        }
    }
}

fn segment(alloc: Global, step: &Step<'_>) -> Result<ResponseDataPathSegment, Memory>
    ensures { IfOk result (λ segment. segment ≡ segment_of step.now) }
{
    match step {
        Step::Key(name) => Ok(ResponseDataPathSegment::Field(name.copy(alloc)?)),
        Step::Item(index) => Ok(ResponseDataPathSegment::ListIndex(*index)),
    }
}
