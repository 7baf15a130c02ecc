//! The way to a part of a value.

ghost use Rattle.std.specs.Prelude.{◌≡◌, ◌∷◌, [], true, IfOk};
ghost use Rattle.gql_ast_base.specs.Names.{is_name};
ghost use Rattle.gql_client_schema.specs.Reading.{Answers, Reading, item as item_step, member as member_step, under};
ghost use Rattle.gql_client_schema.specs.bridge.Reading.{IsPath};

use gql_ast_base::Name;
use gql_response::ResponseDataPathSegment;
use jb_text::{Listed, Memory, Refused};
use std::alloc::{AllocError, Global};
use std::marker::Model;

/// The steps from a value to a part of it, which a contract sees from the first to the last.
pub struct Path {
    // from the first to the last
    steps: Vec<ResponseDataPathSegment>,
}

impl Drop for Path {
    fn drop(self) {
        let Path { steps: _ } = self;
    }
}

impl Model for Path {
    ghost use Rattle.std.specs.Prelude.{List};
    ghost use Rattle.gql_response.specs.declared.path.ResponseDataPathSegment.{ResponseDataPathSegment as Step};

    ghost Value = { List Step };

    ghost view = { λ path. path.steps.items };
}

/// Why a value is not read: the way to the first part that breaks a rule, or want of memory.
pub(crate) type Unread = Refused<Path>;

impl Path {
    /// The value itself.
    fn whole(alloc: Global) -> Path
        ensures { result ≡ [] }
    {
        Path {
            steps: Vec::new(alloc),
        }
    }

    /// The same way from one step further out. `Err` only when out of memory.
    fn from_further_out(self, step: ResponseDataPathSegment) -> Result<Path, Memory>
        ensures { IfOk result (λ path. path ≡ step ∷ self) }
    {
        let Path { mut steps } = self;
        steps.insert(0, step)?;
        Ok(Path { steps })
    }

    /// The steps as a list. `Err` only when out of memory.
    pub(crate) fn into_steps(self, alloc: Global) -> Result<Listed<ResponseDataPathSegment>, Memory>
        ensures { IfOk result (λ steps. steps ≡ self) }
    {
        let mut list = Listed::new(alloc);
        let Path { steps } = self;
        for step in steps {
            list.push(step)?;
        }
        Ok(list)
    }
}

/// That the value itself breaks a rule.
pub(crate) fn misfit(alloc: Global) -> Unread
    ensures { IsPath [] result }
{
    Refused::Fault(Path::whole(alloc))
}

/// What was read of a member's value, as read of the object.
pub(crate) fn in_member<T: Drop>(
    alloc: Global,
    name: &str,
    read: Result<T, Unread>,
) -> Result<T, Unread>
    requires { is_name name.now ≡ true }
    ensures { (reading : Reading T) → Answers reading read → Answers (under (member_step name.now) reading) result }
{
    match read {
        Ok(found) => Ok(found),
        Err(Refused::Fault(path)) => Err(behind_member(alloc, name, path)),
        Err(Refused::Memory) => Err(Refused::Memory),
    }
}

/// What was read of an item, as read of the list.
pub(crate) fn in_item<T: Drop>(index: usize, read: Result<T, Unread>) -> Result<T, Unread>
    ensures { (reading : Reading T) → Answers reading read → Answers (under (item_step index) reading) result }
{
    match read {
        Ok(found) => Ok(found),
        Err(Refused::Fault(path)) => Err(behind_item(index, path)),
        Err(Refused::Memory) => Err(Refused::Memory),
    }
}

fn behind_member(alloc: Global, name: &str, path: Path) -> Unread
    requires { is_name name.now ≡ true }
    ensures { IsPath (member_step name.now ∷ path) result }
{
    match Name::new(alloc, name) {
        Ok(name) => behind_step(ResponseDataPathSegment::Field(name), path),
        Err(Refused::Fault(_)) => unreachable!(),
        Err(Refused::Memory) => Refused::Memory,
    }
}

fn behind_item(index: usize, path: Path) -> Unread
    ensures { IsPath (item_step index ∷ path) result }
{
    behind_step(ResponseDataPathSegment::ListIndex(index), path)
}

fn behind_step(step: ResponseDataPathSegment, path: Path) -> Unread
    ensures { IsPath (step ∷ path) result }
{
    match path.from_further_out(step) {
        Ok(path) => Refused::Fault(path),
        Err(AllocError) => Refused::Memory,
    }
}
