//! A resolver that shows what it is told.

use gql_resolvers::{ObjectValue, ResolveError, ResolveInfo, ResolvedValue};
use jb_tree::Value;
use std::alloc::Global;

/// An object each of whose fields is the object of the field's arguments.
#[derive(Clone, Copy)]
pub(crate) struct Echo;

impl ObjectValue for Echo {
    ghost use Rattle.std.specs.Prelude.{codes};
    ghost use Rattle.gql_resolvers.specs.Resolved.{gives_leaf};
    ghost use Rattle.jb_tree.specs.declared.value.Value.TheVariants as json;

    ghost Seen = { Unit {0} };

    ghost seen = { λ object. tt };

    ghost type_of = { λ object. codes "Echo" };

    ghost resolves = { λ _ _ _ _ arguments. gives_leaf (json.Object arguments) };

    fn type_name(&self) -> &str {
        "Echo"
    }

    fn resolve_field(
        &self,
        alloc: Global,
        info: &ResolveInfo<'_>,
    ) -> Result<ResolvedValue<Self>, ResolveError> {
        let arguments = info.arguments().copy(alloc)?;
        Ok(ResolvedValue::leaf(Value::Object(arguments)))
    }
}
