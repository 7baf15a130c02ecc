//! Answers of resolvers, whose objects stand as objects of another kind.

ghost use Rattle.std.specs.Prelude.{◌≡◌, IfOk};
ghost use Rattle.gql_resolvers.specs.Resolved.{Meaning, gives_list};
ghost use Rattle.gql_resolvers.specs.Meaning.{Answers, item_by, meaning_by, meanings_by};
ghost use Rattle.gql_exec.specs.Mapped.{all_mapped, mapped};

use gql_resolvers::{FieldError, ResolveError, ResolvedValue};
use jb_text::{Listed, Memory};
use std::alloc::Global;

/// How objects of one kind stand as objects of another.
pub(crate) trait Standing<O, P> {
    ghost Before: { Type 0 };

    ghost After: { Type 0 };

    ghost sees: { O → Before };

    ghost shows: { P → After };

    ghost stands: { Self → Before → After };

    /// The object as one of the other kind.
    fn stand(&self, object: O) -> P
        ensures { shows result ≡ stands self.now (sees object) };
}

/// An answer whose objects stand as others.
#[inline(always)]
pub(crate) fn answer<O: Drop, P: Drop, K: Standing<O, P>>(
    alloc: Global,
    kind: &K,
    answer: Result<ResolvedValue<O>, ResolveError>,
) -> Result<ResolvedValue<P>, ResolveError>
    ensures { (meaning : Meaning K.Before) → Answers K.sees answer meaning → Answers K.shows result (mapped (K.stands kind.now) meaning) }
{
    match answer {
        Ok(resolved) => Ok(value(alloc, kind, resolved)?),
        Err(error) => Err(error),
    }
}

/// A resolved value whose objects stand as others. A list is made anew, and its items are moved. `Err` only when out of
/// memory.
#[cycle(stand)]
#[inline(always)]
pub(crate) fn value<O: Drop, P: Drop, K: Standing<O, P>>(
    alloc: Global,
    kind: &K,
    resolved: ResolvedValue<O>,
) -> Result<ResolvedValue<P>, Memory>
    ensures { IfOk result (λ made. meaning_by K.shows made ≡ mapped (K.stands kind.now) (meaning_by K.sees resolved)) }
{
    match resolved {
        ResolvedValue::Leaf(json) => Ok(ResolvedValue::Leaf(json)),
        ResolvedValue::Object(object) => Ok(ResolvedValue::Object(kind.stand(object))),
        ResolvedValue::List(items) => list(alloc, kind, items),
        ResolvedValue::SkipForPartialExecution => Ok(ResolvedValue::SkipForPartialExecution),
    }
}

/// The same of a list.
#[cycle(stand)]
fn list<O: Drop, P: Drop, K: Standing<O, P>>(
    alloc: Global,
    kind: &K,
    items: Listed<Result<ResolvedValue<O>, FieldError>>,
) -> Result<ResolvedValue<P>, Memory>
    ensures { IfOk result (λ made. meaning_by K.shows made ≡ gives_list (all_mapped (K.stands kind.now) (meanings_by K.sees items))) }
{
    let mut made = Listed::new(alloc);
    for each in items {
        made.push(item(alloc, kind, each)?)?;
    }
    Ok(ResolvedValue::List(made))
}

/// The same of an item of a list, which may have failed.
#[cycle(stand)]
fn item<O: Drop, P: Drop, K: Standing<O, P>>(
    alloc: Global,
    kind: &K,
    item: Result<ResolvedValue<O>, FieldError>,
) -> Result<Result<ResolvedValue<P>, FieldError>, Memory>
    ensures { IfOk result (λ made. item_by K.shows made ≡ mapped (K.stands kind.now) (item_by K.sees item)) }
{
    match item {
        Ok(resolved) => Ok(Ok(value(alloc, kind, resolved)?)),
        Err(error) => Ok(Err(error)),
    }
}
