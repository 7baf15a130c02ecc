//! The conversion of concrete trees.

ghost use Rattle.std.specs.Prelude.{◌≡◌, ◌++◌, IfOk, OnOk, Option, List, ℕ, option_to_list};
ghost use Rattle.gql_cst.specs.Forest.{Plain, plain};
ghost use Rattle.gql_cst.specs.bridge.Forest.{forest};
ghost use Rattle.gql_source.specs.declared.file_id.FileId.{FileId as File};
ghost use Rattle.gql_ast_base.specs.Parts as parts;

use crate::source::Source;
use gql_cst::Tree;
use gql_source::FileId;
use jb_text::{Listed, Memory};
use std::alloc::Global;

/// What can be made from a concrete tree.
pub trait Convert: Sized + Drop {
    /// What a concrete tree of a text stands for, if it stands for one of these.
    ghost meaning: { List ℕ → File → Plain → Option Self };

    /// What the concrete tree stands for, or `None`. `Err` only where memory runs out.
    fn read(source: &Source<'_>, tree: &Tree) -> Result<Option<Self>, Memory>
        ensures { IfOk result (λ made. made ≡ meaning source.now.text.now source.now.file_id (plain tree.now)) };

    /// What the concrete tree of the text stands for, or `None`. Names are copied out of the text. `Err` only where
    /// memory runs out.
    fn convert(
        alloc: Global,
        tree: &Tree,
        text: &str,
        file_id: FileId,
    ) -> Result<Option<Self>, Memory>
        ensures { IfOk result (λ made. made ≡ meaning text.now file_id (plain tree.now)) }
    {
        Self::read(&Source::new(alloc, text, file_id), tree)
    }
}

/// Adds what is found, if anything is, at the end of the list. `Err` only where memory runs out.
pub(crate) fn push_found<T: Drop>(list: &mut Listed<T>, found: Option<T>) -> Result<(), Memory>
    ensures { OnOk result (list.new ≡ list.old ++ option_to_list found) }
{
    match found {
        Some(found) => list.push(found),
        None => Ok(()),
    }
}

/// What the trees stand for, one after the other, without those that stand for nothing. `Err` only where memory runs
/// out.
pub fn gather<T: Convert>(source: &Source<'_>, nodes: &[Tree]) -> Result<Listed<T>, Memory>
    ensures { IfOk result (λ made. made ≡ parts.gather (T.meaning source.now.text.now source.now.file_id) (forest nodes.now)) }
{
    let mut list = Listed::new(source.alloc);
    for node in nodes {
        push_found(&mut list, T::read(source, node)?)?;
    }
    Ok(list)
}

/// What the first of the trees that stands for something stands for. `Err` only where memory runs out.
pub fn first<T: Convert>(source: &Source<'_>, nodes: &[Tree]) -> Result<Option<T>, Memory>
    ensures { IfOk result (λ made. made ≡ parts.first (T.meaning source.now.text.now source.now.file_id) (forest nodes.now)) }
{
    for node in nodes {
        if let Some(found) = T::read(source, node)? {
            return Ok(Some(found));
        }
    }
    Ok(None)
}
