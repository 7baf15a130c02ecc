//! Files: their numbers, and one of them alone.

ghost use Rattle.std.specs.Prelude.{◌≡◌, ◌+◌, ◌<◌, ◌^◌, IfOk, Some};
ghost use Rattle.std.specs.Map.{lookup};
ghost use Rattle.gql_source.specs.File.{is_file};
ghost use Rattle.gql_parser.specs.Parsers.{given, its_file};

use gql_source::{FileId, FileIds, SourceFile, SourceMap};
use jb_text::Memory;
use std::alloc::Global;

/// Takes the next number.
pub(crate) fn next_file(ids: &mut FileIds) -> FileId
    requires { ids.old < 2 ^ 63 }
    ensures given { result ≡ record { number = ids.old } }
    ensures after { ids.new ≡ ids.old + 1 }
{
    match ids.next() {
        Some(file_id) => file_id,
        None => unreachable!(),
    }
}

/// One file alone.
pub(crate) fn only_file(
    alloc: Global,
    file_id: FileId,
    path: &str,
    text: &str,
) -> Result<SourceMap, Memory>
    ensures sources { IfOk result (λ sources. sources ≡ its_file (given file_id path.now text.now)) }
    ensures found { IfOk result (λ sources. lookup (is_file file_id) sources ≡ Some (record { path = path.now; source_text = text.now })) }
{
    let mut sources = SourceMap::new(alloc);
    sources.insert(file_id, SourceFile::new(alloc, path, text)?)?;
    Ok(sources)
}
