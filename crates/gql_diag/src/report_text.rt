//! The lines of a report, appended to a text.

ghost use Rattle.std.specs.Prelude.{◌≡◌, [], ◌++◌, Some, unwrap_or, OnOk, string_bytes};
ghost use Rattle.std.specs.Fmt.{decimal};
ghost use Rattle.std.specs.List.{flat_map};
ghost use Rattle.gql_diag.specs.Report.{label_line, line_of, placed_line};

use gql_source::{LineColumn, SourceFile, SourceMap, SourceSpan};
use itoa::Buffer;
use jb_text::{Memory, Text};

/// The text, or the empty one where there is none.
pub(crate) fn text_or_empty(text: &Option<Text>) -> &str
    ensures { result.now ≡ unwrap_or text.now [] }
{
    match text {
        Some(text) => text.as_str(),
        None => "",
    }
}

/// Appends the lines of labels, of each whose place is found.
pub(crate) fn write_labels(
    out: &mut String,
    sources: &SourceMap,
    labels: &[(SourceSpan, Text)],
) -> Result<(), Memory>
    ensures { OnOk result (string_bytes out.new ≡ string_bytes out.old ++ flat_map (label_line sources.now) labels.now) }
{
    for label in labels {
        write_label(out, sources, label.0, label.1.as_str())?;
    }
    Ok(())
}

/// Appends the line of a label, where the start of its place is found.
fn write_label(
    out: &mut String,
    sources: &SourceMap,
    location: SourceSpan,
    text: &str,
) -> Result<(), Memory>
    ensures { OnOk result (string_bytes out.new ≡ string_bytes out.old ++ label_line sources.now (location, text.now)) }
{
    match sources.get(location.file_id()) {
        Some(file) => match file.get_line_column(location.offset()) {
            Some(place) => write_placed(out, file, place, text),
            None => Ok(()),
        },
        None => Ok(()),
    }
}

fn write_placed(
    out: &mut String,
    file: &SourceFile,
    place: LineColumn,
    text: &str,
) -> Result<(), Memory>
    ensures { OnOk result (string_bytes out.new ≡ string_bytes out.old ++ placed_line file.now (Some place) text.now) }
{
    out.push_str(file.path())?;
    out.push_str(":")?;
    write_number(out, place.line)?;
    out.push_str(":")?;
    write_number(out, place.column)?;
    out.push_str(": ")?;
    out.push_str(text)?;
    out.push_str("\n")
}

/// Appends a line with this title, where its text is there.
pub(crate) fn write_line(out: &mut String, title: &str, text: &Option<Text>) -> Result<(), Memory>
    ensures { OnOk result (string_bytes out.new ≡ string_bytes out.old ++ line_of title.now text.now) }
{
    match text {
        Some(text) => {
            out.push_str(title)?;
            out.push_str(text.as_str())?;
            out.push_str("\n")
        }
        None => Ok(()),
    }
}

fn write_number(out: &mut String, number: usize) -> Result<(), Memory>
    ensures { OnOk result (string_bytes out.new ≡ string_bytes out.old ++ decimal number) }
{
    let mut buffer = Buffer::new();
    out.push_str(buffer.format(number))
}
