//! What is told of trees: a line for each of them and for each of their parts.

use gql_ast::Name;
use gql_source::SourceSpan;
use jb_text::{Memory, Text};
use std::alloc::Global;

/// Lines on the trees of one text, each with the name of a field and what the field holds.
///
/// The place of a tree is told as the piece of the text that stands there. The lines of a tree's own fields stand two
/// spaces further in. Whether there was memory for all lines is told when they are taken.
#[derive(Drop)]
pub(crate) struct Description<'t> {
    source: &'t str,
    lines: String,
    depth: usize,
    added: Result<(), Memory>,
}

impl<'t> Description<'t> {
    /// No lines yet, on the trees of this text.
    pub(crate) fn new(alloc: Global, source: &'t str) -> Description<'t> {
        Description {
            source,
            lines: String::new(alloc),
            depth: 0,
            added: Ok(()),
        }
    }

    /// The lines, if there was memory for all of them.
    pub(crate) fn into_lines(self) -> Result<String, Memory> {
        let Description {
            source: _,
            lines,
            depth: _,
            added,
        } = self;
        added?;
        Ok(lines)
    }

    /// Adds to the line that is begun.
    pub(crate) fn add(&mut self, piece: &str) {
        self.added = self.lines.push_str(piece).and(self.added);
    }

    /// Begins a line.
    pub(crate) fn begin(&mut self, field: &str) {
        for _ in 0..self.depth {
            self.add("  ");
        }
        self.add(field);
        self.add(" ");
    }

    /// A line.
    pub(crate) fn line(&mut self, field: &str, held: &str) {
        self.begin(field);
        self.add(held);
        self.add("\n");
    }

    /// The line of a tree, whose fields follow.
    pub(crate) fn open(&mut self, field: &str, location: Option<SourceSpan>) {
        self.begin(field);
        self.enter(location);
    }

    /// Ends the line of a tree, whose fields follow.
    pub(crate) fn enter(&mut self, location: Option<SourceSpan>) {
        self.add(self.piece(location));
        self.add("\n");
        self.depth = self.depth.wrapping_add(1);
    }

    /// No field of the tree follows any more.
    pub(crate) fn close(&mut self) {
        self.depth = self.depth.wrapping_sub(1);
    }

    /// The line of a name.
    pub(crate) fn name(&mut self, field: &str, name: &Name) {
        self.begin(field);
        self.add_name(name);
        self.add("\n");
    }

    /// Adds a name, and where it was read from if that is not where it stands.
    pub(crate) fn add_name(&mut self, name: &Name) {
        self.add(name.as_str());
        let piece = self.piece(name.location());
        if piece != name.as_str() {
            self.add(" from ");
            self.add(piece);
        }
    }

    /// The line of a name, where there is one.
    pub(crate) fn name_opt(&mut self, field: &str, name: &Option<Name>) {
        if let Some(name) = name {
            self.name(field, name);
        }
    }

    /// The line of a description, where there is one.
    pub(crate) fn description(&mut self, text: &Option<Text>) {
        if let Some(text) = text {
            self.line("description", text.as_str());
        }
    }

    /// The piece of the text that stands at a place.
    fn piece(&self, location: Option<SourceSpan>) -> &'t str {
        match location {
            Some(span) => self
                .source
                .get(span.offset()..span.end_offset())
                .unwrap_or("no place of the text"),
            None => "no place",
        }
    }
}
