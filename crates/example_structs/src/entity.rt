//! The resolver: what a query can reach, lent by the library.

ghost use Rattle.std.specs.Prelude.{◌≡◌, IfOk, Some, map};
ghost use Rattle.std.specs.List.{find};
ghost use Rattle.std.specs.Option.{option_copied, option_map};
ghost use Rattle.std.specs.Str.{bytes_eq};
ghost use Rattle.example_structs.specs.Fields as spec;
ghost use Rattle.example_structs.specs.Thing.{thing, of_author, of_book};
ghost use Rattle.example_structs.specs.declared.library.Author.{Author as Writer};
ghost use Rattle.gql_engine.specs.Resolving.{gives_objects, meaning_by};

use crate::library::{Author, Book, Kind, Library};
use gql_engine::{
    Listed, Map, Memory, Number, ObjectValue, ResolveError, ResolveInfo, ResolvedValue, Value,
};
use std::alloc::Global;

/// An object that a query can reach. Nothing of the library is copied to answer for it.
#[derive(Clone, Copy)]
pub enum Entity<'l> {
    Library(&'l Library),
    Author(&'l Author),
    /// A book, and its author.
    Book { book: &'l Book, author: &'l Author },
}

impl<'l> ObjectValue for Entity<'l> {
    ghost use Rattle.example_structs.specs.Fields.{resolves};
    ghost use Rattle.example_structs.specs.Thing.{Thing, thing, type_of};

    ghost Seen = { Thing };

    ghost seen = { thing };

    ghost type_of = { type_of };

    ghost resolves = { λ _ _ object name arguments. resolves object name arguments };

    fn type_name(&self) -> &str {
        match self {
            Entity::Library(_) => "Query",
            Entity::Author(_) => "Author",
            Entity::Book { book, .. } => book.kind.type_name(),
        }
    }

    fn resolve_field(
        &self,
        alloc: Global,
        info: &ResolveInfo<'_>,
    ) -> Result<ResolvedValue<Self>, ResolveError> {
        let name = info.field_name();
        let field = match *self {
            Entity::Library(library) => library_field(alloc, library, name, info.arguments())?,
            Entity::Author(author) => author_field(alloc, author, name, info.arguments())?,
            Entity::Book { book, author } => book_field(alloc, book, author, name)?,
        };
        match field {
            Some(value) => Ok(value),
            None => Err(ResolveError::Field(self.unknown_field_error(alloc, info)?)),
        }
    }
}

/// A field of the library, which is the root.
fn library_field<'l>(
    alloc: Global,
    library: &'l Library,
    name: &str,
    arguments: &Map,
) -> Result<Option<ResolvedValue<Entity<'l>>>, Memory>
    ensures { IfOk result (λ made. option_map (meaning_by thing) made ≡ spec.library_field library.now name.now arguments.now) }
{
    match name {
        "authors" => list(alloc, authors(alloc, library)?),
        "author" => Ok(Some(author_or_null(author_of_name(library, arguments)))),
        _ => Ok(None),
    }
}

/// An author, or null where there is none.
fn author_or_null<'l>(author: Option<&'l Author>) -> ResolvedValue<Entity<'l>>
    ensures { meaning_by thing result ≡ spec.author_or_null (option_copied author.entry) }
{
    ResolvedValue::nullable_object(author.map(Entity::Author))
}

/// The authors of a library, as objects.
fn authors<'l>(alloc: Global, library: &'l Library) -> Result<Listed<Entity<'l>>, Memory>
    ensures { IfOk result (λ found. map thing found ≡ map of_author library.now.authors) }
{
    let mut found = Listed::new(alloc);
    for author in library.authors.as_slice() {
        found.push(Entity::Author(author))?;
    }
    Ok(found)
}

/// The author whom the argument `name` names.
fn author_of_name<'l>(library: &'l Library, arguments: &Map) -> Option<&'l Author>
    ensures { option_copied result ≡ spec.author_of_name library.now arguments.now }
{
    author_named(library, arguments.get("name")?.as_str()?)
}

/// The first author of this name.
fn author_named<'l>(library: &'l Library, name: &str) -> Option<&'l Author>
    ensures { option_copied result ≡ find (λ (author : Writer). bytes_eq name.now author.name) library.now.authors }
{
    library
        .authors
        .as_slice()
        .iter()
        .find(|author| name == author.name.as_str())
}

/// A field of an author.
fn author_field<'l>(
    alloc: Global,
    author: &'l Author,
    name: &str,
    arguments: &Map,
) -> Result<Option<ResolvedValue<Entity<'l>>>, Memory>
    ensures { IfOk result (λ made. option_map (meaning_by thing) made ≡ spec.author_field author.now name.now arguments.now) }
{
    match name {
        "name" => Ok(Some(text(alloc, author.name.as_str())?)),
        "books" => list(alloc, books(alloc, author)?),
        "book" => Ok(Some(book_or_null(author, book_at(author, arguments)))),
        _ => Ok(None),
    }
}

/// A book of an author, or null where there is none.
fn book_or_null<'l>(author: &'l Author, book: Option<&'l Book>) -> ResolvedValue<Entity<'l>>
    ensures { meaning_by thing result ≡ spec.book_or_null author.now (option_copied book.entry) }
{
    ResolvedValue::nullable_object(book.map(|book| Entity::Book { book, author }))
}

/// The book of an author at the place that the argument `index` says, from zero.
fn book_at<'l>(author: &'l Author, arguments: &Map) -> Option<&'l Book>
    ensures { option_copied result ≡ spec.book_at author.now arguments.now }
{
    let index = arguments.get("index")?.as_u64()?;
    author.books.get(index as usize)
}

/// The books of an author, as objects.
fn books<'l>(alloc: Global, author: &'l Author) -> Result<Listed<Entity<'l>>, Memory>
    ensures { IfOk result (λ found. map thing found ≡ map (of_book author.now) author.now.books) }
{
    let mut found = Listed::new(alloc);
    for book in author.books.as_slice() {
        found.push(Entity::Book { book, author })?;
    }
    Ok(found)
}

/// A field of a book.
fn book_field<'l>(
    alloc: Global,
    book: &'l Book,
    author: &'l Author,
    name: &str,
) -> Result<Option<ResolvedValue<Entity<'l>>>, Memory>
    ensures { IfOk result (λ made. option_map (meaning_by thing) made ≡ spec.book_field author.now book.now name.now) }
{
    match name {
        "title" => Ok(Some(text(alloc, book.title.as_str())?)),
        "year" => Ok(Some(year(book))),
        "author" => Ok(Some(ResolvedValue::Object(Entity::Author(author)))),
        "subject" => subject_field(alloc, book.kind),
        _ => Ok(None),
    }
}

/// What a treatise is about, as the name of an enum's value.
fn subject_field<'l>(alloc: Global, kind: Kind) -> Result<Option<ResolvedValue<Entity<'l>>>, Memory>
    ensures { IfOk result (λ made. option_map (meaning_by thing) made ≡ spec.subject_field kind) }
{
    match kind {
        Kind::Novel => Ok(None),
        Kind::Treatise(subject) => Ok(Some(text(alloc, subject.name())?)),
    }
}

/// The year of a book, or null where it is not known.
fn year<'l>(book: &Book) -> ResolvedValue<Entity<'l>>
    ensures { meaning_by thing result ≡ spec.year book.now }
{
    match book.year {
        Some(year) => ResolvedValue::Leaf(Value::Number(Number::from_u64(year))),
        None => ResolvedValue::null(),
    }
}

/// A text as a leaf.
fn text<'l>(alloc: Global, text: &str) -> Result<ResolvedValue<Entity<'l>>, Memory>
    ensures { IfOk result (λ made. meaning_by thing made ≡ spec.text_leaf text.now) }
{
    Ok(ResolvedValue::Leaf(Value::from_text(alloc, text)?))
}

/// A list of these objects.
fn list<'l>(
    alloc: Global,
    objects: Listed<Entity<'l>>,
) -> Result<Option<ResolvedValue<Entity<'l>>>, Memory>
    ensures { IfOk result (λ made. option_map (meaning_by thing) made ≡ Some (gives_objects (map thing objects.entry))) }
{
    Ok(Some(ResolvedValue::objects(alloc, objects)?))
}
