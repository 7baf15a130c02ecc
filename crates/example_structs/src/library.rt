//! The data: a library as a program holds it.

ghost use Rattle.std.specs.Prelude.{◌≡◌};
ghost use Rattle.example_structs.specs.Thing.{subject_name, type_of_kind};

use gql_engine::{Listed, Memory, Text};
use std::alloc::Global;

/// A library, with the authors whose books it has.
#[derive(Drop)]
pub struct Library {
    pub authors: Listed<Author>,
}

/// An author, with the books that the library has.
#[derive(Drop)]
pub struct Author {
    pub name: Text,
    pub books: Listed<Book>,
}

/// A book, with the year of its first edition where that is known.
#[derive(Drop)]
pub struct Book {
    pub title: Text,
    pub year: Option<u64>,
    pub kind: Kind,
}

/// What a book is. Each kind is a type of the schema, which implements its interface of books.
#[derive(Clone, Copy)]
pub enum Kind {
    Novel,
    Treatise(Subject),
}

impl Kind {
    /// The name of its type.
    pub(crate) fn type_name(self) -> &'static str
        ensures { result.now ≡ type_of_kind self }
    {
        match self {
            Kind::Novel => "Novel",
            Kind::Treatise(_) => "Treatise",
        }
    }
}

/// What a treatise is about: an enum of the schema.
#[derive(Clone, Copy)]
pub enum Subject {
    Geometry,
    Optics,
}

impl Subject {
    /// Its name in the schema.
    pub(crate) fn name(self) -> &'static str
        ensures { result.now ≡ subject_name self }
    {
        match self {
            Subject::Geometry => "GEOMETRY",
            Subject::Optics => "OPTICS",
        }
    }
}

impl Library {
    /// A library with four books. `Err` only when out of memory.
    pub(crate) fn sample(alloc: Global) -> Result<Library, Memory> {
        let mut authors = Listed::new(alloc);
        authors.push(jane_austen(alloc)?)?;
        authors.push(euclid(alloc)?)?;
        Ok(Library { authors })
    }
}

fn jane_austen(alloc: Global) -> Result<Author, Memory> {
    let mut books = Listed::new(alloc);
    books.push(new_book(alloc, "Emma", Some(1815), Kind::Novel)?)?;
    books.push(new_book(alloc, "Persuasion", Some(1817), Kind::Novel)?)?;
    let name = Text::from_str(alloc, "Jane Austen")?;
    Ok(Author { name, books })
}

fn euclid(alloc: Global) -> Result<Author, Memory> {
    let mut books = Listed::new(alloc);
    let geometry = Kind::Treatise(Subject::Geometry);
    books.push(new_book(alloc, "Elements", None, geometry)?)?;
    let optics = Kind::Treatise(Subject::Optics);
    books.push(new_book(alloc, "Optics", None, optics)?)?;
    let name = Text::from_str(alloc, "Euclid")?;
    Ok(Author { name, books })
}

fn new_book(alloc: Global, title: &str, year: Option<u64>, kind: Kind) -> Result<Book, Memory> {
    let title = Text::from_str(alloc, title)?;
    Ok(Book { title, year, kind })
}
