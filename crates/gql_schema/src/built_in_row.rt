//! What a row of the built-in definitions has: the places of its parts in their text.

/// A part of the text: its first byte, and the first byte behind it.
#[derive(Clone, Copy)]
pub struct Place(pub usize, pub usize);

/// Rows of another table: the first, and the first behind them.
#[derive(Clone, Copy)]
pub struct Run(pub usize, pub usize);

/// How a type is referred to.
#[derive(Clone, Copy)]
pub enum TypeForm {
    /// `T`
    Plain,
    /// `T!`
    Required,
    /// `[T!]`
    List,
    /// `[T!]!`
    RequiredList,
}

/// A reference to a type: its form, and its name.
#[derive(Clone, Copy)]
pub struct TypeRow(pub TypeForm, pub Place);

/// What a value is.
#[derive(Clone, Copy)]
pub enum ValueForm {
    /// `false`
    False,
    /// A string on one line without escapes.
    Quoted,
}

/// A value.
#[derive(Clone, Copy)]
pub struct ValueRow(pub ValueForm, pub Place);

/// An argument of a field or a directive.
#[derive(Clone, Copy)]
pub struct ArgumentRow {
    pub name: Place,
    pub ty: TypeRow,
    pub default_value: Option<ValueRow>,
    pub place: Place,
}

/// A field of an object type.
#[derive(Clone, Copy)]
pub struct FieldRow {
    pub name: Place,
    pub arguments: Run,
    pub ty: TypeRow,
    pub place: Place,
}

/// An object type.
#[derive(Clone, Copy)]
pub struct ObjectRow {
    pub name: Place,
    pub fields: Run,
    pub place: Place,
}

/// An enum type. Each of its values is its name alone.
#[derive(Clone, Copy)]
pub struct EnumRow {
    pub name: Place,
    pub values: Run,
    pub place: Place,
}

/// A scalar type.
#[derive(Clone, Copy)]
pub struct ScalarRow {
    pub name: Place,
    pub place: Place,
}

/// A type.
#[derive(Clone, Copy)]
pub enum DefinitionRow {
    Object(ObjectRow),
    Enum(EnumRow),
    Scalar(ScalarRow),
}

/// A directive.
#[derive(Clone, Copy)]
pub struct DirectiveRow {
    pub name: Place,
    pub arguments: Run,
    pub locations: Run,
    pub place: Place,
}
