//! What concrete trees stand for as values.

ghost use Rattle.std.specs.Prelude.{◌≡◌, ◌++◌, IfOk, OnOk, Option, List, is_some, option_to_list};
ghost use Rattle.std.specs.Option.{option_map};
ghost use Rattle.gql_ast_base.specs.Forest.{plain};
ghost use Rattle.gql_ast_base.specs.bridge.Forest.{forest};
ghost use Rattle.gql_ast_base.specs.Values as spec;

use crate::convert::{Convert, first, push_found};
use crate::literal_value::literal_kind;
use crate::name::Name;
use crate::node::{inside, is_of, location};
use crate::source::Source;
use crate::token::{nth_name, nth_text, token_text};
use crate::value::{Value, ValueKind};
use gql_cst::{SyntaxKind, Tree};
use gql_source::SourceSpan;
use jb_text::{Listed, Memory};

impl Convert for Value {
    ghost meaning = { spec.value_of };

    fn read(source: &Source<'_>, tree: &Tree) -> Result<Option<Value>, Memory> {
        let made = value(source, tree)?;
        Ok(made)
    }
}

impl Convert for ValueKind {
    ghost meaning = { spec.kind_of };

    /// The kind of the value that the tree stands for.
    fn read(source: &Source<'_>, tree: &Tree) -> Result<Option<ValueKind>, Memory> {
        match value(source, tree)? {
            Some(value) => Ok(Some(value.into_kind())),
            None => Ok(None),
        }
    }
}

/// The truth value that a word names.
#[must_use]
pub fn truth(found: &str) -> Option<bool>
    ensures { result ≡ spec.truth found.now }
{
    match found {
        "true" => Some(true),
        "false" => Some(false),
        _ => None,
    }
}

/// The content of a boolean value.
fn boolean(nodes: &[Tree], text: &str) -> Option<ValueKind>
    ensures { result ≡ spec.boolean_content text.now (forest nodes.now) }
{
    let found = nth_text(nodes, text, 0)?;
    let truth = truth(found)?;
    Some(ValueKind::Boolean(truth))
}

/// The content of a value that is a token.
fn token_content(source: &Source<'_>, tree: &Tree) -> Result<Option<ValueKind>, Memory>
    ensures { IfOk result (λ made. made ≡ spec.token_content source.now.text.now (plain tree.now)) }
{
    let Some(token) = token_text(source.text, tree) else {
        return Ok(None);
    };
    let made = literal_kind(source.alloc, token)?;
    Ok(made)
}

/// The content of a value that holds no others.
#[tactic(auto, unfolding(crate::specs::Values::simple_content))]
fn simple_content(source: &Source<'_>, tree: &Tree) -> Result<Option<ValueKind>, Memory>
    ensures { IfOk result (λ made. made ≡ spec.simple_content source.now.text.now source.now.file_id (plain tree.now)) }
{
    let nodes = tree.children().as_slice();
    if is_of(tree, SyntaxKind::Token) {
        let made = token_content(source, tree)?;
        return Ok(made);
    }
    if is_of(tree, SyntaxKind::Variable) {
        let name = nth_name(source, nodes, 0)?;
        return Ok(name.map(ValueKind::Variable));
    }
    if is_of(tree, SyntaxKind::BooleanValue) {
        return Ok(boolean(nodes, source.text));
    }
    if is_of(tree, SyntaxKind::NullValue) {
        return Ok(Some(ValueKind::Null));
    }
    if is_of(tree, SyntaxKind::EnumValue) {
        let name = nth_name(source, nodes, 0)?;
        return Ok(name.map(ValueKind::Enum));
    }
    Ok(None)
}

/// The content of a value, with these values and these pairs right below it.
#[tactic(auto, unfolding(crate::specs::Values::content_step))]
fn content(
    source: &Source<'_>,
    tree: &Tree,
    inner: (Listed<Value>, Listed<(Name, Value)>),
) -> Result<Option<ValueKind>, Memory>
    ensures { IfOk result (λ made. made ≡ spec.content_step source.now.text.now source.now.file_id (plain tree.now) inner.0 inner.1) }
{
    let (items, pairs) = inner;
    if is_of(tree, SyntaxKind::ListValue) {
        return Ok(Some(ValueKind::List(items)));
    }
    if is_of(tree, SyntaxKind::ObjectValue) {
        return Ok(Some(ValueKind::Object(pairs)));
    }
    let made = simple_content(source, tree)?;
    Ok(made)
}

/// Adds the value with this content and from this place at the end of the list, and says whether the tree is one.
///
/// It stands apart from [`add_value`], whose frames stand on each other where values are nested: so a level takes
/// little of the stack.
#[inline(never)]
fn add_content(
    list: &mut Listed<Value>,
    source: &Source<'_>,
    tree: &Tree,
    location: Option<SourceSpan>,
    inner: (Listed<Value>, Listed<(Name, Value)>),
) -> Result<bool, Memory>
    ensures told { IfOk result (λ added. added ≡ is_some (spec.content_step source.now.text.now source.now.file_id (plain tree.now) inner.0 inner.1)) }
    ensures kept { OnOk result (list.new ≡ list.old ++ option_to_list (option_map (λ found. record { kind = found; location = location }) (spec.content_step source.now.text.now source.now.file_id (plain tree.now) inner.0 inner.1))) }
{
    match content(source, tree, inner)? {
        Some(kind) => {
            list.push(Value { kind, location })?;
            Ok(true)
        }
        None => Ok(false),
    }
}

/// Adds the value that the tree stands for, if it stands for one, at the end of the list.
#[cycle(value)]
#[tactic(auto, unfolding(crate::specs::Values::value_step))]
fn add_value(list: &mut Listed<Value>, source: &Source<'_>, tree: &Tree) -> Result<(), Memory>
    ensures { OnOk result (list.new ≡ list.old ++ option_to_list (spec.value_of source.now.text.now source.now.file_id (plain tree.now))) }
{
    if !is_of(tree, SyntaxKind::Value) {
        return Ok(());
    }
    let parts = tree.children().as_slice();
    for node in parts {
        let items = values(source, node.children().as_slice())?;
        let pairs = members(source, node.children().as_slice())?;
        let place = location(source.file_id, tree);
        if add_content(list, source, node, place, (items, pairs))? {
            return Ok(());
        }
    }
    Ok(())
}

/// The values that the trees stand for.
#[cycle(value)]
fn values(source: &Source<'_>, nodes: &[Tree]) -> Result<Listed<Value>, Memory>
    ensures { IfOk result (λ made. made ≡ spec.values source.now.text.now source.now.file_id (forest nodes.now)) }
{
    let mut list = Listed::new(source.alloc);
    for node in nodes {
        add_value(&mut list, source, node)?;
    }
    Ok(list)
}

/// The pair of an object, with these values right below it.
#[tactic(auto, unfolding(crate::specs::Values::member_step))]
fn member(
    source: &Source<'_>,
    tree: &Tree,
    items: Listed<Value>,
) -> Result<Option<(Name, Value)>, Memory>
    ensures { IfOk result (λ made. made ≡ spec.member_step source.now.text.now source.now.file_id (plain tree.now) items) }
{
    if !is_of(tree, SyntaxKind::ObjectField) {
        return Ok(None);
    }
    let name = nth_name(source, tree.children().as_slice(), 0)?;
    Ok(name.zip(items.into_iter().next()))
}

/// Adds the pair of an object with these values right below it, if the tree is one, at the end of the list.
#[inline(never)]
fn add_member(
    list: &mut Listed<(Name, Value)>,
    source: &Source<'_>,
    tree: &Tree,
    items: Listed<Value>,
) -> Result<(), Memory>
    ensures { OnOk result (list.new ≡ list.old ++ option_to_list (spec.member_step source.now.text.now source.now.file_id (plain tree.now) items)) }
{
    push_found(list, member(source, tree, items)?)
}

/// The pairs of objects that the trees stand for.
#[cycle(value)]
#[tactic(auto, unfolding(crate::specs::Values::member_step))]
fn members(source: &Source<'_>, nodes: &[Tree]) -> Result<Listed<(Name, Value)>, Memory>
    ensures { IfOk result (λ made. made ≡ spec.members source.now.text.now source.now.file_id (forest nodes.now)) }
{
    let mut list = Listed::new(source.alloc);
    for node in nodes {
        if is_of(node, SyntaxKind::ObjectField) {
            let items = values(source, node.children().as_slice())?;
            add_member(&mut list, source, node, items)?;
        }
    }
    Ok(list)
}

/// The value that a tree stands for.
fn value(source: &Source<'_>, tree: &Tree) -> Result<Option<Value>, Memory>
    ensures { IfOk result (λ made. made ≡ spec.value_of source.now.text.now source.now.file_id (plain tree.now)) }
{
    let mut list = Listed::new(source.alloc);
    add_value(&mut list, source, tree)?;
    Ok(list.into_iter().next())
}

/// The value that stands when none is given (GraphQL October 2021, section 2.10). `Err` only where memory runs out.
#[tactic(auto, unfolding(crate::specs::Values::default_value))]
pub fn default_value(source: &Source<'_>, nodes: &[Tree]) -> Result<Option<Value>, Memory>
    ensures { IfOk result (λ made. made ≡ spec.default_value source.now.text.now source.now.file_id (forest nodes.now)) }
{
    let value = first(source, inside(nodes, SyntaxKind::DefaultValue))?;
    Ok(value)
}
