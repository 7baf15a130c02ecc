//! What concrete trees stand for as selections.

ghost use Rattle.std.specs.Prelude.{◌≡◌, ◌++◌, IfOk, OnOk, is_some, option_to_list};
ghost use Rattle.gql_ast_base.specs.Forest.{plain};
ghost use Rattle.gql_ast_base.specs.bridge.Forest.{forest};
ghost use Rattle.gql_ast_base.specs.Parts as parts;
ghost use Rattle.gql_ast.specs.Selections as spec;

use crate::selection::{Field, FragmentSpread, InlineFragment, Selection};
use gql_ast_base::{
    Convert, Name, Source, SyntaxKind, Tree, all_three, arguments, both, child, directives, inside,
    is_of, location, named_type_in, nth_name,
};
use jb_text::{Listed, Memory};

impl Convert for Selection {
    ghost meaning = { spec.selection_of };

    fn read(source: &Source<'_>, tree: &Tree) -> Result<Option<Selection>, Memory> {
        let made = selection(source, tree)?;
        Ok(made)
    }
}

impl Convert for Field {
    ghost meaning = { spec.field_of };

    fn read(source: &Source<'_>, tree: &Tree) -> Result<Option<Field>, Memory> {
        let selections = selected(source, tree.children().as_slice())?;
        let made = field(source, tree, selections)?;
        Ok(made)
    }
}

impl Convert for InlineFragment {
    ghost meaning = { spec.inline_fragment_of };

    fn read(source: &Source<'_>, tree: &Tree) -> Result<Option<InlineFragment>, Memory> {
        let selections = selected(source, tree.children().as_slice())?;
        let made = inline_fragment(source, tree, selections)?;
        Ok(made)
    }
}

impl Convert for FragmentSpread {
    ghost meaning = { spec.spread_of };

    #[tactic(auto, unfolding(crate::specs::Selections::spread_of))]
    fn read(source: &Source<'_>, tree: &Tree) -> Result<Option<FragmentSpread>, Memory> {
        if !is_of(tree, SyntaxKind::FragmentSpread) {
            return Ok(None);
        }
        let nodes = tree.children().as_slice();
        let names = inside(nodes, SyntaxKind::FragmentName);
        let Some(fragment_name) = nth_name(source, names, 0)? else {
            return Ok(None);
        };
        Ok(Some(FragmentSpread {
            fragment_name,
            directives: directives(source, nodes)?,
            location: location(source.file_id, tree),
        }))
    }
}

/// The type that a fragment is on.
#[tactic(auto, unfolding(crate::specs::Selections::type_condition))]
pub(crate) fn type_condition(source: &Source<'_>, nodes: &[Tree]) -> Result<Option<Name>, Memory>
    ensures { IfOk result (λ made. made ≡ spec.type_condition source.now.text.now source.now.file_id (forest nodes.now)) }
{
    let nodes = inside(nodes, SyntaxKind::TypeCondition);
    let name = named_type_in(source, nodes)?;
    Ok(name)
}

/// The alias of a field.
fn alias(source: &Source<'_>, nodes: &[Tree]) -> Result<Option<Name>, Memory>
    ensures { IfOk result (λ made. made ≡ spec.alias source.now.text.now source.now.file_id (forest nodes.now)) }
{
    let nodes = inside(nodes, SyntaxKind::Alias);
    let name = nth_name(source, nodes, 0)?;
    Ok(name)
}

/// The field with these selections.
#[tactic(auto, unfolding(crate::specs::Selections::field_step))]
fn field(
    source: &Source<'_>,
    tree: &Tree,
    selections: Listed<Selection>,
) -> Result<Option<Field>, Memory>
    ensures { IfOk result (λ made. made ≡ spec.field_step source.now.text.now source.now.file_id (plain tree.now) selections) }
{
    if !is_of(tree, SyntaxKind::Field) {
        return Ok(None);
    }
    let nodes = tree.children().as_slice();
    let Some(name) = nth_name(source, nodes, 0)? else {
        return Ok(None);
    };
    let (alias, arguments, directives) = all_three(
        alias(source, nodes),
        arguments(source, nodes),
        directives(source, nodes),
    )?;
    Ok(Some(Field {
        alias,
        name,
        arguments,
        directives,
        selection_set: selections,
        location: location(source.file_id, tree),
    }))
}

/// The fragment in its place with these selections.
#[tactic(auto, unfolding(crate::specs::Selections::inline_step))]
fn inline_fragment(
    source: &Source<'_>,
    tree: &Tree,
    selections: Listed<Selection>,
) -> Result<Option<InlineFragment>, Memory>
    ensures { IfOk result (λ made. made ≡ spec.inline_step source.now.text.now source.now.file_id (plain tree.now) selections) }
{
    if !is_of(tree, SyntaxKind::InlineFragment) {
        return Ok(None);
    }
    let nodes = tree.children().as_slice();
    if child(nodes, SyntaxKind::SelectionSet).is_none() {
        return Ok(None);
    }
    let (type_condition, directives) = both(
        type_condition(source, nodes),
        directives(source, nodes),
    )?;
    Ok(Some(InlineFragment {
        type_condition,
        directives,
        selection_set: selections,
        location: location(source.file_id, tree),
    }))
}

/// One way to select, with these selections in it: a field, a fragment by its name, or a fragment in its place.
#[tactic(auto, unfolding(crate::specs::Selections::choice_step))]
fn choice(
    source: &Source<'_>,
    tree: &Tree,
    selections: Listed<Selection>,
) -> Result<Option<Selection>, Memory>
    ensures { IfOk result (λ made. made ≡ spec.choice_step source.now.text.now source.now.file_id (plain tree.now) selections) }
{
    if is_of(tree, SyntaxKind::Field) {
        let made = field(source, tree, selections)?;
        return Ok(made.map(Selection::Field));
    }
    if is_of(tree, SyntaxKind::FragmentSpread) {
        let made = FragmentSpread::read(source, tree)?;
        return Ok(made.map(Selection::FragmentSpread));
    }
    let made = inline_fragment(source, tree, selections)?;
    Ok(made.map(Selection::InlineFragment))
}

/// Adds one way to select at the end of the list, and says whether the tree is one.
///
/// It stands apart from [`add_selection`], whose frames stand on each other where selections are nested: so a level
/// takes little of the stack.
#[inline(never)]
fn add_choice(
    list: &mut Listed<Selection>,
    source: &Source<'_>,
    tree: &Tree,
    selections: Listed<Selection>,
) -> Result<bool, Memory>
    ensures told { IfOk result (λ added. added ≡ is_some (spec.choice_step source.now.text.now source.now.file_id (plain tree.now) selections)) }
    ensures kept { OnOk result (list.new ≡ list.old ++ option_to_list (spec.choice_step source.now.text.now source.now.file_id (plain tree.now) selections)) }
{
    match choice(source, tree, selections)? {
        Some(found) => {
            list.push(found)?;
            Ok(true)
        }
        None => Ok(false),
    }
}

/// Adds the selection that the tree stands for, if it stands for one, at the end of the list.
#[cycle(selection)]
#[tactic(auto, unfolding(crate::specs::Selections::selection_step))]
fn add_selection(
    list: &mut Listed<Selection>,
    source: &Source<'_>,
    tree: &Tree,
) -> Result<(), Memory>
    ensures { OnOk result (list.new ≡ list.old ++ option_to_list (spec.selection_of source.now.text.now source.now.file_id (plain tree.now))) }
{
    if !is_of(tree, SyntaxKind::Selection) {
        return Ok(());
    }
    let parts = tree.children().as_slice();
    for node in parts {
        let inner = selected(source, node.children().as_slice())?;
        if add_choice(list, source, node, inner)? {
            return Ok(());
        }
    }
    Ok(())
}

/// The selections that the trees are.
#[cycle(selection)]
fn selections(source: &Source<'_>, nodes: &[Tree]) -> Result<Listed<Selection>, Memory>
    ensures { IfOk result (λ made. made ≡ spec.selections source.now.text.now source.now.file_id (forest nodes.now)) }
{
    let mut list = Listed::new(source.alloc);
    for node in nodes {
        add_selection(&mut list, source, node)?;
    }
    Ok(list)
}

/// The selections in the first selection set among the trees.
#[cycle(selection)]
fn selected(source: &Source<'_>, nodes: &[Tree]) -> Result<Listed<Selection>, Memory>
    ensures { IfOk result (λ made. made ≡ spec.selected source.now.text.now source.now.file_id (forest nodes.now)) }
{
    let made = selections(source, inside(nodes, SyntaxKind::SelectionSet))?;
    Ok(made)
}

/// The selections of a selection set, which the trees are (GraphQL October 2021, section 2.4).
pub(crate) fn selection_set(
    source: &Source<'_>,
    nodes: &[Tree],
) -> Result<Listed<Selection>, Memory>
    ensures { IfOk result (λ made. made ≡ parts.gather (spec.selection_of source.now.text.now source.now.file_id) (forest nodes.now)) }
{
    let made = selections(source, nodes)?;
    Ok(made)
}

/// The selection that a tree stands for.
fn selection(source: &Source<'_>, tree: &Tree) -> Result<Option<Selection>, Memory>
    ensures { IfOk result (λ made. made ≡ spec.selection_of source.now.text.now source.now.file_id (plain tree.now)) }
{
    let mut list = Listed::new(source.alloc);
    add_selection(&mut list, source, tree)?;
    Ok(list.into_iter().next())
}
