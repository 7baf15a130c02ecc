//! Reads words by the grammar, and drives an output as it goes.

ghost use Rattle.std.specs.Prelude.{◌≡◌, ℕ, List, ◌∷◌, ◌++◌, [], true, length, reverse, Some, None, IfOk, OnOk, IfNone, IfSome, if◌then◌else◌};
ghost use Rattle.std.specs.List.{list_all};
ghost use Rattle.gql_cst.specs.Forest.{Plain};
ghost use Rattle.gql_cst.specs.declared.frame.Frame.{Frame};
ghost use Rattle.gql_cst.specs.Late.{is_late};
ghost use Rattle.gql_cst.specs.Leaves.{part_of};
ghost use Rattle.gql_cst.specs.bridge.Lies.{Lies};
ghost use Rattle.gql_cst.specs.bridge.Frames.{is_framed, is_loose, Stays, IsSame};
ghost use Rattle.gql_grammar.specs.declared.symbol.Symbol.TheVariants.{Repeated};
ghost use Rattle.gql_grammar.specs.Rule.{kind_of};
ghost use Rattle.gql_grammar.specs.Row as rows;
ghost use Rattle.gql_grammar.specs.bridge.Stands as stands;
ghost use Rattle.gql_cst.specs.bridge.Machine as spec;
ghost use Rattle.gql_cst.specs.bridge.Sound.{is_node};
ghost use Rattle.gql_cst.specs.bridge.Open.{token as token_of, ignored as ignored_of, whole_text};

use crate::begun::Begun;
use crate::count::raised;
use crate::frame::Frame;
use crate::output::Output;
use crate::turn::{Turn, token_turn, way_at};
use crate::{Memory, SyntaxKind};
use gql_grammar::{Rule, Symbol, Word};
use std::alloc::Global;
use std::ops::Range;

/// The symbols that are to come, and the output that is driven.
#[derive(Drop)]
pub(crate) struct Machine<O: Drop> {
    out: O,
    /// The innermost rule that is open.
    top: Frame,
    /// Those around it. The innermost stands last.
    outer: Vec<Frame>,
    /// How many levels of nesting are open.
    level: usize,
    /// How many were open at most.
    deepest: usize,
    ghost framed: { is_framed (top ∷ reverse outer.items) ≡ true },
}

// Around all rules: nothing is to come, and the row of the whole text begins.
const OUTERMOST: Frame = Frame {
    way: &[],
    kind: None,
    begun: Begun { mark: 0, place: 0 },
};

/// The node of a rule ends in an output, unless the rule is a group.
fn end_rule<O: Output>(top: &Frame, out: &mut O) -> Result<(), Memory>
    ensures { OnOk result ((at : ℕ) (frames : List Frame) (waiting : List Plain) (s : spec.State) → is_framed (top.now ∷ frames) ≡ true
        → Lies O.stands (top.now ∷ frames) out.old at waiting s
        → (t : spec.State) × Lies O.stands frames out.new at waiting t × (spec.all_ended t ≡ spec.all_ended s)) }
{
    match top.kind {
        Some(kind) => {
            out.end(kind, top.begun)?;
            Ok(())
        }
        None => Ok(()),
    }
}

/// The rule that may come once more and begins with the next word, and the way to write it.
#[inline(always)]
fn repeated_way(symbol: Symbol, next: Option<Word>) -> Option<(Rule, &'static [Symbol])>
    ensures stays { IfNone result (Stays next symbol) }
    ensures begins { IfSome result (λ found. symbol ≡ Repeated found.0) }
    ensures way { IfSome result (λ found. stands.way_at found.0 next ≡ Some found.1.now) }
{
    let Symbol::Repeated(rule) = symbol else {
        return None;
    };
    let way = way_at(rule, next)?;
    Some((rule, way))
}

/// The innermost of the rules that are open, or the outermost where none is.
fn leave(outer: &mut Vec<Frame>) -> Frame
    ensures { IsSame (reverse outer.old.items) (result ∷ reverse outer.new.items) }
{
    match outer.pop() {
        Some(frame) => frame,
        None => OUTERMOST,
    }
}

/// Leaves the groups that have ended.
fn skip_ended(top: &mut Frame, outer: &mut Vec<Frame>)
    ensures same { IsSame (top.old ∷ reverse outer.old.items) (top.new ∷ reverse outer.new.items) }
    ensures ends { top.new.way.now ≡ [] → top.new.kind ≡ None → outer.new.items ≡ [] }
{
    while top.way.is_empty() && top.kind.is_none() {
        let Some(frame) = outer.pop() else {
            return;
        };
        *top = frame;
    }
}

/// How many levels a node of the kind opens.
fn level_of(kind: SyntaxKind) -> usize
    ensures { result ≡ rows.level kind }
{
    match kind {
        SyntaxKind::SelectionSet
        | SyntaxKind::ObjectValue
        | SyntaxKind::ListValue
        | SyntaxKind::ListType => 1,
        _ => 0,
    }
}

impl<O: Output> Machine<O> {
    ghost use Rattle.gql_cst.specs.bridge.Held.{Becomes, Goes, Holds, IsHeld};

    /// Nothing is to come, and nothing came.
    pub(crate) fn new(alloc: Global, out: O) -> Machine<O>
        ensures { (at : ℕ) (waiting : List Plain) → O.stands out at (whole_text [] ∷ []) waiting
            → Holds O.stands result at waiting (record { stack = []; row = []; rows = []; level = 0; deepest = 0 }) }
    {
        Machine {
            out,
            top: OUTERMOST,
            outer: Vec::new(alloc),
            level: 0,
            deepest: 0,
        }
    }

    /// A node of the kind begins at the place, and the symbols come in it.
    #[inline(never)]
    fn open(&mut self, kind: SyntaxKind, way: &'static [Symbol], place: usize) -> Result<(), Memory>
        requires node { is_node (part_of kind) ≡ true }
        requires loose { list_all is_loose way.now ≡ true }
        ensures { OnOk result (Becomes O.stands self.old self.new place (λ s. spec.pushed way.now (spec.opened kind s))) }
    {
        let level = raised(self.level, level_of(kind))?;
        let mark = self.out.begin(kind, place)?;
        self.outer.push(self.top)?;
        self.top = Frame {
            way,
            kind: Some(kind),
            begun: Begun { mark, place },
        };
        self.level = level;
        self.deepest = self.deepest.max(level);
        Ok(())
    }

    /// The symbols come next.
    #[inline(never)]
    fn push_way(&mut self, way: &'static [Symbol]) -> Result<(), Memory>
        requires { list_all is_loose way.now ≡ true }
        ensures { OnOk result ((at : ℕ) → Becomes O.stands self.old self.new at (spec.pushed way.now)) }
    {
        self.outer.push(self.top)?;
        self.top = Frame {
            way,
            kind: None,
            begun: self.top.begun,
        };
        Ok(())
    }

    /// Goes into a rule, by this way to write it.
    #[inline(always)]
    fn enter_way(&mut self, rule: Rule, way: &'static [Symbol], place: usize) -> Result<(), Memory>
        requires { list_all is_loose way.now ≡ true }
        ensures { OnOk result (Becomes O.stands self.old self.new place (spec.entered (kind_of rule) way.now)) }
    {
        match rule.kind() {
            Some(kind) => self.open(kind, way, place)?,
            None => self.push_way(way)?,
        }
        Ok(())
    }

    /// Goes into a rule that begins with the next word.
    #[inline(always)]
    fn enter(
        &mut self,
        rule: Rule,
        next: Option<Word>,
        place: usize,
        otherwise: Turn,
    ) -> Result<Turn, Memory>
        ensures { IfOk result (λ turn. Goes O.stands self.old self.new place (λ s t. spec.told turn t
            ≡ spec.enter (stands.way_at rule next) (kind_of rule) s (spec.told otherwise s))) }
    {
        let Some(way) = way_at(rule, next) else {
            return Ok(otherwise);
        };
        self.enter_way(rule, way, place)?;
        Ok(Turn::Again)
    }

    /// What the innermost node holds so far becomes one node in it.
    fn wrap(&mut self, kind: SyntaxKind) -> Result<(), Memory>
        requires { is_late kind ≡ true }
        ensures { OnOk result ((at : ℕ) → Becomes O.stands self.old self.new at (spec.wrapped kind)) }
    {
        self.out.wrap(kind, self.top.begun)?;
        Ok(())
    }

    /// One turn, with the next word in sight, or the end of the text. It begins at the place.
    #[inline(always)]
    fn turn(&mut self, next: Option<Word>, place: usize) -> Result<Turn, Memory>
        ensures { IfOk result (λ turn. Goes O.stands self.old self.new place (λ s t. spec.told turn t ≡ spec.turned next s)) }
    {
        skip_ended(&mut self.top, &mut self.outer);
        match self.top.way.split_first() {
            Some((symbol, rest)) => {
                if let Some((rule, way)) = repeated_way(*symbol, next) {
                    self.enter_way(rule, way, place)?;
                    return Ok(Turn::Again);
                }
                self.top.way = rest;
                self.act(*symbol, next, place)
            }
            None => {
                let Some(kind) = self.top.kind else {
                    return Ok(Turn::Finished);
                };
                self.out.end(kind, self.top.begun)?;
                self.top = leave(&mut self.outer);
                self.level = self.level.saturating_sub(level_of(kind));
                Ok(Turn::Again)
            }
        }
    }

    /// What a symbol comes to that was taken off.
    #[inline(always)]
    fn act(&mut self, symbol: Symbol, next: Option<Word>, place: usize) -> Result<Turn, Memory>
        requires loose { is_loose symbol ≡ true }
        requires stays { Stays next symbol }
        ensures { IfOk result (λ turn. Goes O.stands self.old self.new place (λ s t. spec.told turn t ≡ spec.turned_by next symbol s)) }
    {
        match symbol {
            Symbol::Token(terminal) => Ok(token_turn(terminal, next)),
            Symbol::One(rule) => self.enter(rule, next, place, Turn::Refused),
            Symbol::Optional(rule) | Symbol::Eager(rule) => self.enter(
                rule,
                next,
                place,
                Turn::Again,
            ),
            Symbol::Wrap(kind) => {
                self.wrap(kind)?;
                Ok(Turn::Again)
            }
            Symbol::Repeated(_) => Ok(Turn::Again),
            Symbol::Close(_) => unreachable!(),
        }
    }

    /// How many levels of nesting were open at most.
    pub(crate) fn deepest(&self) -> usize
        ensures { result ≡ self.now.deepest }
    {
        self.deepest
    }

    /// Turns until the next word is taken or refused, or nothing is left.
    pub(crate) fn turn_until_judged(
        &mut self,
        next: Option<Word>,
        place: usize,
    ) -> Result<Turn, Memory>
        requires { IsHeld O.stands self.old place }
        ensures { IfOk result (λ turn. Goes O.stands self.old self.new place (λ s t. spec.Settles next s (spec.told turn t))) }
    {
        loop {
            match self.turn(next, place)? {
                Turn::Again => {}
                Turn::Taken => return Ok(Turn::Taken),
                Turn::Refused => return Ok(Turn::Refused),
                Turn::Finished => return Ok(Turn::Finished),
            }
        }
    }

    /// Goes into the rule of the whole text, whose node is not told apart from the row around it.
    pub(crate) fn begin(&mut self, rule: Rule, next: Option<Word>) -> Result<bool, Memory>
        ensures { IfOk result (λ begun. (at : ℕ) → Goes O.stands self.old self.new at (λ s t. (if begun then spec.again t else spec.refused t)
            ≡ spec.enter (stands.way_at rule next) None s (spec.refused s))) }
    {
        match way_at(rule, next) {
            Some(way) => {
                self.push_way(way)?;
                Ok(true)
            }
            None => Ok(false),
        }
    }

    /// A token comes that the grammar ignores.
    pub(crate) fn ignored(&mut self, range: Range<usize>) -> Result<(), Memory>
        ensures { OnOk result ((at : ℕ) (waiting : List Plain) (s : spec.State) → Holds O.stands self.old at waiting s
            → Holds O.stands self.new at (waiting ++ (ignored_of range ∷ [])) s) }
    {
        self.out.ignored(range)?;
        Ok(())
    }

    /// A word that was taken comes in the innermost node.
    pub(crate) fn token(&mut self, word: Word, range: Range<usize>) -> Result<(), Memory>
        ensures { OnOk result ((at : ℕ) (waiting : List Plain) (s : spec.State) → Holds O.stands self.old range.start waiting s
            → Holds O.stands self.new at [] (spec.grown (waiting ++ (token_of range ∷ [])) s)) }
    {
        self.out.token(word, range)?;
        Ok(())
    }

    /// The output, once all nodes that are open have ended.
    pub(crate) fn close(self) -> Result<O, Memory>
        ensures { IfOk result (λ out. (at : ℕ) (waiting : List Plain) (s : spec.State) → Holds O.stands self at waiting s
            → O.stands out at (whole_text (spec.all_ended s) ∷ []) waiting) }
    {
        let Machine {
            mut out,
            mut top,
            mut outer,
            level: _,
            deepest: _,
        } = self;
        loop {
            end_rule(&top, &mut out)?;
            match outer.pop() {
                Some(frame) => top = frame,
                None => break,
            }
        }
        Ok(out)
    }
}
