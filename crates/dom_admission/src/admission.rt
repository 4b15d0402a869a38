//! The refusals that come before those of a command's own, and the nodes that a line names.
ghost use Rattle.std.specs.Prelude.{◌≡◌, ◌&&◌, ◌||◌, ◌∷◌, [], true, false, is_some, IfOk, OnOk};
ghost use Rattle.std.specs.Option.{ForSome, option_map_or};
ghost use Rattle.dom_model.specs.CommandNames.{is_foreign};
ghost use Rattle.dom_model.specs.DocumentMachine.{is_busy};
ghost use Rattle.dom_model.specs.World.{part_of};
ghost use Rattle.dom_reader.specs.Views.{word_view};
ghost use Rattle.dom_mutation.specs.Doc.{HoldsNode};
ghost use Rattle.dom_admission.specs.Handled.{let_pass, passing};
ghost use Rattle.dom_admission.specs.Refusals.{early_refusal, four_tests, has_foreign, is_others, node_named, accepts, IsKeyOf, IsLookedUp, is_kind_at};
ghost use Rattle.dom_admission.specs.Refusals.{is_there_as, is_counted, is_fit, are_there, are_fitting};

use crate::state::State;
use dom_base::{Fault, Kind, Owner, Refusal};
use dom_reader::NodeWord;
use node_arena::Key;

/// What a line names: a node with what is asked of its kind, or a range, an iterator, a walker or an observer by its number.
#[derive(Clone, Copy)]
pub enum Operand {
    Any(NodeWord),
    Element(NodeWord),
    Text(NodeWord),
    Document(NodeWord),
    /// A Text or a Comment.
    Data(NodeWord),
    /// An element, a Text or a Comment.
    Child(NodeWord),
    /// Any node but a Text or a Comment.
    Parent(NodeWord),
    /// An element or a Text.
    Slottable(NodeWord),
    /// An element named `slot`.
    Slot(NodeWord),
    Range(u32),
    Iterator(u32),
    Walker(u32),
    Observer(u32),
}

impl Operand {
    /// The node that is named, if it is a node.
    fn node(self) -> Option<NodeWord>
        ensures { result ≡ node_named self }
    {
        match self {
            Operand::Any(node)
            | Operand::Element(node)
            | Operand::Text(node)
            | Operand::Document(node)
            | Operand::Data(node)
            | Operand::Child(node)
            | Operand::Parent(node)
            | Operand::Slottable(node)
            | Operand::Slot(node) => Some(node),
            Operand::Range(_) | Operand::Iterator(_) | Operand::Walker(_) | Operand::Observer(_) =>
                None,
        }
    }

    /// Whether a node of this kind, an element of this name if it is one, is what is asked for.
    fn accepts(self, kind: Kind, name: &str) -> bool
        ensures { result ≡ accepts self kind name.now }
    {
        match self {
            Operand::Any(_)
            | Operand::Range(_)
            | Operand::Iterator(_)
            | Operand::Walker(_)
            | Operand::Observer(_) => true,
            Operand::Element(_) => matches!(kind, Kind::Element),
            Operand::Text(_) => matches!(kind, Kind::Text),
            Operand::Document(_) => matches!(kind, Kind::Document),
            Operand::Data(_) => matches!(kind, Kind::Text | Kind::Comment),
            Operand::Child(_) => matches!(kind, Kind::Element | Kind::Text | Kind::Comment),
            Operand::Parent(_) => !matches!(kind, Kind::Text | Kind::Comment),
            Operand::Slottable(_) => matches!(kind, Kind::Element | Kind::Text),
            Operand::Slot(_) => matches!(kind, Kind::Element) && name == "slot",
        }
    }
}

impl State {
    /// Lets a line of an owner pass that names these, or says why it is refused before the command's own tests. It is in line, so
    /// that each command makes the tests alone that its names need.
    #[inline(always)]
    pub fn admit(&self, owner: Owner, named: &[Operand]) -> Result<(), Fault>
        ensures { result ≡ let_pass (early_refusal self.now.world owner named.now) }
    {
        if self.is_busy(owner) {
            return Err(Fault::Refused(Refusal::Busy));
        }
        if has_foreign(named) {
            return Err(Fault::Refused(Refusal::Foreign));
        }
        if !self.is_there(owner) || !self.are_there(owner, named) {
            return Err(Fault::Refused(Refusal::Unknown));
        }
        if !self.are_fitting(owner, named) {
            return Err(Fault::Refused(Refusal::WrongKind));
        }
        Ok(())
    }

    /// Lets a line of an owner pass that names one node, as `admit` does, and gives its key.
    #[inline(always)]
    pub fn admit_one(&self, owner: Owner, named: Operand) -> Result<Key, Fault>
        requires { is_some (node_named named) ≡ true }
        ensures passed { passing result ≡ let_pass (early_refusal self.now.world owner (named ∷ [])) }
        ensures key { IfOk result (IsKeyOf self.now owner named) }
    {
        let key = self.key_named(owner, named);
        let fits = self.fits(named, key);
        self.pass(owner, is_others(named), key.is_some(), fits)?;
        Ok(key.unwrap())
    }

    /// Lets a line of an owner pass that names two nodes, as `admit` does, and gives their keys.
    #[inline(always)]
    pub fn admit_two(
        &self,
        owner: Owner,
        first: Operand,
        second: Operand,
    ) -> Result<(Key, Key), Fault>
        requires first_node { is_some (node_named first) ≡ true }
        requires second_node { is_some (node_named second) ≡ true }
        ensures passed { passing result ≡ let_pass (early_refusal self.now.world owner (first ∷ second ∷ [])) }
        ensures first { IfOk result (λ keys. IsKeyOf self.now owner first keys.0) }
        ensures second { IfOk result (λ keys. IsKeyOf self.now owner second keys.1) }
    {
        let one = self.key_named(owner, first);
        let other = self.key_named(owner, second);
        let foreign = either(is_others(first), is_others(second));
        let present = both(one.is_some(), other.is_some());
        let fits = both(self.fits(first, one), self.fits(second, other));
        self.pass(owner, foreign, present, fits)?;
        Ok((one.unwrap(), other.unwrap()))
    }

    /// Lets a line of an owner pass that names three nodes, as `admit` does, and gives their keys.
    #[inline(always)]
    pub fn admit_three(
        &self,
        owner: Owner,
        first: Operand,
        second: Operand,
        third: Operand,
    ) -> Result<(Key, Key, Key), Fault>
        requires first_node { is_some (node_named first) ≡ true }
        requires second_node { is_some (node_named second) ≡ true }
        requires third_node { is_some (node_named third) ≡ true }
        ensures passed { passing result ≡ let_pass (early_refusal self.now.world owner (first ∷ second ∷ third ∷ [])) }
        ensures first { IfOk result (λ keys. IsKeyOf self.now owner first keys.0) }
        ensures second { IfOk result (λ keys. IsKeyOf self.now owner second keys.1) }
        ensures third { IfOk result (λ keys. IsKeyOf self.now owner third keys.2) }
    {
        let one = self.key_named(owner, first);
        let other = self.key_named(owner, second);
        let last = self.key_named(owner, third);
        let foreign = one_of_three(is_others(first), is_others(second), is_others(third));
        let present = all_three(one.is_some(), other.is_some(), last.is_some());
        let fits = all_three(
            self.fits(first, one),
            self.fits(second, other),
            self.fits(third, last),
        );
        self.pass(owner, foreign, present, fits)?;
        Ok((one.unwrap(), other.unwrap(), last.unwrap()))
    }

    /// Lets a line pass that may come, where all that it names is there and of the kinds that are asked for.
    #[inline(always)]
    fn pass(&self, owner: Owner, foreign: bool, present: bool, fits: bool) -> Result<(), Fault>
        ensures passed { result ≡ let_pass (four_tests (is_busy self.now.world owner) foreign present fits) }
        ensures present { OnOk result (present ≡ true) }
        ensures fits { OnOk result (fits ≡ true) }
    {
        if self.is_busy(owner) {
            Err(Fault::Refused(Refusal::Busy))
        } else if foreign {
            Err(Fault::Refused(Refusal::Foreign))
        } else if !present {
            Err(Fault::Refused(Refusal::Unknown))
        } else if !fits {
            Err(Fault::Refused(Refusal::WrongKind))
        } else {
            Ok(())
        }
    }

    /// The key of a node that an owner's line names, if it is there.
    #[inline(always)]
    fn key_named(&self, owner: Owner, named: Operand) -> Option<Key>
        requires { is_some (node_named named) ≡ true }
        ensures node { ForSome result (HoldsNode self.now) }
        ensures looked { IsLookedUp self.now owner named result }
    {
        self.law_names_tell_nodes();
        self.find(owner, named.node().unwrap())
    }

    /// Whether the node of a key, if there is one, is of the kind that is asked for.
    #[inline(always)]
    fn fits(&self, named: Operand, key: Option<Key>) -> bool
        requires { ForSome key (HoldsNode self.now) }
        ensures { result ≡ option_map_or (is_kind_at self.now named) key false }
    {
        match key {
            Some(key) => self.is_kind_at(named, key),
            None => false,
        }
    }

    /// Whether all that is named is there.
    fn are_there(&self, owner: Owner, named: &[Operand]) -> bool
        ensures { result ≡ are_there (part_of self.now.world owner) named.now }
    {
        named.iter().all(|n| self.is_there_as(owner, *n))
    }

    /// Whether an owner's node, range, iterator, walker or observer is there.
    fn is_there_as(&self, owner: Owner, named: Operand) -> bool
        ensures { result ≡ is_there_as (part_of self.now.world owner) named }
    {
        match named.node() {
            Some(node) => self.has(owner, node),
            None => self.is_counted(owner, named),
        }
    }

    /// Whether an owner's range, iterator, walker or observer is there.
    fn is_counted(&self, owner: Owner, named: Operand) -> bool
        ensures { result ≡ is_counted (part_of self.now.world owner) named }
    {
        match named {
            Operand::Range(number) => self.doc.has_range(owner, number),
            Operand::Iterator(number) => self.doc.has_iter(owner, number),
            Operand::Walker(number) => self.doc.has_walker(owner, number),
            Operand::Observer(number) => self.doc.has_observer(owner, number),
            _ => false,
        }
    }

    /// Whether the nodes are of the kinds that are asked for.
    fn are_fitting(&self, owner: Owner, named: &[Operand]) -> bool
        ensures { result ≡ are_fitting (part_of self.now.world owner) named.now }
    {
        named.iter().all(|n| self.is_fit(owner, *n))
    }

    /// Whether a node is of the kind that is asked for; a range, an iterator, a walker or an observer always is.
    fn is_fit(&self, owner: Owner, named: Operand) -> bool
        ensures { result ≡ is_fit (part_of self.now.world owner) named }
    {
        let Some(node) = named.node() else {
            return true;
        };
        match self.find(owner, node) {
            Some(key) => self.is_kind_at(named, key),
            None => named.accepts(Kind::Fragment, ""),
        }
    }

    /// Whether the node of a key is of the kind that is asked for. Where any kind will do there is no look-up, and the local name
    /// is read of a slot alone.
    #[inline(always)]
    fn is_kind_at(&self, named: Operand, key: Key) -> bool
        requires { HoldsNode self.now key }
        ensures { result ≡ is_kind_at self.now named key }
    {
        match named {
            Operand::Any(_)
            | Operand::Range(_)
            | Operand::Iterator(_)
            | Operand::Walker(_)
            | Operand::Observer(_) => true,
            Operand::Slot(_) => named.accepts(self.kind(key), self.element(key)),
            Operand::Element(_)
            | Operand::Text(_)
            | Operand::Document(_)
            | Operand::Data(_)
            | Operand::Child(_)
            | Operand::Parent(_)
            | Operand::Slottable(_) => named.accepts(self.kind(key), ""),
        }
    }
}

/// Whether both hold.
#[inline(always)]
fn both(one: bool, other: bool) -> bool
    ensures { result ≡ (one && (other && true)) }
{
    one && other
}

/// Whether one of the two holds.
#[inline(always)]
fn either(one: bool, other: bool) -> bool
    ensures { result ≡ (one || (other || false)) }
{
    one || other
}

/// Whether all three hold.
#[inline(always)]
fn all_three(one: bool, other: bool, last: bool) -> bool
    ensures { result ≡ (one && (other && (last && true))) }
{
    one && other && last
}

/// Whether one of the three holds.
#[inline(always)]
fn one_of_three(one: bool, other: bool, last: bool) -> bool
    ensures { result ≡ (one || (other || (last || false))) }
{
    one || other || last
}

/// Whether one of the nodes is spelled as another owner's.
fn has_foreign(named: &[Operand]) -> bool
    ensures { result ≡ has_foreign named.now }
{
    named.iter().any(|n| is_others(*n))
}

/// Whether a node is named that is spelled as another owner's.
fn is_others(named: Operand) -> bool
    ensures { result ≡ is_others named }
{
    match named.node() {
        Some(node) => is_foreign(node),
        None => false,
    }
}

/// Whether a node is spelled as another owner's.
fn is_foreign(node: NodeWord) -> bool
    ensures { result ≡ is_foreign (word_view node) }
{
    matches!(node, NodeWord::Foreign)
}
