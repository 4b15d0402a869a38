//! The documents of a run: the document trees and the open turn.
ghost use Rattle.std.specs.Prelude.{◌≡◌, ℕ, ◌∷◌, [], true, IfOk, Some, is_some};
ghost use Rattle.std.specs.Option.{option_map, ForSome};
ghost use Rattle.dom_base.specs.declared.Owner.{Owner as OwnerOf};
ghost use Rattle.dom_base.specs.declared.Owner.TheVariants.{Page};
ghost use Rattle.dom_model.specs.Names.{node_of};
ghost use Rattle.dom_model.specs.Tree.{has_node, node_in};
ghost use Rattle.dom_model.specs.CommandNames.{named};
ghost use Rattle.dom_model.specs.World.{part_of, is_there};
ghost use Rattle.dom_model.specs.Turns.{opening_turn};
ghost use Rattle.dom_model.specs.DocumentMachine.{first_world, is_busy};
ghost use Rattle.dom_tree.specs.Forest.{name_of};
ghost use Rattle.dom_tree.specs.Owners.{trees_of_owner, AreOwned};
ghost use Rattle.dom_slots.specs.Kept.{AreSlotsOf};
ghost use Rattle.dom_slots.specs.Shadows.{shadows, IsShownBy};
ghost use Rattle.dom_reader.specs.Views.{word_view};
ghost use Rattle.dom_admission.specs.Refusals.{number_in};
ghost use Rattle.dom_mutation.specs.Doc.{HoldsNode, name_in, trees_in};

use dom_base::{Kind, NodeName, Owner};
use dom_mutation::Doc;
use dom_reader::NodeWord;
use dom_selectors::ParsedTexts;
use dom_slots::Slots;
use dom_tree::Forest;
use node_arena::Key;
use std::alloc::{AllocError, Global};
use std::marker::Model;

/// The document trees and the open turn.
#[derive(Drop)]
pub struct State {
    /// The document trees, with what is kept beside them.
    pub doc: Doc,
    pub(crate) turn: Option<Owner>,
    /// The selectors that were asked for last, which say nothing of the documents.
    pub selectors: ParsedTexts,
    /// Where memory is taken from.
    pub alloc: Global,
}

impl Model for State {
    ghost use Rattle.std.specs.Coded.{codes};
    ghost use Rattle.dom_model.specs.Codes.{trees_code};
    ghost use Rattle.dom_mutation.specs.Doc.{DocState};
    ghost use Rattle.dom_admission.specs.Turned.{turned};

    ghost Value = { DocState };

    ghost coded = { Prim.hlevel (codes, trees_code) };

    ghost view = { λ s. turned s.turn s.doc };
}

impl State {
    /// The state before the first line: the page has its first document, and there is no more.
    pub fn new(alloc: Global) -> Result<State, AllocError>
        ensures { IfOk result (λ state. state ≡ record { names = node_of Page 0 ∷ []; world = first_world }) }
    {
        let doc = Doc::new(alloc)?;
        Ok(State {
            doc,
            turn: None,
            selectors: ParsedTexts::new(alloc),
            alloc,
        })
    }

    /// Whether a component's line comes in an open turn of the page.
    pub fn is_busy(&self, owner: Owner) -> bool
        ensures { result ≡ is_busy self.now.world owner }
    {
        matches!(self.turn, Some(Owner::Page)) && !matches!(owner, Owner::Page)
    }

    /// Opens an owner's turn, where none is open.
    pub fn open_turn(&mut self, owner: &Owner)
        ensures names { self.new.names ≡ self.old.names }
        ensures world { self.new.world ≡ opening_turn self.old.world owner.now }
    {
        if self.turn.is_none() {
            self.turn = Some(*owner);
        }
    }

    /// Whether an owner has a part.
    pub fn is_there(&self, owner: Owner) -> bool
        ensures { result ≡ is_there self.now.world owner }
    {
        self.doc.is_there(owner)
    }

    /// Holds of every state: names tell nodes apart, and the owners of all nodes are there.
    pub fn law_names_tell_nodes(&self)
        ensures distinct { (j k : ℕ) → HoldsNode self.now j → HoldsNode self.now k → name_in self.now j ≡ name_in self.now k → j ≡ k }
        ensures there { (k : ℕ) → HoldsNode self.now k → is_there self.now.world (name_in self.now k).owner ≡ true }
    {
        self.doc.forest().law_nodes_stand_once();
    }

    /// The forest, for reading.
    pub fn forest(&self) -> &Forest
        ensures names { result.now.names ≡ self.now.names }
        ensures trees { (o : OwnerOf) → trees_of_owner o result.now.trees ≡ (part_of self.now.world o).trees }
        ensures owned { AreOwned result.now.trees }
        ensures nodes { (k : ℕ) → node_in result.now.trees (name_of result.now k) ≡ node_in (trees_in self.now k) (name_in self.now k) }
    {
        self.doc.forest()
    }

    /// The forest and the slots of its shadow trees, for reading.
    pub fn forest_and_slots(&self) -> (&Forest, &Slots)
        ensures names { result.0.now.names ≡ self.now.names }
        ensures slots { AreSlotsOf result.0.now result.1.now }
        ensures shown { IsShownBy (shadows result.0.now result.1.now.hosts) self.now.world }
    {
        self.doc.forest_and_slots()
    }

    /// The node that an owner's line names, if it is there.
    #[inline(always)]
    pub fn find(&self, owner: Owner, node: NodeWord) -> Option<Key>
        ensures found { ForSome result (λ key. (HoldsNode self.now key) ×
            (name_in self.now key ≡ named (part_of self.now.world owner) (word_view node))) }
        ensures presence { is_some result ≡ has_node (part_of self.now.world owner).trees (named (part_of self.now.world owner) (word_view node)) }
    {
        let number = number_in(node);
        let forest = self.doc.forest();
        forest.find(NodeName { owner, number })
    }

    /// Whether a node that an owner's line names is there.
    pub fn has(&self, owner: Owner, node: NodeWord) -> bool
        ensures { result ≡ has_node (part_of self.now.world owner).trees (named (part_of self.now.world owner) (word_view node)) }
    {
        self.find(owner, node).is_some()
    }

    /// The kind of a node.
    #[inline(always)]
    pub fn kind(&self, key: Key) -> Kind
        requires { HoldsNode self.now key }
        ensures { result ≡ (node_in (trees_in self.now key) (name_in self.now key)).kind }
    {
        self.forest().kind(key)
    }

    /// The local name of an element; another node's reads as empty.
    pub(crate) fn element(&self, key: Key) -> &str
        requires { HoldsNode self.now key }
        ensures { result.now ≡ (node_in (trees_in self.now key) (name_in self.now key)).element }
    {
        self.forest().element(key)
    }

    /// The node document of a node, if it has one.
    pub fn document_of(&self, key: Key) -> Option<Key>
        requires { HoldsNode self.now key }
        ensures value { option_map (name_in self.now) result ≡ (node_in (trees_in self.now key) (name_in self.now key)).document }
        ensures node { ForSome result (HoldsNode self.now) }
    {
        self.forest().document(key)
    }

    /// The node that an owner's line names, which is there.
    pub fn key(&self, owner: Owner, node: NodeWord) -> Key
        requires { has_node (part_of self.now.world owner).trees (named (part_of self.now.world owner) (word_view node)) ≡ true }
        ensures node { HoldsNode self.now result }
        ensures name { name_in self.now result ≡ named (part_of self.now.world owner) (word_view node) }
    {
        self.find(owner, node).unwrap()
    }
}

/// The number of an owner's node as its line names it; a foreign name reads as that of the first node.
fn number_in(node: NodeWord) -> u32
    ensures { result ≡ number_in (word_view node) }
{
    match node {
        NodeWord::Own(number) => number,
        NodeWord::Foreign => 0,
    }
}
