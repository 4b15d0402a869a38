//! Looks: what a program reads of a node without a command of the line protocol. A look has the refusals that
//! `parent N` has while no turn is open, also if one is. It opens no turn and changes nothing.
ghost use Rattle.std.specs.Prelude.{◌≡◌, ◌∷◌, [], IfOk, OnOk, OnErr};
ghost use Rattle.std.specs.Option.{option_map, ForSome};
ghost use Rattle.dom_model.specs.CommandNames.{is_foreign, named};
ghost use Rattle.dom_model.specs.Output.{says, replied, a_tree};
ghost use Rattle.dom_model.specs.World.{part_of};
ghost use Rattle.dom_reader.specs.Views.{word_view};
ghost use Rattle.dom_tree.specs.Forest.{IsNode, name_of};
ghost use Rattle.dom_admission.specs.Handled.{let_pass, passing};
ghost use Rattle.dom_mutation.specs.Doc.{HoldsNode, name_in, trees_in};
ghost use Rattle.dom_query_commands.specs.Looks.{links_of, look_refusal, node_alone, seen_at, structure_of, IsAllowed};

use crate::structure::{StructureRow, structure_rows};
use crate::tree_text::opening;
use dom_admission::State;
use dom_answers::Answers;
use dom_base::{Fault, NodeName, Owner, Refusal};
use dom_printer::TreeStep;
use dom_reader::NodeWord;
use dom_tree::Forest;
use node_arena::Key;
use std::alloc::AllocError;

/// The nodes around a node in its tree (DOM Standard, 4.4).
#[derive(Clone, Copy)]
pub struct NodeLinks {
    pub parent: Option<NodeName>,
    pub first: Option<NodeName>,
    pub last: Option<NodeName>,
    pub previous: Option<NodeName>,
    pub next: Option<NodeName>,
}

/// The nodes around a node. It takes no memory, so that the only errors are refusals.
pub fn links(state: &State, owner: Owner, node: NodeWord) -> Result<NodeLinks, Fault>
    ensures passed { passing result ≡ let_pass (look_refusal state.now.world owner (word_view node)) }
    ensures links { IfOk result (λ links. links ≡ seen_at links_of state.now.world owner (word_view node)) }
{
    let node = admit(state, owner, node)?;
    Ok(links_in(state, node))
}

/// What a node has itself: its kind, an element's local name and attributes in order, the data of a Text or a Comment. It is put as a
/// reply with the tree that has this node alone, or nothing is put. The only error but refusals is memory refused.
pub fn describe<A: Answers>(
    state: &State,
    owner: Owner,
    node: NodeWord,
    out: &mut A,
) -> Result<(), Fault>
    ensures allowed { IsAllowed (look_refusal state.now.world owner (word_view node)) result }
    ensures told { OnOk result (A.adds out.old (says owner (replied (a_tree (seen_at node_alone state.now.world owner (word_view node)))) ∷ []) out.new) }
    ensures err { OnErr result (A.adds out.old [] out.new) }
{
    let node = admit(state, owner, node)?;
    Ok(reply_node(state, owner, node, out)?)
}

/// The nodes of a node's tree, from the node itself down, in tree order, each with its kind and its parent's place in the list. The only
/// error but refusals is memory refused.
pub fn structure(state: &State, owner: Owner, node: NodeWord) -> Result<Vec<StructureRow>, Fault>
    ensures allowed { IsAllowed (look_refusal state.now.world owner (word_view node)) result }
    ensures rows { IfOk result (λ rows. rows.items ≡ seen_at structure_of state.now.world owner (word_view node)) }
{
    let node = admit(state, owner, node)?;
    Ok(structure_in(state, node)?)
}

/// Lets a look pass, or says why it is refused, and gives the key of the node.
fn admit(state: &State, owner: Owner, node: NodeWord) -> Result<Key, Fault>
    ensures passed { passing result ≡ let_pass (look_refusal state.now.world owner (word_view node)) }
    ensures node { IfOk result (HoldsNode state.now) }
    ensures name { IfOk result (λ key. name_in state.now key ≡ named (part_of state.now.world owner) (word_view node)) }
{
    state.law_names_tell_nodes();
    if is_foreign(node) {
        return Err(Fault::Refused(Refusal::Foreign));
    }
    match state.find(owner, node) {
        Some(key) => Ok(key),
        None => Err(Fault::Refused(Refusal::Unknown)),
    }
}

/// Whether a node is spelled as another owner's.
fn is_foreign(node: NodeWord) -> bool
    ensures { result ≡ is_foreign (word_view node) }
{
    matches!(node, NodeWord::Foreign)
}

/// The nodes around a node.
fn links_in(state: &State, node: Key) -> NodeLinks
    requires { HoldsNode state.now node }
    ensures { result ≡ links_of (trees_in state.now node) (name_in state.now node) }
{
    links_at(state.forest(), node)
}

/// The nodes around a node in the trees of all owners.
fn links_at(forest: &Forest, node: Key) -> NodeLinks
    requires { IsNode forest.now node }
    ensures { result ≡ links_of forest.now.trees (name_of forest.now node) }
{
    NodeLinks {
        parent: name_of(forest, forest.parent(node)),
        first: name_of(forest, forest.first(node)),
        last: name_of(forest, forest.last(node)),
        previous: name_of(forest, forest.prev(node)),
        next: name_of(forest, forest.next(node)),
    }
}

/// The name of a node, if there is one.
fn name_of(forest: &Forest, node: Option<Key>) -> Option<NodeName>
    requires { ForSome node (IsNode forest.now) }
    ensures { result ≡ option_map (name_of forest.now) node }
{
    match node {
        Some(node) => Some(forest.name(node)),
        None => None,
    }
}

/// Puts the reply that has the tree of a node alone.
fn reply_node<A: Answers>(
    state: &State,
    owner: Owner,
    node: Key,
    out: &mut A,
) -> Result<(), AllocError>
    requires { HoldsNode state.now node }
    ensures ok { OnOk result (A.adds out.old (says owner (replied (a_tree (node_alone (trees_in state.now node) (name_in state.now node)))) ∷ []) out.new) }
    ensures err { OnErr result (A.adds out.old [] out.new) }
{
    let opening = opening(state.alloc, state.forest(), node)?;
    let steps = [TreeStep::Opens(opening), TreeStep::Closes];
    out.reply_tree(&owner, &steps)
}

/// The rows of a node's tree.
fn structure_in(state: &State, node: Key) -> Result<Vec<StructureRow>, AllocError>
    requires { HoldsNode state.now node }
    ensures { IfOk result (λ rows. rows.items ≡ structure_of (trees_in state.now node) (name_in state.now node)) }
{
    structure_rows(state.alloc, state.forest(), node)
}
