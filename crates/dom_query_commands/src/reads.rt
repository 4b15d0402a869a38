//! The commands that ask where nodes stand.
ghost use Rattle.std.specs.Prelude.{◌≡◌, ◌∷◌, [], OnOk, IfOk, map, All};
ghost use Rattle.std.specs.Option.{option_map, ForSome};
ghost use Rattle.dom_model.specs.Tree.{subtree, parent_of, children_of, is_inclusive_ancestor};
ghost use Rattle.dom_model.specs.Command.{tree, parent, document_of, children, contains, connected};
ghost use Rattle.dom_model.specs.Effects.{node_or_null};
ghost use Rattle.dom_model.specs.Output.{says, replied, a_list, a_tree};
ghost use Rattle.dom_printer.specs.Replies.{value_view};
ghost use Rattle.dom_reader.specs.Views.{word_view};
ghost use Rattle.dom_tree.specs.Forest.{IsNode, name_of};
ghost use Rattle.dom_admission.specs.Handled.{KeepsNames, IsHandled};
ghost use Rattle.dom_mutation.specs.Doc.{HoldsNode, name_in, trees_in};

use crate::things;
use crate::tree_text::tree_steps;
use dom_admission::{NodeNames, Operand, State};
use dom_answers::Answers;
use dom_base::{Fault, Owner};
use dom_printer::Value;
use dom_reader::NodeWord;
use dom_tree::Forest;
use node_arena::Key;
use std::alloc::{AllocError, Global};

/// For how many nodes a list of children has room at first, so that a short list is one piece of memory.
const FIRST_ROOM: usize = 16;

/// `tree N`: a node's tree.
pub fn tree<A: Answers>(
    state: &mut State,
    owner: Owner,
    node: NodeWord,
    out: &mut A,
) -> Result<(), Fault>
    ensures handled { IsHandled A.adds owner (tree (word_view node)) state.old.world state.new.world out.old out.new result }
    ensures names { KeepsNames state.old.names state.new.names result }
{
    let node = state.admit_one(owner, Operand::Any(node))?;
    reply_tree(state, owner, node, out)?;
    state.open_turn(&owner);
    Ok(())
}

/// `parent N`: the parent of a node, or `null`.
pub fn parent<A: Answers>(
    state: &mut State,
    owner: Owner,
    node: NodeWord,
    out: &mut A,
) -> Result<(), Fault>
    ensures handled { IsHandled A.adds owner (parent (word_view node)) state.old.world state.new.world out.old out.new result }
    ensures names { KeepsNames state.old.names state.new.names result }
{
    let node = state.admit_one(owner, Operand::Any(node))?;
    let value = node_or_null(state, parent_of(state, node));
    state.accept(&owner, &value, out)
}

/// `docof N`: the node document of a node, or `null`.
pub fn document_of<A: Answers>(
    state: &mut State,
    owner: Owner,
    node: NodeWord,
    out: &mut A,
) -> Result<(), Fault>
    ensures handled { IsHandled A.adds owner (document_of (word_view node)) state.old.world state.new.world out.old out.new result }
    ensures names { KeepsNames state.old.names state.new.names result }
{
    let node = state.admit_one(owner, Operand::Any(node))?;
    let value = node_or_null(state, state.document_of(node));
    state.accept(&owner, &value, out)
}

/// `children N`: the children of a node.
pub fn children<A: Answers>(
    state: &mut State,
    owner: Owner,
    node: NodeWord,
    out: &mut A,
) -> Result<(), Fault>
    ensures handled { IsHandled A.adds owner (children (word_view node)) state.old.world state.new.world out.old out.new result }
    ensures names { KeepsNames state.old.names state.new.names result }
{
    let node = state.admit_one(owner, Operand::Any(node))?;
    reply_children(state, &owner, node, out)?;
    state.open_turn(&owner);
    Ok(())
}

/// `contains N N`: whether the first node is the second or stands above it.
pub fn contains<A: Answers>(
    state: &mut State,
    owner: Owner,
    above: NodeWord,
    node: NodeWord,
    out: &mut A,
) -> Result<(), Fault>
    ensures handled { IsHandled A.adds owner (contains (word_view above) (word_view node)) state.old.world state.new.world out.old out.new result }
    ensures names { KeepsNames state.old.names state.new.names result }
{
    let (above, node) = state.admit_two(owner, Operand::Any(above), Operand::Any(node))?;
    let truth = is_above(state, above, node);
    state.accept(&owner, &Value::Truth(truth), out)
}

/// `connected N`: whether a document is the shadow-including root of a node.
pub fn connected<A: Answers>(
    state: &mut State,
    owner: Owner,
    node: NodeWord,
    out: &mut A,
) -> Result<(), Fault>
    ensures handled { IsHandled A.adds owner (connected (word_view node)) state.old.world state.new.world out.old out.new result }
    ensures names { KeepsNames state.old.names state.new.names result }
{
    let node = state.admit_one(owner, Operand::Any(node))?;
    let connected = state.doc.is_connected(node);
    state.accept(&owner, &Value::Truth(connected), out)
}

/// Adds the reply with a node's tree to the answers.
fn reply_tree<A: Answers>(
    state: &State,
    owner: Owner,
    node: Key,
    out: &mut A,
) -> Result<(), AllocError>
    requires { HoldsNode state.now node }
    ensures { OnOk result (A.adds out.old (says owner (replied (a_tree (subtree (trees_in state.now node) (name_in state.now node)))) ∷ []) out.new) }
{
    let steps = tree_steps(state.alloc, state.forest(), node)?;
    out.reply_tree(&owner, &steps)
}

/// A node or `null`, for a reply.
fn node_or_null(state: &State, node: Option<Key>) -> Value<'static>
    requires { ForSome node (HoldsNode state.now) }
    ensures { value_view result ≡ node_or_null (option_map (name_in state.now) node) }
{
    things::node_or_null(&state.doc, node)
}

/// The parent of a node.
fn parent_of(state: &State, node: Key) -> Option<Key>
    requires { HoldsNode state.now node }
    ensures value { option_map (name_in state.now) result ≡ parent_of (trees_in state.now node) (name_in state.now node) }
    ensures node { ForSome result (HoldsNode state.now) }
{
    state.forest().parent(node)
}

/// Puts the reply that has the children of a node.
fn reply_children<A: Answers>(
    state: &State,
    owner: &Owner,
    node: Key,
    out: &mut A,
) -> Result<(), AllocError>
    requires { HoldsNode state.now node }
    ensures { OnOk result (A.adds out.old (says owner.now (replied (a_list (children_of (trees_in state.now node) (name_in state.now node)))) ∷ []) out.new) }
{
    let forest = state.forest();
    let children = children_of(state.alloc, forest, node)?;
    out.reply_list(owner, &NodeNames { forest }, &children)
}

/// Whether a node is another one or stands above it.
fn is_above(state: &State, above: Key, node: Key) -> bool
    requires above_is_node { HoldsNode state.now above }
    requires node_is_node { HoldsNode state.now node }
    ensures { result ≡ is_inclusive_ancestor (trees_in state.now node) (name_in state.now above) (name_in state.now node) }
{
    state.forest().is_inclusive_ancestor(above, node)
}

/// The children of a node, along the links from sibling to sibling.
fn children_of(alloc: Global, forest: &Forest, node: Key) -> Result<Vec<Key>, AllocError>
    requires { IsNode forest.now node }
    ensures names { IfOk result (λ keys. map (name_of forest.now) keys.items ≡ children_of forest.now.trees (name_of forest.now node)) }
    ensures nodes { IfOk result (λ keys. All (IsNode forest.now) keys.items) }
{
    forest.law_nodes_stand_once();
    let mut children = Vec::with_capacity(alloc, FIRST_ROOM)?;
    let mut at = forest.first(node);
    while let Some(child) = at {
        children.push(child)?;
        at = forest.next(child);
    }
    Ok(children)
}
