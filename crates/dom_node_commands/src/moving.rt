//! The commands that move nodes.
ghost use Rattle.dom_model.specs.Command.{append, insert, replace, remove, adopt};
ghost use Rattle.dom_reader.specs.Views.{word_view};
ghost use Rattle.dom_admission.specs.Handled.{KeepsNames, IsHandled};

use crate::NOTHING;
use dom_admission::{Operand, State};
use dom_answers::Answers;
use dom_base::{Fault, Owner};
use dom_reader::NodeWord;

/// `append P N`: a node becomes a parent's last child.
pub fn append<A: Answers>(
    state: &mut State,
    owner: &Owner,
    parent: NodeWord,
    node: NodeWord,
    out: &mut A,
) -> Result<(), Fault>
    ensures handled { IsHandled A.adds owner.now (append (word_view parent) (word_view node)) state.old.world state.new.world out.old out.new result }
    ensures names { KeepsNames state.old.names state.new.names result }
{
    let (parent, node) = state.admit_two(*owner, Operand::Any(parent), Operand::Any(node))?;
    state.doc.insert(parent, node, None)?;
    state.accept(owner, &NOTHING, out)
}

/// `insert P N C`: a node becomes the child of a parent just before another child.
pub fn insert<A: Answers>(
    state: &mut State,
    owner: &Owner,
    parent: NodeWord,
    node: NodeWord,
    child: NodeWord,
    out: &mut A,
) -> Result<(), Fault>
    ensures handled { IsHandled A.adds owner.now (insert (word_view parent) (word_view node) (word_view child)) state.old.world state.new.world
        out.old out.new result }
    ensures names { KeepsNames state.old.names state.new.names result }
{
    let (parent, node, child) = state.admit_three(
        *owner,
        Operand::Any(parent),
        Operand::Any(node),
        Operand::Any(child),
    )?;
    state.doc.insert(parent, node, Some(child))?;
    state.accept(owner, &NOTHING, out)
}

/// `replace P N C`: a node takes the place of a child of a parent.
pub fn replace<A: Answers>(
    state: &mut State,
    owner: &Owner,
    parent: NodeWord,
    node: NodeWord,
    child: NodeWord,
    out: &mut A,
) -> Result<(), Fault>
    ensures handled { IsHandled A.adds owner.now (replace (word_view parent) (word_view node) (word_view child)) state.old.world state.new.world
        out.old out.new result }
    ensures names { KeepsNames state.old.names state.new.names result }
{
    let (parent, node, child) = state.admit_three(
        *owner,
        Operand::Any(parent),
        Operand::Any(node),
        Operand::Any(child),
    )?;
    state.doc.replace(parent, node, child)?;
    state.accept(owner, &NOTHING, out)
}

/// `remove N`: a node leaves its parent.
pub fn remove<A: Answers>(
    state: &mut State,
    owner: &Owner,
    node: NodeWord,
    out: &mut A,
) -> Result<(), Fault>
    ensures handled { IsHandled A.adds owner.now (remove (word_view node)) state.old.world state.new.world out.old out.new result }
    ensures names { KeepsNames state.old.names state.new.names result }
{
    let node = state.admit_one(*owner, Operand::Child(node))?;
    state.doc.remove(node)?;
    state.accept(owner, &NOTHING, out)
}

/// `adopt D N`: a node leaves its parent and gets a document for its node document, with all below it.
pub fn adopt<A: Answers>(
    state: &mut State,
    owner: &Owner,
    document: NodeWord,
    node: NodeWord,
    out: &mut A,
) -> Result<(), Fault>
    ensures handled { IsHandled A.adds owner.now (adopt (word_view document) (word_view node)) state.old.world state.new.world out.old out.new result }
    ensures names { KeepsNames state.old.names state.new.names result }
{
    let (document, node) = state.admit_two(
        *owner,
        Operand::Document(document),
        Operand::Any(node),
    )?;
    state.doc.adopt(document, node)?;
    state.accept(owner, &NOTHING, out)
}
