//! The commands on the data of Texts and Comments, and on the text below a node.
ghost use Rattle.dom_model.specs.Command.{set_data, replace_data, split, set_text, normalize};
ghost use Rattle.dom_reader.specs.Views.{word_view};
ghost use Rattle.dom_admission.specs.Handled.{KeepsNames, IsHandled};

use crate::NOTHING;
use dom_admission::{Operand, State};
use dom_answers::Answers;
use dom_base::{DomStr, Fault, Owner};
use dom_reader::NodeWord;

/// `data T STR`: all data of a Text or a Comment give way to others.
pub fn set_data<A: Answers>(
    state: &mut State,
    owner: &Owner,
    node: NodeWord,
    text: DomStr,
    out: &mut A,
) -> Result<(), Fault>
    ensures handled { IsHandled A.adds owner.now (set_data (word_view node) text.items) state.old.world state.new.world out.old out.new result }
    ensures names { KeepsNames state.old.names state.new.names result }
{
    let node = state.admit_one(*owner, Operand::Data(node))?;
    state.doc.set_data(node, text)?;
    state.accept(owner, &NOTHING, out)
}

/// `replace-data T OFFSET COUNT STR`: from an offset on, so many code units of a Text or a Comment give way to others.
pub fn replace_data<A: Answers>(
    state: &mut State,
    owner: &Owner,
    node: NodeWord,
    offset: u32,
    count: u32,
    text: DomStr,
    out: &mut A,
) -> Result<(), Fault>
    ensures handled { IsHandled A.adds owner.now (replace_data (word_view node) offset count text.items) state.old.world state.new.world out.old
        out.new result }
    ensures names { KeepsNames state.old.names state.new.names result }
{
    let node = state.admit_one(*owner, Operand::Data(node))?;
    state
        .doc
        .replace_data(node, offset as usize, count as usize, text)?;
    state.accept(owner, &NOTHING, out)
}

/// `split N OFFSET`: the code units of a Text from an offset on go into a new Text behind it.
pub fn split<A: Answers>(
    state: &mut State,
    owner: &Owner,
    node: NodeWord,
    offset: u32,
    out: &mut A,
) -> Result<(), Fault>
    ensures handled { IsHandled A.adds owner.now (split (word_view node) offset) state.old.world state.new.world out.old out.new result }
    ensures names { KeepsNames state.old.names state.new.names result }
{
    let node = state.admit_one(*owner, Operand::Text(node))?;
    let tail = state.doc.split(node, offset as usize)?;
    let made = state.doc.forest().name(tail);
    state.accept_node(owner, &made, out)
}

/// `text N STR`: the text of a node: the data of a Text or a Comment, nothing of a document, and of others one Text in
/// place of their children.
pub fn set_text<A: Answers>(
    state: &mut State,
    owner: &Owner,
    node: NodeWord,
    text: DomStr,
    out: &mut A,
) -> Result<(), Fault>
    ensures handled { IsHandled A.adds owner.now (set_text (word_view node) text.items) state.old.world state.new.world out.old out.new result }
    ensures names { KeepsNames state.old.names state.new.names result }
{
    let node = state.admit_one(*owner, Operand::Any(node))?;
    state.doc.set_text(node, text)?;
    state.accept(owner, &NOTHING, out)
}

/// `normalize N`: below a node no Text is empty, and none stands directly behind another.
pub fn normalize<A: Answers>(
    state: &mut State,
    owner: &Owner,
    node: NodeWord,
    out: &mut A,
) -> Result<(), Fault>
    ensures handled { IsHandled A.adds owner.now (normalize (word_view node)) state.old.world state.new.world out.old out.new result }
    ensures names { KeepsNames state.old.names state.new.names result }
{
    let node = state.admit_one(*owner, Operand::Any(node))?;
    state.doc.normalize(node)?;
    state.accept(owner, &NOTHING, out)
}
