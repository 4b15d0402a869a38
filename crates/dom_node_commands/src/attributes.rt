//! The commands on attributes.
ghost use Rattle.std.specs.Prelude.{◌≡◌, string_bytes};
ghost use Rattle.dom_model.specs.Tree.{node_in, attribute_value};
ghost use Rattle.dom_model.specs.Command.{set_attribute, unset_attribute, attribute};
ghost use Rattle.dom_model.specs.Effects.{string_or_null};
ghost use Rattle.dom_mutation.specs.Doc.{HoldsNode, name_in, trees_in};
ghost use Rattle.dom_printer.specs.Replies.{value_view};
ghost use Rattle.dom_reader.specs.Views.{word_view};
ghost use Rattle.dom_admission.specs.Handled.{KeepsNames, IsHandled};

use crate::NOTHING;
use dom_admission::{Operand, State};
use dom_answers::Answers;
use dom_base::{DomStr, Fault, Owner};
use dom_printer::Value;
use dom_reader::NodeWord;
use node_arena::Key;

/// `set E WORD STR`: an element's attribute gets a value; a new attribute goes last.
pub fn set_attribute<A: Answers>(
    state: &mut State,
    owner: &Owner,
    element: NodeWord,
    name: String,
    value: DomStr,
    out: &mut A,
) -> Result<(), Fault>
    ensures handled { IsHandled A.adds owner.now (set_attribute (word_view element) (string_bytes name) value.items) state.old.world state.new.world
        out.old out.new result }
    ensures names { KeepsNames state.old.names state.new.names result }
{
    let element = state.admit_one(*owner, Operand::Element(element))?;
    state.doc.set_attr(element, &name, value)?;
    state.accept(owner, &NOTHING, out)
}

/// `unset E WORD`: an element's attribute goes; without it nothing changes.
pub fn unset_attribute<A: Answers>(
    state: &mut State,
    owner: &Owner,
    element: NodeWord,
    name: String,
    out: &mut A,
) -> Result<(), Fault>
    ensures handled { IsHandled A.adds owner.now (unset_attribute (word_view element) (string_bytes name)) state.old.world state.new.world out.old
        out.new result }
    ensures names { KeepsNames state.old.names state.new.names result }
{
    let element = state.admit_one(*owner, Operand::Element(element))?;
    state.doc.remove_attr(element, &name)?;
    state.accept(owner, &NOTHING, out)
}

/// `attr E WORD`: the value of an element's attribute, or `null`.
pub fn attribute<A: Answers>(
    state: &mut State,
    owner: &Owner,
    element: NodeWord,
    name: String,
    out: &mut A,
) -> Result<(), Fault>
    ensures handled { IsHandled A.adds owner.now (attribute (word_view element) (string_bytes name)) state.old.world state.new.world out.old
        out.new result }
    ensures names { KeepsNames state.old.names state.new.names result }
{
    let element = state.admit_one(*owner, Operand::Element(element))?;
    out.reply(owner, &attribute_value(state, element, &name))?;
    state.open_turn(owner);
    Ok(())
}

/// The value of a node's attribute, for a reply.
fn attribute_value<'a>(state: &'a State, node: Key, name: &str) -> Value<'a>
    requires { HoldsNode state.now node }
    ensures { value_view result ≡ string_or_null (attribute_value (node_in (trees_in state.now node) (name_in state.now node)) name.now) }
{
    match state.forest().attr(node, name) {
        Some(value) => Value::Str(value),
        None => Value::Null,
    }
}
