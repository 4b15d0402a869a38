//! The commands on shadow trees: the making of components, and slots (DOM Standard, 4.2.2 Shadow tree).
ghost use Rattle.std.specs.Prelude.{◌≡◌, ◌∷◌, [], OnOk};
ghost use Rattle.dom_model.specs.Command.{attach, shadow_root, slot_of, assigned as assigned_command};
ghost use Rattle.dom_model.specs.Output.{says, replied, a_list};
ghost use Rattle.dom_model.specs.Slots.{assigned_nodes};
ghost use Rattle.dom_model.specs.Trace.{is_page};
ghost use Rattle.dom_mutation.specs.Doc.{HoldsNode, name_in};
ghost use Rattle.dom_reader.specs.Views.{word_view};
ghost use Rattle.dom_admission.specs.Handled.{KeepsNames, IsHandled};

use dom_admission::{NodeNames, Operand, State};
use dom_answers::Answers;
use dom_base::{Fault, Owner, Refusal};
use dom_printer::Value;
use dom_reader::NodeWord;
use dom_slots::law_slots_are_of_worlds;
use node_arena::Key;
use std::alloc::AllocError;

/// `attach E`: a new component, to whose closed shadow root an element of the owner's is the host (DOM Standard, attach a shadow
/// root; own rule for the component).
pub fn attach<A: Answers>(
    state: &mut State,
    owner: &Owner,
    host: NodeWord,
    out: &mut A,
) -> Result<(), Fault>
    ensures handled { IsHandled A.adds owner.now (attach (word_view host)) state.old.world state.new.world out.old out.new result }
    ensures names { KeepsNames state.old.names state.new.names result }
{
    let host = state.admit_one(*owner, Operand::Element(host))?;
    let root = state.doc.attach(host)?;
    let component = state.doc.forest().name(root).owner;
    state.accept(owner, &Value::Component(component), out)
}

/// `shadow-root E`: always `null`, since all shadow roots are closed (DOM Standard, the shadowRoot getter).
pub fn shadow_root<A: Answers>(
    state: &mut State,
    owner: &Owner,
    element: NodeWord,
    out: &mut A,
) -> Result<(), Fault>
    ensures handled { IsHandled A.adds owner.now (shadow_root (word_view element)) state.old.world state.new.world out.old out.new result }
    ensures names { KeepsNames state.old.names state.new.names result }
{
    state.admit(*owner, &[Operand::Element(element)])?;
    state.accept(owner, &Value::Null, out)
}

/// `slot-of N`: always `null`, since all shadow trees are closed (DOM Standard, the assignedSlot getter).
pub fn slot_of<A: Answers>(
    state: &mut State,
    owner: &Owner,
    node: NodeWord,
    out: &mut A,
) -> Result<(), Fault>
    ensures handled { IsHandled A.adds owner.now (slot_of (word_view node)) state.old.world state.new.world out.old out.new result }
    ensures names { KeepsNames state.old.names state.new.names result }
{
    state.admit(*owner, &[Operand::Slottable(node)])?;
    state.accept(owner, &Value::Null, out)
}

/// `assigned E`: the nodes assigned to a slot; components' alone (DOM Standard, concept: assigned nodes).
pub fn assigned<A: Answers>(
    state: &mut State,
    owner: &Owner,
    slot: NodeWord,
    out: &mut A,
) -> Result<(), Fault>
    ensures handled { IsHandled A.adds owner.now (assigned_command (word_view slot)) state.old.world state.new.world out.old out.new result }
    ensures names { KeepsNames state.old.names state.new.names result }
{
    if is_page(*owner) {
        return Err(Fault::Refused(Refusal::Syntax));
    }
    let slot = state.admit_one(*owner, Operand::Slot(slot))?;
    reply_assigned(state, owner, slot, out)?;
    state.open_turn(owner);
    Ok(())
}

/// Puts the reply that has the nodes assigned to a slot.
fn reply_assigned<A: Answers>(
    state: &State,
    owner: &Owner,
    slot: Key,
    out: &mut A,
) -> Result<(), AllocError>
    requires { HoldsNode state.now slot }
    ensures { OnOk result (A.adds out.old (says owner.now (replied (a_list (assigned_nodes state.now.world (name_in state.now slot)))) ∷ []) out.new) }
{
    law_slots_are_of_worlds();
    let (forest, slots) = state.forest_and_slots();
    let nodes = slots.assigned(forest, slot)?;
    out.reply_list(owner, &NodeNames { forest }, &nodes)
}

/// Whether an owner is the page.
fn is_page(owner: Owner) -> bool
    ensures { result ≡ is_page owner }
{
    matches!(owner, Owner::Page)
}
