//! Microtasks: how they are queued, and what a notification takes (HTML Standard, queue a microtask; DOM Standard, notify mutation
//! observers).
ghost use Rattle.std.specs.Prelude.{◌≡◌, All, filter, map, IfOk, OnOk, string_bytes};
ghost use Rattle.dom_model.specs.Command.{micro};
ghost use Rattle.dom_model.specs.Turns.{notified, notified_lines, is_owned_by, without_signals};
ghost use Rattle.dom_model.specs.World.{part_of, with_part};
ghost use Rattle.dom_worlds.specs.Worlds.{IsThere};
ghost use Rattle.dom_admission.specs.Handled.{IsHandled, KeepsNames};
ghost use Rattle.dom_mutation.specs.Doc.{HoldsNode, name_in};

use crate::records::put_notices;
use dom_admission::State;
use dom_answers::Answers;
use dom_base::{Fault, Owner};
use dom_printer::Value;
use node_arena::Key;
use std::alloc::AllocError;

/// `micro LABEL`: a microtask that tells its label when it runs.
pub fn micro<A: Answers>(
    state: &mut State,
    owner: Owner,
    label: String,
    out: &mut A,
) -> Result<(), Fault>
    ensures handled { IsHandled A.adds owner (micro (string_bytes label)) state.old.world state.new.world out.old out.new result }
    ensures names { KeepsNames state.old.names state.new.names result }
{
    state.admit(owner, &[])?;
    state.doc.push_micro(owner, label.into_bytes())?;
    state.accept(&owner, &Value::Nothing, out)
}

/// Takes the slots of an owner that are signalled, in their order. No slot of this owner is signalled afterwards (DOM Standard, notify
/// mutation observers: signal slots).
pub fn take_signals(state: &mut State, owner: Owner) -> Result<Vec<Key>, AllocError>
    ensures keys { IfOk result (λ keys. map (name_in state.old) keys.items ≡ filter (is_owned_by owner) state.old.world.signalled) }
    ensures nodes { IfOk result (λ keys. All (HoldsNode state.old) keys.items) }
    ensures names { OnOk result (state.new.names ≡ state.old.names) }
    ensures world { OnOk result (state.new.world ≡ without_signals state.old.world owner) }
{
    state.doc.take_signals(owner)
}

/// Gives each pending observer of an owner its records, and adds them to the answers (DOM Standard, notify mutation observers).
pub fn tell_observers<A: Answers>(
    state: &mut State,
    owner: Owner,
    out: &mut A,
) -> Result<(), AllocError>
    requires { IsThere state.old.world owner }
    ensures told { OnOk result (A.adds out.old (notified_lines (part_of state.old.world owner)) out.new) }
    ensures world { OnOk result (state.new.world ≡ with_part state.old.world (notified (part_of state.old.world owner))) }
    ensures names { OnOk result (state.new.names ≡ state.old.names) }
{
    let notices = state.doc.notify(owner)?;
    let forest = state.doc.forest();
    put_notices(state.alloc, forest, owner, notices.as_slice(), out)
}
