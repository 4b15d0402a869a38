//! What a notification takes, and what it tells one observer (DOM Standard, notify mutation observers).
ghost use Rattle.std.specs.Prelude.{◌≡◌, not, IfOk, OnOk, OnErr};
ghost use Rattle.dom_model.specs.Names.{is_empty};
ghost use Rattle.dom_model.specs.Part.{queue_of};
ghost use Rattle.dom_model.specs.Turns.{records_of};
ghost use Rattle.dom_model.specs.World.{part_of, with_part};
ghost use Rattle.dom_worlds.specs.Worlds.{IsThere};
ghost use Rattle.dom_mutation.specs.Doc.{none_pending, after_telling};

use crate::records::put_records;
use dom_admission::State;
use dom_answers::Answers;
use dom_base::Owner;
use std::alloc::AllocError;

/// Takes an owner's pending observers, and gives their numbers, in the order in which they became pending. None is pending afterwards. Where
/// memory is refused, nothing changes.
pub fn take_pending(state: &mut State, owner: Owner) -> Result<Vec<u32>, AllocError>
    requires { IsThere state.old.world owner }
    ensures numbers { IfOk result (λ numbers. numbers.items ≡ (part_of state.old.world owner).pending) }
    ensures names { OnOk result (state.new.names ≡ state.old.names) }
    ensures world { OnOk result (state.new.world ≡ with_part state.old.world (none_pending (part_of state.old.world owner))) }
    ensures err { OnErr result (state.new ≡ state.old) }
{
    state.doc.take_pending(owner)
}

/// Tells an owner's observer its records: adds them to the answers, empties its queue, and takes its transient registrations away. Whether
/// there were records.
pub fn tell_observer<A: Answers>(
    state: &mut State,
    owner: Owner,
    observer: u32,
    out: &mut A,
) -> Result<bool, AllocError>
    requires { IsThere state.old.world owner }
    ensures told { OnOk result (A.adds out.old (records_of (part_of state.old.world owner) observer) out.new) }
    ensures any { IfOk result (λ any. any ≡ not (is_empty (queue_of (part_of state.old.world owner).record_queues observer))) }
    ensures names { OnOk result (state.new.names ≡ state.old.names) }
    ensures world { OnOk result (state.new.world ≡ with_part state.old.world (after_telling observer (part_of state.old.world owner))) }
{
    let records = state.doc.tell(owner, observer);
    let forest = state.doc.forest();
    put_records(
        state.alloc,
        forest,
        owner,
        observer,
        records.as_slice(),
        out,
    )?;
    Ok(!records.is_empty())
}
