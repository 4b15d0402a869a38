//! Slots that are signalled, each once.
ghost use Rattle.std.specs.Prelude.{◌≡◌, nat_eq, OnOk};
ghost use Rattle.dom_model.specs.Names.{append_once};

use node_arena::Key;
use smallvec::SmallVec;
use std::alloc::AllocError;

/// Adds a slot where it is not there (Infra Standard, append to an ordered set).
pub(crate) fn add_once(signals: &mut SmallVec<Key, 2>, slot: Key) -> Result<(), AllocError>
    ensures { OnOk result (signals.new.items ≡ append_once nat_eq signals.old.items slot) }
{
    if !signals.as_slice().contains(&slot) {
        signals.push(slot)?;
    }
    Ok(())
}
