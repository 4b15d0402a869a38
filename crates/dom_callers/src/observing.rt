//! A caller of `dom_observers`.
ghost use Rattle.std.specs.Prelude.{◌≡◌, ◌↔◌, ◌⊎◌, nat_eq, true, length, IfOk, IfErr, OnErr};
ghost use Rattle.dom_model.specs.CommandRefusals.{past_limit};
ghost use Rattle.dom_observers.specs.Owners.{tables_of, ChangesTables, KeepsTables};
ghost use Rattle.dom_observers.specs.Tables.{with_observer, observing};
ghost use Rattle.dom_observers.specs.There.{AreThere};
ghost use Rattle.dom_callers.specs.Words.{attribute_words};
ghost use Rattle.dom_tree.specs.Forest.{IsNode, name_of};

use dom_base::{Fault, Owner, Refusal};
use dom_observers::{Observers, Options, law_observers_are_there};
use dom_tree::Forest;
use node_arena::Key;

/// Makes an observer of the attributes of one node of an owner, and gives its number (DOM Standard, constructor of MutationObserver
/// and observe()). It is refused with `Limit` where the owner has made a million observers; then nothing changes. It is
/// refused with `Memory` where memory is refused; then nothing is observed, but the observer may have been made.
pub fn watch_attributes(
    observers: &mut Observers,
    forest: &Forest,
    owner: Owner,
    node: Key,
) -> Result<u32, Fault>
    requires node_is_node { IsNode forest.now node }
    requires own { (name_of forest.now node).owner ≡ owner }
    ensures number { IfOk result (λ k. k ≡ length (tables_of observers.old owner).record_queues) }
    ensures tables { IfOk result (λ k. ChangesTables owner
        (observing nat_eq k node attribute_words (with_observer (tables_of observers.old owner))) observers.old observers.new) }
    ensures limit { (result ≡ Err (Fault.Refused Refusal.Limit)) ↔ (past_limit (length (tables_of observers.old owner).record_queues) 1 ≡ true) }
    ensures other { IfErr result (λ fault. (fault ≡ Fault.Refused Refusal.Limit) ⊎ (fault ≡ Fault.Memory)) }
    ensures kept { result ≡ Err (Fault.Refused Refusal.Limit) → KeepsTables observers.old observers.new }
    ensures err { OnErr result (KeepsTables observers.old observers.new ⊎
        ChangesTables owner (with_observer (tables_of observers.old owner)) observers.old observers.new) }
    ensures there { AreThere observers.old → AreThere observers.new }
{
    dom_laws::law_names();
    law_observers_are_there();
    let observer = observers.make(owner)?;
    let options = Options {
        child_list: false,
        attributes: true,
        character_data: false,
        subtree: false,
        attribute_old_value: false,
        character_data_old_value: false,
        filter: None,
    };
    observers.observe(forest, owner, observer, node, options)?;
    Ok(observer)
}
