//! The commands on mutation observers (DOM Standard, 4.3 Mutation observers).
ghost use Rattle.std.specs.Prelude.{◌≡◌};
ghost use Rattle.dom_model.specs.Command.{observer, observe, take};
ghost use Rattle.dom_observers.specs.Views.{words_of};
ghost use Rattle.dom_reader.specs.Views.{word_view, observe_view};
ghost use Rattle.dom_admission.specs.Handled.{KeepsNames, IsHandled};

use crate::records::put_records;
use dom_admission::{Operand, State};
use dom_answers::Answers;
use dom_base::{Fault, Owner};
use dom_observers::Options;
use dom_printer::Value;
use dom_reader::{NodeWord, ObserveWords};

/// `observer`: a new observer.
pub fn new_observer<A: Answers>(state: &mut State, owner: Owner, out: &mut A) -> Result<(), Fault>
    ensures handled { IsHandled A.adds owner observer state.old.world state.new.world out.old out.new result }
    ensures names { KeepsNames state.old.names state.new.names result }
{
    state.admit(owner, &[])?;
    let number = state.doc.observer_make(owner)?;
    state.accept(&owner, &Value::Observer(number), out)
}

/// `observe O N ..`: an observer is registered on a node, or its registration there gets other options.
pub fn observe<A: Answers>(
    state: &mut State,
    owner: Owner,
    number: u32,
    node: NodeWord,
    words: ObserveWords,
    out: &mut A,
) -> Result<(), Fault>
    ensures handled { IsHandled A.adds owner (observe number (word_view node) (observe_view words)) state.old.world state.new.world out.old
        out.new result }
    ensures names { KeepsNames state.old.names state.new.names result }
{
    state.admit(owner, &[Operand::Any(node), Operand::Observer(number)])?;
    let node = state.key(owner, node);
    state
        .doc
        .observe(owner, number, node, observer_options(words))?;
    state.accept(&owner, &Value::Nothing, out)
}

/// `take O`: the records of an observer, which are then gone, and their count.
pub fn take_records<A: Answers>(
    state: &mut State,
    owner: Owner,
    number: u32,
    out: &mut A,
) -> Result<(), Fault>
    ensures handled { IsHandled A.adds owner (take number) state.old.world state.new.world out.old out.new result }
    ensures names { KeepsNames state.old.names state.new.names result }
{
    state.admit(owner, &[Operand::Observer(number)])?;
    let records = state.doc.take_records(owner, number);
    let forest = state.doc.forest();
    put_records(state.alloc, forest, owner, number, records.as_slice(), out)?;
    state.accept(&owner, &Value::Count(records.len()), out)
}

/// The options of a line's words.
fn observer_options(words: ObserveWords) -> Options
    ensures { words_of result ≡ observe_view words }
{
    Options {
        child_list: words.child_list,
        attributes: words.attributes,
        character_data: words.character_data,
        subtree: words.subtree,
        attribute_old_value: words.attribute_old_value,
        character_data_old_value: words.character_data_old_value,
        filter: words.filter,
    }
}
