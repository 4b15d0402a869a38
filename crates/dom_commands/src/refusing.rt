//! Why the dispatch of an event is refused, before it is dispatched.
ghost use Rattle.std.specs.Prelude.{◌≡◌, Option};
ghost use Rattle.std.specs.Option.{option_map};
ghost use Rattle.dom_base.specs.declared.Refusal.{Refusal as RefusalOf};
ghost use Rattle.dom_model.specs.Command.{dispatch, EventWords as EventOf};
ghost use Rattle.dom_model.specs.DocumentMachine.{refusal};
ghost use Rattle.dom_admission.specs.Handled.{let_pass};
ghost use Rattle.dom_reader.specs.Views.{word_view};
ghost use Rattle.dom_commands.specs.Machine.{IsAtRest};

use crate::events::admit_event;
use crate::machine::Machine;
use dom_base::{Fault, Owner, Refusal};
use dom_reader::NodeWord;

impl Machine {
    /// Why `dispatch N TYPE .. [related N]` of an owner is refused, if it is.
    pub fn dispatch_refusal(
        &self,
        owner: &Owner,
        target: NodeWord,
        related: Option<NodeWord>,
    ) -> Option<Refusal>
        requires { IsAtRest self.now }
        ensures { (e : EventOf) → result ≡ refusal self.now.world owner.now (dispatch (word_view target) e (option_map word_view related)) }
    {
        self.state.law_names_tell_nodes();
        refusal_in(admit_event(&self.state, *owner, target, related))
    }
}

/// The refusal with which a line was not let pass, if it was not.
fn refusal_in(answer: Result<(), Fault>) -> Option<Refusal>
    ensures { (refusal : Option RefusalOf) → answer ≡ let_pass refusal → result ≡ refusal }
{
    match answer {
        Ok(()) => None,
        Err(Fault::Refused(refusal)) => Some(refusal),
        Err(Fault::Memory) => None,
    }
}
