//! How an accepted command ends.
ghost use Rattle.std.specs.Prelude.{◌≡◌, ◌∷◌, [], None};
ghost use Rattle.dom_model.specs.Output.{a_node, says, replied};
ghost use Rattle.dom_model.specs.Turns.{opening_turn};
ghost use Rattle.dom_printer.specs.Replies.{value_view};
ghost use Rattle.dom_admission.specs.Handled.{IsDone};

use crate::state::State;
use dom_answers::Answers;
use dom_base::{Fault, NodeName, Owner};
use dom_printer::Value;

impl State {
    /// Ends an accepted command: its owner's turn is open, and the reply is put. It is in line, since most lines end with it.
    #[inline(always)]
    pub fn accept<A: Answers>(
        &mut self,
        owner: &Owner,
        value: &Value<'_>,
        out: &mut A,
    ) -> Result<(), Fault>
        ensures done { IsDone A.adds None (opening_turn self.old.world owner.now, says owner.now (replied (value_view value.now)) ∷ []) self.old.world
            self.new.world out.old out.new result }
        ensures names { self.new.names ≡ self.old.names }
    {
        self.open_turn(owner);
        out.reply(owner, value)?;
        Ok(())
    }

    /// Ends an accepted command whose reply has a node, as `accept` does, and makes no room for other values.
    #[inline(always)]
    pub fn accept_node<A: Answers>(
        &mut self,
        owner: &Owner,
        node: &NodeName,
        out: &mut A,
    ) -> Result<(), Fault>
        ensures done { IsDone A.adds None (opening_turn self.old.world owner.now, says owner.now (replied (a_node node.now)) ∷ []) self.old.world
            self.new.world out.old out.new result }
        ensures names { self.new.names ≡ self.old.names }
    {
        self.open_turn(owner);
        out.reply_node(owner, node)?;
        Ok(())
    }
}
