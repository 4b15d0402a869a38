//! Looks: what a program reads of a node without a line. A look has the refusals that `parent N` has while no turn is open, also if one is.
//! It ends no turn, opens none, and changes nothing.
ghost use Rattle.std.specs.Prelude.{◌≡◌, ◌∷◌, [], IfOk, OnOk, OnErr};
ghost use Rattle.dom_model.specs.Output.{says, replied, a_tree};
ghost use Rattle.dom_reader.specs.Views.{word_view};
ghost use Rattle.dom_admission.specs.Handled.{let_pass, passing};
ghost use Rattle.dom_query_commands.specs.Looks.{links_of, look_refusal, node_alone, seen_at, structure_of, IsAllowed};
ghost use Rattle.dom_commands.specs.Machine.{IsAtRest};

use crate::machine::Machine;
use dom_answers::Answers;
use dom_base::{Fault, Owner};
use dom_query_commands::{NodeLinks, StructureRow, looks};
use dom_reader::NodeWord;

impl Machine {
    /// The nodes around a node. It takes no memory, so that the only errors are refusals.
    pub fn links(&self, owner: &Owner, node: NodeWord) -> Result<NodeLinks, Fault>
        requires { IsAtRest self.now }
        ensures passed { passing result ≡ let_pass (look_refusal self.now.world owner.now (word_view node)) }
        ensures links { IfOk result (λ links. links ≡ seen_at links_of self.now.world owner.now (word_view node)) }
    {
        self.state.law_names_tell_nodes();
        looks::links(&self.state, *owner, node)
    }

    /// Puts what a node has itself, as a reply with the tree that has this node alone, or nothing. The only error but refusals is memory refused.
    pub fn describe<A: Answers>(
        &self,
        owner: &Owner,
        node: NodeWord,
        out: &mut A,
    ) -> Result<(), Fault>
        requires { IsAtRest self.now }
        ensures allowed { IsAllowed (look_refusal self.now.world owner.now (word_view node)) result }
        ensures told { OnOk result (A.adds out.old (says owner.now (replied (a_tree (seen_at node_alone self.now.world owner.now (word_view node)))) ∷ [])
            out.new) }
        ensures err { OnErr result (A.adds out.old [] out.new) }
    {
        self.state.law_names_tell_nodes();
        looks::describe(&self.state, *owner, node, out)
    }

    /// The nodes of a node's tree, from the node itself down, in tree order, each with its kind and its parent's place in the list. The
    /// only error but refusals is memory refused.
    pub fn structure(&self, owner: &Owner, node: NodeWord) -> Result<Vec<StructureRow>, Fault>
        requires { IsAtRest self.now }
        ensures allowed { IsAllowed (look_refusal self.now.world owner.now (word_view node)) result }
        ensures rows { IfOk result (λ rows. rows.items ≡ seen_at structure_of self.now.world owner.now (word_view node)) }
    {
        self.state.law_names_tell_nodes();
        looks::structure(&self.state, *owner, node)
    }
}
