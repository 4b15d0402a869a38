//! Looks: what a program reads of a node without a command.
ghost use Rattle.std.specs.Prelude.{◌≡◌, ◌∷◌, [], map, true, false, Err, IfOk, OnOk, OnErr};
ghost use Rattle.dom_base.specs.declared.Fault.TheVariants.{Memory};
ghost use Rattle.dom_model.specs.Output.{says, replied, a_tree};
ghost use Rattle.dom_reader.specs.Views.{word_view};
ghost use Rattle.dom_admission.specs.Handled.{let_pass, passing};
ghost use Rattle.dom_answers.specs.Told.{empty, shown_output, told};
ghost use Rattle.dom_query_commands.specs.Looks.{links_of, look_refusal, node_alone, seen_at, structure_of, IsAllowed};

use crate::document::Document;
use dom_answers::Answer;
use dom_base::{Fault, Owner};
use dom_commands::{NodeLinks, StructureRow};
use dom_reader::NodeWord;

impl Document {
    /// The nodes around a node of an owner's trees: its parent, first and last child, previous and next sibling. It takes no memory.
    ///
    /// A look is refused as the call `parent` of this node is. It runs no task and changes nothing. After a call that ran out of memory every look
    /// answers `Fault::Memory`.
    pub fn links(&self, owner: &Owner, node: NodeWord) -> Result<NodeLinks, Fault>
        ensures passed { self.now.has_failed ≡ false → passing result ≡ let_pass (look_refusal self.now.world owner.now (word_view node)) }
        ensures links { IfOk result (λ links. links ≡ seen_at links_of self.now.world owner.now (word_view node)) }
        ensures failed { self.now.has_failed ≡ true → result ≡ Err Memory }
    {
        if self.has_failed {
            return Err(Fault::Memory);
        }
        self.machine.links(owner, node)
    }

    /// What a node of an owner's trees has itself: its kind, an element's local name and attributes in order, the data of a Text or a
    /// Comment. The answer is then one reply, in place of what was there: the tree that has this node alone. It is empty after an error.
    ///
    /// A look is refused as the call `parent` of this node is. It runs no task and changes nothing. The only other error is out of memory, now or in a
    /// call before. A look that ran out of memory leaves the document usable.
    pub fn describe(&self, owner: &Owner, node: NodeWord, answer: &mut Answer) -> Result<(), Fault>
        ensures allowed { self.now.has_failed ≡ false → IsAllowed (look_refusal self.now.world owner.now (word_view node)) result }
        ensures told { OnOk result (told answer.new ≡ map shown_output (
            says owner.now (replied (a_tree (seen_at node_alone self.now.world owner.now (word_view node)))) ∷ [])) }
        ensures nothing { OnErr result (answer.new ≡ empty) }
        ensures failed { self.now.has_failed ≡ true → result ≡ Err Memory }
    {
        answer.clear();
        if self.has_failed {
            return Err(Fault::Memory);
        }
        let done = self.machine.describe(owner, node, answer);
        if done.is_err() {
            answer.clear();
        }
        done
    }

    /// The nodes of a node's tree in an owner's trees, from the node itself down, in tree order: of each its name, its kind, and at which
    /// place of this list its parent stands.
    ///
    /// A look is refused as the call `parent` of this node is. It runs no task and changes nothing. The only other error is out of memory, now or in a
    /// call before. A look that ran out of memory leaves the document usable.
    pub fn structure(&self, owner: &Owner, node: NodeWord) -> Result<Vec<StructureRow>, Fault>
        ensures allowed { self.now.has_failed ≡ false → IsAllowed (look_refusal self.now.world owner.now (word_view node)) result }
        ensures rows { IfOk result (λ rows. rows.items ≡ seen_at structure_of self.now.world owner.now (word_view node)) }
        ensures failed { self.now.has_failed ≡ true → result ≡ Err Memory }
    {
        if self.has_failed {
            return Err(Fault::Memory);
        }
        self.machine.structure(owner, node)
    }
}
