//! New nodes (DOM Standard, createElement(); concept: clone a single node).
ghost use Rattle.std.specs.Prelude.{◌≡◌, ◌↔◌, ◌⊎◌, ◌++◌, ◌∷◌, [], length, true, false, Some, string_bytes, IfOk, IfErr, OnOk, OnErr};
ghost use Rattle.std.specs.Option.{ForSome};
ghost use Rattle.dom_base.specs.declared.Refusal.{Refusal as RefusalOf};
ghost use Rattle.dom_base.specs.declared.Refusal.TheVariants.{Limit};
ghost use Rattle.dom_model.specs.CommandRefusals.{past_limit};
ghost use Rattle.dom_model.specs.Tree.{is_shadow, kind_of, node_in};
ghost use Rattle.dom_model.specs.Part.{next_name};
ghost use Rattle.dom_model.specs.Steps.{make};
ghost use Rattle.dom_model.specs.Changes.{doing};
ghost use Rattle.dom_model.specs.World.{part_of, is_there};
ghost use Rattle.dom_tree.specs.Forest.{node_from};
ghost use Rattle.dom_mutation.specs.Doc.{HoldsNode, made, name_in, owner_in, trees_in, adding_refusal, is_misnamed};

use crate::{Doc, is_name};
use dom_base::{Fault, Kind, Owner, Refusal};
use dom_tree::NodeData;
use node_arena::Key;

impl Doc {
    /// Makes a node with an owner's next number, in a tree of its own, and gives its key. Refused with `InvalidCharacter` where it
    /// is an element whose name is none (a letter or `_`, then letters, digits, `-` and `_`), and then with `Limit` where the owner
    /// has as many nodes as it may (own rules); then, as where memory is refused, nothing is changed.
    #[inline(always)]
    pub fn add(&mut self, owner: Owner, node: NodeData) -> Result<Key, Fault>
        requires owner_is_there { is_there self.old.world owner ≡ true }
        requires no_shadow { is_shadow node.kind ≡ false }
        requires document_is_node { ForSome node.document (HoldsNode self.old) }
        ensures key { IfOk result (λ key. key ≡ length self.old.names) }
        ensures names { OnOk result (self.new.names ≡ self.old.names ++ next_name (part_of self.old.world owner) ∷ []) }
        ensures world { OnOk result (self.new.world ≡ made owner
            (doing (make (node_from self.old.names (next_name (part_of self.old.world owner)) node))) self.old.world) }

        // A refusal is one of these, in their order. Nothing else but memory stops a new node.
        ensures refused { (r : RefusalOf) → (result ≡ Err (Fault.Refused r)) ↔
            (adding_refusal (part_of self.old.world owner) node.kind (string_bytes node.element) ≡ Some r) }
        ensures err { OnErr result (self.new ≡ self.old) }
    {
        if is_misnamed(&node) {
            return Err(Fault::Refused(Refusal::InvalidCharacter));
        }
        self.parts.laws();
        self.parts.add(owner, node)
    }

    /// Makes a node of the kind and the name of one that is there, with its owner's next number, in a tree of its own, and gives its
    /// key: a clone, or a part of one (DOM Standard, concept: clone a single node). The name was tested when the first node was
    /// made. Refused with `Limit` where the owner has as many nodes as it may; then, as where memory is refused, nothing is changed.
    pub fn add_clone(&mut self, of: Key, node: NodeData) -> Result<Key, Fault>
        requires of_is_node { HoldsNode self.old of }
        requires kind { node.kind ≡ kind_of (trees_in self.old of) (name_in self.old of) }
        requires element { string_bytes node.element ≡ (node_in (trees_in self.old of) (name_in self.old of)).element }
        requires no_shadow { is_shadow node.kind ≡ false }
        requires document_is_node { ForSome node.document (HoldsNode self.old) }
        ensures key { IfOk result (λ key. key ≡ length self.old.names) }
        ensures names { OnOk result (self.new.names ≡ self.old.names ++ next_name (part_of self.old.world (owner_in self.old of)) ∷ []) }
        ensures world { OnOk result (self.new.world ≡ made (owner_in self.old of)
            (doing (make (node_from self.old.names (next_name (part_of self.old.world (owner_in self.old of))) node))) self.old.world) }

        // An owner's nodes are at most 1,000,000. Nothing else but memory stops one more.
        ensures limit { (result ≡ Err (Fault.Refused Limit)) ↔ (past_limit (part_of self.old.world (owner_in self.old of)).node_count 1 ≡ true) }
        ensures other { IfErr result (λ fault. (fault ≡ Fault.Refused Limit) ⊎ (fault ≡ Fault.Memory)) }
        ensures err { OnErr result (self.new ≡ self.old) }
    {
        self.parts.laws();
        let owner = self.parts.owner(of);
        self.parts.add(owner, node)
    }
}

/// Whether a node is an element whose name is none.
fn is_misnamed(node: &NodeData) -> bool
    ensures { result ≡ is_misnamed node.now.kind (string_bytes node.now.element) }
{
    matches!(node.kind, Kind::Element) && !is_name(node.element.as_bytes())
}
