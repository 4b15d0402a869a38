//! Steps that are made outside of shadow trees.
ghost use Rattle.std.specs.Prelude.{◌≡◌};
ghost use Rattle.std.specs.Option.{option_map, ForSome};
ghost use Rattle.dom_tree.specs.Forest.{IsNode, name_of};
ghost use Rattle.dom_slots.specs.Hosts.{HostsAreNodes};
ghost use Rattle.dom_slots.specs.Shadows.{shadows};
ghost use Rattle.dom_slots.specs.Steps.{StepHasNodes, step_node, is_outside, is_apart};

use crate::Slots;
use crate::step::Step;
use dom_tree::Forest;
use node_arena::Key;

impl Slots {
    /// Whether a step that is done was made outside of shadow trees: its node is no shadow root, and neither the parent that
    /// the node left nor the one that it has now stands in a shadow tree (own rule). It costs a look at each of them and the
    /// ways up to their roots.
    pub(super) fn is_apart(&self, forest: &Forest, step: Step, left: Option<Key>) -> bool
        requires hosts { HostsAreNodes forest.now.names self.now.hosts }
        requires nodes { StepHasNodes forest.now.names step }
        requires left { ForSome left (IsNode forest.now) }
        ensures { result ≡ is_apart (shadows forest.now self.now.hosts) (name_of forest.now (step_node step))
            (option_map (name_of forest.now) left) }
    {
        forest.law_nodes_stand_once();
        let node = step.node();
        self.host_of(node).is_none()
            && self.is_outside(forest, left)
            && self.is_outside(forest, forest.parent(node))
    }

    /// Whether a node, if there is one, stands in no shadow tree.
    fn is_outside(&self, forest: &Forest, node: Option<Key>) -> bool
        requires hosts { HostsAreNodes forest.now.names self.now.hosts }
        requires node { ForSome node (IsNode forest.now) }
        ensures { result ≡ is_outside (shadows forest.now self.now.hosts) (option_map (name_of forest.now) node) }
    {
        forest.law_nodes_stand_once();
        match node {
            Some(key) => self.host_of(forest.root(key)).is_none(),
            None => true,
        }
    }
}
