//! The visits of an event, by names.
ghost use Rattle.std.specs.Prelude.{◌≡◌, ℕ, ◌++◌, ◌∷◌, ◌<◌, ◌||◌, [], true, false, filter, length, map, reverse, slice_get, if◌then◌else◌, IfOk, OnOk, Some};
ghost use Rattle.std.specs.List.{AllByRecursion};
ghost use Rattle.std.specs.Option.{option_map, ForSome};
ghost use Rattle.dom_base.specs.declared.NodeName.{NodeName as Name};
ghost use Rattle.dom_model.specs.Dispatch.{is_at_target, visit_of, visits_of};
ghost use Rattle.dom_model.specs.Names.{name_eq};
ghost use Rattle.dom_model.specs.Paths.{View, views};
ghost use Rattle.dom_model.specs.Tree.{has_node};
ghost use Rattle.dom_model.specs.World.{part_of};
ghost use Rattle.dom_path.specs.Items.{HasNodes, ShowsNodes, view_named};
ghost use Rattle.dom_tree.specs.Forest.{IsNode, name_of};
ghost use Rattle.dom_mutation.specs.Doc.{HoldsNode, name_in};
ghost use Rattle.dom_commands.specs.Machine.{IsAtRest};
ghost use Rattle.dom_commands.specs.Visits.{path_at, visit_shown, IsShownOf};

use crate::machine::Machine;
use dom_admission::{State, put_names};
use dom_base::NodeName;
use dom_path::{Item, Path};
use dom_reader::NodeWord;
use dom_tree::Forest;
use node_arena::Key;
use std::alloc::{AllocError, Global};
use std::rc::Rc;

/// One visit of an event at a node, with what listeners see of the event there (DOM Standard, concept: dispatch; interface Event: eventPhase, target,
/// relatedTarget and composedPath()).
#[derive(Drop)]
pub struct Visit {
    /// The node that is visited.
    pub current: NodeName,
    /// 1 while capturing, 2 at the target, 3 while bubbling.
    pub phase: u8,
    /// Whether listeners are called that capture.
    pub capturing: bool,
    pub target: NodeName,
    pub related: Option<NodeName>,
    /// The nodes of the composed path that the event shows there. Visits that show the same ones may hold them in common.
    pub path: Rc<Vec<NodeName>>,
}

/// The composed path that an event showed where it was asked for last. It serves all items in the same tree.
#[derive(Drop)]
struct Shown {
    last: Option<ShownAt>,
    alloc: Global,
}

/// The composed path that an event shows at an item of its path, by names.
#[derive(Drop)]
struct ShownAt {
    at: usize,
    nodes: Rc<Vec<NodeName>>,
}

impl Machine {
    /// The visits of an event at a target, as the trees are now: those of capturing listeners from the end of its path, and then the others from its
    /// front; where the event does not bubble, only of the nodes that are its target as seen from themselves (DOM Standard, concept: dispatch).
    /// The only error is memory refused.
    pub fn visits(
        &self,
        target: NodeName,
        related: Option<NodeName>,
        bubbles: bool,
        composed: bool,
    ) -> Result<Vec<Visit>, AllocError>
        requires sound { IsAtRest self.now }
        requires target { has_node (part_of self.now.world target.owner).trees target ≡ true }
        requires related { ForSome related (λ x. has_node (part_of self.now.world x.owner).trees x ≡ true) }
        ensures { IfOk result (λ visits. map visit_shown visits.items ≡ visits_of name_eq bubbles (views self.now.world target related composed)) }
    {
        self.state.law_names_tell_nodes();
        let target = key_of(&self.state, target);
        let related = key_of_any(&self.state, related);
        let (forest, slots) = self.state.forest_and_slots();
        let path = Path::build(self.alloc, forest, slots, target, related, composed)?;
        visits_along(self.alloc, forest, &path, bubbles)
    }
}

/// The key of a node that is there.
fn key_of(state: &State, node: NodeName) -> Key
    requires { has_node (part_of state.now.world node.owner).trees node ≡ true }
    ensures node { HoldsNode state.now result }
    ensures name { name_in state.now result ≡ node }
{
    state.key(node.owner, NodeWord::Own(node.number))
}

/// The key of a node that is there, if one is given.
fn key_of_any(state: &State, node: Option<NodeName>) -> Option<Key>
    requires { ForSome node (λ x. has_node (part_of state.now.world x.owner).trees x ≡ true) }
    ensures node { ForSome result (HoldsNode state.now) }
    ensures name { option_map (name_in state.now) result ≡ node }
{
    match node {
        Some(node) => Some(key_of(state, node)),
        None => None,
    }
}

/// The visits of an event along its path.
fn visits_along(
    alloc: Global,
    forest: &Forest,
    path: &Path,
    bubbles: bool,
) -> Result<Vec<Visit>, AllocError>
    requires nodes { AllByRecursion (HasNodes forest.now.names) path.now.items }
    requires shown { AllByRecursion (ShowsNodes forest.now.names) path.now.views }
    ensures { IfOk result (λ visits. map visit_shown visits.items ≡ visits_of name_eq bubbles (map (view_named forest.now.names) path.now.views)) }
{
    let mut shown = Shown { last: None, alloc };
    let mut visits = Vec::new(alloc);
    capture(forest, path, &mut shown, &mut visits)?;
    bubble(forest, path, bubbles, &mut shown, &mut visits)?;
    Ok(visits)
}

/// Puts the visits of a path from its last item to its first behind others.
fn capture(
    forest: &Forest,
    path: &Path,
    shown: &mut Shown,
    visits: &mut Vec<Visit>,
) -> Result<(), AllocError>
    requires nodes { AllByRecursion (HasNodes forest.now.names) path.now.items }
    requires paths { AllByRecursion (ShowsNodes forest.now.names) path.now.views }
    requires shown { IsShownOf forest.now.names path.now shown.old }
    ensures visits { OnOk result (map visit_shown visits.new.items ≡ map visit_shown visits.old.items ++
        map (visit_of name_eq true) (reverse (map (view_named forest.now.names) path.now.views))) }
    ensures shown { OnOk result (IsShownOf forest.now.names path.now shown.new) }
{
    let mut at = path.items().len();
    while at > 0 {
        at -= 1;
        let visit = shown.visit(forest, path, at, true)?;
        visits.push(visit)?;
    }
    Ok(())
}

/// Puts the visits of a path from its first item to its last behind others: where the event does not bubble, only of those that are the event's target
/// as seen from themselves.
fn bubble(
    forest: &Forest,
    path: &Path,
    bubbles: bool,
    shown: &mut Shown,
    visits: &mut Vec<Visit>,
) -> Result<(), AllocError>
    requires nodes { AllByRecursion (HasNodes forest.now.names) path.now.items }
    requires paths { AllByRecursion (ShowsNodes forest.now.names) path.now.views }
    requires shown { IsShownOf forest.now.names path.now shown.old }
    ensures visits { OnOk result (map visit_shown visits.new.items ≡ map visit_shown visits.old.items ++
        map (visit_of name_eq false) (filter (λ v. bubbles || is_at_target name_eq v) (map (view_named forest.now.names) path.now.views))) }
{
    for at in 0..path.items().len() {
        let item = path.items()[at];
        let is_visited = is_visited(forest, item, bubbles);
        put_if(forest, path, at, is_visited, shown, visits)?;
    }
    Ok(())
}

/// Puts the visit of an item of a path, while bubbling, behind others, if it is visited then.
fn put_if(
    forest: &Forest,
    path: &Path,
    at: usize,
    is_visited: bool,
    shown: &mut Shown,
    visits: &mut Vec<Visit>,
) -> Result<(), AllocError>
    requires within { at < length path.now.items }
    requires nodes { AllByRecursion (HasNodes forest.now.names) path.now.items }
    requires paths { AllByRecursion (ShowsNodes forest.now.names) path.now.views }
    requires shown { IsShownOf forest.now.names path.now shown.old }
    ensures visits { OnOk result ((view : View ℕ) → slice_get path.now.views at ≡ Some view → map visit_shown visits.new.items ≡
        (if is_visited then map visit_shown visits.old.items ++ visit_of name_eq false (view_named forest.now.names view) ∷ []
        else map visit_shown visits.old.items)) }
    ensures shown { OnOk result (IsShownOf forest.now.names path.now shown.new) }
{
    if !is_visited {
        return Ok(());
    }
    let visit = shown.visit(forest, path, at, false)?;
    visits.push(visit)?;
    Ok(())
}

impl Shown {
    /// The visit at an item of a path, while capturing or while bubbling.
    fn visit(
        &mut self,
        forest: &Forest,
        path: &Path,
        at: usize,
        capturing: bool,
    ) -> Result<Visit, AllocError>
        requires within { at < length path.now.items }
        requires nodes { AllByRecursion (HasNodes forest.now.names) path.now.items }
        requires paths { AllByRecursion (ShowsNodes forest.now.names) path.now.views }
        requires shown { IsShownOf forest.now.names path.now self.old }
        ensures visit { IfOk result (λ visit. (view : View ℕ) → slice_get path.now.views at ≡ Some view →
            visit_shown visit ≡ visit_of name_eq capturing (view_named forest.now.names view)) }
        ensures shown { OnOk result (IsShownOf forest.now.names path.now self.new) }
    {
        let nodes = self.nodes(forest, path, at)?;
        let item = path.items()[at];
        Ok(visit_at(forest, item, capturing, nodes))
    }

    /// The nodes that the event shows at an item, by names: those of the item where they were asked for last, if both stand in one tree (DOM Standard,
    /// composedPath()).
    fn nodes(
        &mut self,
        forest: &Forest,
        path: &Path,
        at: usize,
    ) -> Result<Rc<Vec<NodeName>>, AllocError>
        requires within { at < length path.now.items }
        requires paths { AllByRecursion (ShowsNodes forest.now.names) path.now.views }
        requires shown { IsShownOf forest.now.names path.now self.old }
        ensures nodes { IfOk result (λ nodes. path_at forest.now.names path.now at ≡ Some nodes.value.items) }
        ensures shown { OnOk result (IsShownOf forest.now.names path.now self.new) }
    {
        if let Some(last) = &self.last {
            if path.share_tree(at, last.at) {
                return last.nodes.clone();
            }
        }
        let nodes = Rc::new(self.alloc, composed_path(self.alloc, forest, path, at)?)?;
        self.last = Some(ShownAt {
            at,
            nodes: nodes.clone()?,
        });
        Ok(nodes)
    }
}

/// The nodes that an event shows at an item of its path, by names (DOM Standard, composedPath()).
fn composed_path(
    alloc: Global,
    forest: &Forest,
    path: &Path,
    at: usize,
) -> Result<Vec<NodeName>, AllocError>
    requires within { at < length path.now.items }
    requires paths { AllByRecursion (ShowsNodes forest.now.names) path.now.views }
    ensures { IfOk result (λ nodes. path_at forest.now.names path.now at ≡ Some nodes.items) }
{
    let keys = path.composed_path(at)?;
    let mut names = Vec::new(alloc);
    put_names(&mut names, forest, keys.as_slice())?;
    Ok(names)
}

/// Whether an item is visited while an event bubbles: it does, or the node is its target as seen from itself (DOM Standard, concept: dispatch).
fn is_visited(forest: &Forest, item: Item, bubbles: bool) -> bool
    requires { HasNodes forest.now.names item }
    ensures { result ≡ (bubbles || name_eq (name_of forest.now item.node) (name_of forest.now item.event_target)) }
{
    bubbles || is_at_target(forest, item)
}

/// Whether the node of an item is the event's target as seen from itself.
fn is_at_target(forest: &Forest, item: Item) -> bool
    requires { HasNodes forest.now.names item }
    ensures { result ≡ name_eq (name_of forest.now item.node) (name_of forest.now item.event_target) }
{
    forest.law_nodes_stand_once();
    item.node == item.event_target
}

/// The phase of a visit: 2 at a target, else 1 while capturing and 3 while bubbling (DOM Standard, 2.2: eventPhase).
fn phase(at_target: bool, capturing: bool) -> u8
    ensures { result ≡ (if at_target then 2 else (if capturing then 1 else 3)) }
{
    if at_target {
        2
    } else if capturing {
        1
    } else {
        3
    }
}

/// The visit of the node of an item, while capturing or while bubbling, where the event shows these nodes.
fn visit_at(forest: &Forest, item: Item, capturing: bool, nodes: Rc<Vec<NodeName>>) -> Visit
    requires { HasNodes forest.now.names item }
    ensures { visit_shown result ≡ visit_of name_eq capturing (record {
      node = name_of forest.now item.node;
      target = name_of forest.now item.event_target;
      related = option_map (name_of forest.now) item.related;
      path = nodes.value.items;
    }) }
{
    let current = forest.name(item.node);
    let target = forest.name(item.event_target);
    let related = name_of_any(forest, item.related);
    Visit {
        current,
        phase: phase(is_at_target(forest, item), capturing),
        capturing,
        target,
        related,
        path: nodes,
    }
}

/// The name of a node, if there is one.
fn name_of_any(forest: &Forest, node: Option<Key>) -> Option<NodeName>
    requires { ForSome node (IsNode forest.now) }
    ensures { result ≡ option_map (name_of forest.now) node }
{
    match node {
        Some(node) => Some(forest.name(node)),
        None => None,
    }
}
