//! At which nodes an owner's iterators stand: their references in a sorted list, where those at one node are found by
//! binary search. It goes from the node that was made last to the first one: an iterator begins at its root, which is
//! made before most nodes in its tree, so that few references are moved for a new one.
ghost use Rattle.std.specs.Prelude.{◌≡◌, ◌≢◌, ◌⊎◌, true, ℕ, ◌<◌, ◌≤◌, length, slice_index_or, IsSome, None};
ghost use Rattle.std.specs.List.{Contains};
ghost use Rattle.std.specs.Option.{ForSome};
ghost use Rattle.std.specs.Vec.{vec_len, vec_capacity};
ghost use Rattle.dom_traversal.specs.References.{AreSorted, AreNodes, AreOutside, AreTested, IsBefore, IsUpTo, reference_at};
ghost use Rattle.dom_tree.specs.Forest.{IsNode};

use dom_tree::Forest;
use node_arena::Key;

/// The node that is the reference of an iterator, and the iterator's number.
#[derive(Clone, Copy)]
pub(crate) struct Reference {
    node: Key,
    number: usize,
}

/// Where the references begin that are not before that of an iterator at a node.
fn place_of(references: &[Reference], node: Key, number: usize) -> usize
    requires { AreSorted references.now }
    ensures within { result ≤ length references.now }
    ensures before { (k : ℕ) (d : Reference) → k < result → IsBefore (slice_index_or references.now k d) (reference_at node number) }
    ensures from { (k : ℕ) (d : Reference) → result ≤ k → k < length references.now → IsUpTo (reference_at node number) (slice_index_or references.now k d) }
{
    references.partition_point(|reference| node < reference.node
        || reference.node == node && reference.number < number)
}

/// The least number, from `least` on, of an iterator whose reference is a node. A place is tried first: where the node is
/// between those of the two references around it, nothing is searched for. It becomes the place of what is searched for.
pub(crate) fn number_at(
    references: &[Reference],
    node: Key,
    least: usize,
    near: &mut usize,
) -> Option<usize>
    requires { AreSorted references.now }
    ensures found { ForSome result (λ n. (least ≤ n) × Contains references.now (reference_at node n)) }
    ensures least { (n : ℕ) → least ≤ n → Contains references.now (reference_at node n) → IsSome result × ForSome result (λ m. m ≤ n) }
{
    let around = references.len().min(*near);
    if are_before(references, around, node) && are_behind(references, around, node) {
        return None;
    }
    let place = place_of(references, node, least);
    *near = place;
    if place < references.len() && references[place].node == node {
        return Some(references[place].number);
    }
    None
}

/// Whether all references before a place are greater nodes than one.
fn are_before(references: &[Reference], place: usize, node: Key) -> bool
    requires sorted { AreSorted references.now }
    requires within { place ≤ length references.now }
    ensures { result ≡ true → (k : ℕ) (d : Reference) → k < place → node < (slice_index_or references.now k d).node }
{
    if place == 0 {
        return true;
    }
    node < references[place - 1].node
}

/// Whether all references from a place on are lesser nodes than one.
fn are_behind(references: &[Reference], place: usize, node: Key) -> bool
    requires sorted { AreSorted references.now }
    requires within { place ≤ length references.now }
    ensures { result ≡ true → (k : ℕ) (d : Reference) → place ≤ k → k < length references.now → (slice_index_or references.now k d).node < node }
{
    if place == references.len() {
        return true;
    }
    references[place].node < node
}

/// Whether no reference is in the tree of `top`, as far as going up from the references shows it. It is given up after as many
/// steps as the tree has nodes below `top`, or the list has references. Of those at one node, one is tested.
pub(crate) fn is_apart(references: &[Reference], forest: &Forest, top: Key) -> bool
    requires sorted { AreSorted references.now }
    requires nodes { AreNodes forest.now references.now }
    requires top_is_node { IsNode forest.now top }
    ensures { result ≡ true → AreOutside forest.now top references.now (length references.now) }
{
    forest.law_nodes_stand_once();
    if references.is_empty() {
        return true;
    }
    let mut place = 0;
    let mut at = references[0].node;
    let mut walked = forest.following(top, top);
    for _ in 0..references.len() {
        let Some(key) = walked else {
            return false;
        };
        if at == top {
            return false;
        }
        let Some((next, above)) = test_on(references, forest, top, place, at) else {
            return true;
        };
        place = next;
        at = above;
        walked = forest.following(key, top);
    }
    false
}

/// Goes on with a test of the references before and at a place: from a node that was reached from that one to the parent, and
/// from a root to the next node with references. Gives none where there is no such node: all references are outside then.
fn test_on(
    references: &[Reference],
    forest: &Forest,
    top: Key,
    place: usize,
    at: Key,
) -> Option<(usize, Key)>
    requires sorted { AreSorted references.now }
    requires nodes { AreNodes forest.now references.now }
    requires top_is_node { IsNode forest.now top }
    requires tested { AreTested forest.now top references.now place at }
    requires other { at ≢ top }
    ensures tested { ForSome result (λ next. AreTested forest.now top references.now next.0 next.1) }
    ensures none { result ≡ None → AreOutside forest.now top references.now (length references.now) }
{
    forest.law_nodes_stand_once();
    if let Some(above) = forest.parent(at) {
        return Some((place, above));
    }
    let behind = place_of(references, references[place].node, usize::MAX);
    if behind == references.len() {
        return None;
    }
    Some((behind, references[behind].node))
}

/// Lists the reference of one iterator more, for which there is room.
pub(crate) fn list(references: &mut Vec<Reference>, number: usize, node: Key)
    requires sorted { AreSorted references.old.items }
    requires unlisted { (x : Reference) → Contains references.old.items x → x.number ≢ number }
    requires room { vec_len references.old < vec_capacity references.old }
    ensures sorted { AreSorted references.new.items }
    ensures listed { Contains references.new.items (reference_at node number) }
    ensures kept { (x : Reference) → Contains references.old.items x → Contains references.new.items x }
    ensures only { (x : Reference) → Contains references.new.items x → (x ≡ reference_at node number) ⊎ Contains references.old.items x }
{
    let place = place_of(references.as_slice(), node, number);
    let _ = references.insert(place, Reference { node, number });
}

/// Brings the reference of an iterator to another node.
pub(crate) fn bring(references: &mut Vec<Reference>, number: usize, from: Key, to: Key)
    requires sorted { AreSorted references.old.items }
    requires there { Contains references.old.items (reference_at from number) }
    requires alone { (x : Reference) → Contains references.old.items x → x.number ≡ number → x.node ≡ from }
    ensures sorted { AreSorted references.new.items }
    ensures listed { Contains references.new.items (reference_at to number) }
    ensures kept { (x : Reference) → (x ≡ reference_at from number → ⊥) → Contains references.old.items x → Contains references.new.items x }
    ensures only { (x : Reference) → Contains references.new.items x → (x ≡ reference_at to number) ⊎ (Contains references.old.items x × (x.number ≢ number)) }
{
    if from == to {
        return;
    }
    let place = place_of(references.as_slice(), from, number);
    let _ = references.remove(place);
    list(references, number, to);
}
