//! A list of any length: its items are counted and found by walking siblings, one is added, and the last one comes first.
ghost use Rattle.std.specs.Prelude.{◌≡◌, ◌≢◌, ◌++◌, ◌∷◌, [], ℕ, Some, None, length, slice_get, IfOk, OnOk, OnErr};
ghost use Rattle.std.specs.Option.{option_map, ForSome};
ghost use Rattle.dom_model.specs.Names.{last_of};
ghost use Rattle.dom_model.specs.Tree.{children_of, node_in, parent_of};
ghost use Rattle.dom_tree.specs.Forest.{IsNode, name_of, next_name, node_from};
ghost use Rattle.dom_callers.specs.Items.{HasTurned};

use dom_base::{Fault, Owner};
use dom_tree::{Forest, NodeData};
use node_arena::Key;

/// How many children a node has, counted from sibling to sibling (own rule).
pub fn count_items(forest: &Forest, list: Key) -> usize
    requires { IsNode forest.now list }
    ensures { result ≡ length (children_of forest.now.trees (name_of forest.now list)) }
{
    forest.law_children();
    let mut count = 0;
    let mut at = forest.first(list);
    while let Some(item) = at {
        count += 1;
        at = forest.next(item);
    }
    count
}

/// The child of a node at an index, found from sibling to sibling; none where there are not so many (own rule). It stands at no other
/// index.
pub fn item_at(forest: &Forest, list: Key, index: usize) -> Option<Key>
    requires { IsNode forest.now list }
    ensures value { option_map (name_of forest.now) result ≡ slice_get (children_of forest.now.trees (name_of forest.now list)) index }
    ensures node { ForSome result (IsNode forest.now) }
    ensures once { ForSome result (λ k. (i : ℕ) →
        slice_get (children_of forest.now.trees (name_of forest.now list)) i ≡ Some (name_of forest.now k) → i ≡ index) }
{
    forest.law_children();
    let mut left = index;
    let mut at = forest.first(list);
    while let Some(item) = at {
        if left == 0 {
            return Some(item);
        }
        left -= 1;
        at = forest.next(item);
    }
    None
}

/// Makes a node that holds what is given, the last child of a node, and answers its key (own rule). It is refused as `Forest::add` is,
/// and then the forest is as it was.
pub fn add_item(forest: &mut Forest, owner: Owner, list: Key, item: NodeData) -> Result<Key, Fault>
    requires list_is_node { IsNode forest.old list }
    requires document_is_node { ForSome item.document (IsNode forest.old) }
    ensures names { OnOk result (forest.new.names ≡ forest.old.names ++ next_name owner forest.old.names ∷ []) }
    ensures item { IfOk result (λ k.
        node_in forest.new.trees (name_of forest.new k) ≡ node_from forest.old.names (next_name owner forest.old.names) item) }
    ensures last { IfOk result (λ k. children_of forest.new.trees (name_of forest.old list) ≡
        children_of forest.old.trees (name_of forest.old list) ++ name_of forest.new k ∷ []) }
    ensures others { OnOk result ((k : ℕ) → IsNode forest.old k → k ≢ list →
        children_of forest.new.trees (name_of forest.old k) ≡ children_of forest.old.trees (name_of forest.old k)) }
    ensures held { OnOk result ((k : ℕ) → IsNode forest.old k →
        node_in forest.new.trees (name_of forest.old k) ≡ node_in forest.old.trees (name_of forest.old k)) }
    ensures err { OnErr result (forest.new ≡ forest.old) }
{
    let key = forest.add(owner, item)?;
    forest.link_before(list, key, None);
    Ok(key)
}

/// The last child of a node comes before its siblings, and is the answer; of a node without children, none (own rule).
pub fn last_comes_first(forest: &mut Forest, list: Key) -> Option<Key>
    requires { IsNode forest.old list }
    ensures item { option_map (name_of forest.old) result ≡ last_of (children_of forest.old.trees (name_of forest.old list)) }
    ensures names { forest.new.names ≡ forest.old.names }
    ensures turned { ForSome result (λ k. HasTurned (name_of forest.old k)
        (children_of forest.old.trees (name_of forest.old list)) (children_of forest.new.trees (name_of forest.old list))) }
    ensures others { (k : ℕ) → IsNode forest.old k → k ≢ list →
        children_of forest.new.trees (name_of forest.old k) ≡ children_of forest.old.trees (name_of forest.old k) }
    ensures parents { ForSome result (λ j. (k : ℕ) → IsNode forest.old k → k ≢ j →
        parent_of forest.new.trees (name_of forest.old k) ≡ parent_of forest.old.trees (name_of forest.old k)) }
    ensures none { result ≡ None → forest.new ≡ forest.old }
{
    forest.law_nodes_stand_once();
    forest.law_children();
    let item = forest.last(list)?;
    forest.unlink(item);
    let first = forest.first(list);
    forest.link_before(list, item, first);
    Some(item)
}
