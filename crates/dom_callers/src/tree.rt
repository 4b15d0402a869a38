//! Callers of `dom_tree`.
ghost use Rattle.std.specs.Prelude.{◌≡◌, ◌≢◌, ℕ, true, false, Some, is_some};
ghost use Rattle.std.specs.Option.{option_map, option_and_then};
ghost use Rattle.dom_base.specs.declared.NodeName.{NodeName as Name};
ghost use Rattle.dom_model.specs.Names.{first_of};
ghost use Rattle.dom_model.specs.Tree.{children_of, node_in};
ghost use Rattle.dom_tree.specs.Forest.{IsNode, name_of};
ghost use Rattle.dom_callers.specs.Labels.{text_at};

use dom_base::{DomStr, Kind};
use dom_tree::Forest;
use node_arena::Key;

/// What stands on a button: the data of its first child, where that is a Text (own rule).
pub fn label(forest: &Forest, button: Key) -> Option<&[u16]>
    requires { IsNode forest.now button }
    ensures { option_map (λ text. text.now) result ≡ option_and_then (text_at forest.now.trees)
        (first_of (children_of forest.now.trees (name_of forest.now button))) }
{
    let child = forest.first(button)?;
    match forest.kind(child) {
        Kind::Text => Some(forest.text(child)),
        _ => None,
    }
}

/// Gives a button another label: the data of its first child, where that is a Text. It answers whether there was one; where not, the
/// forest stays as it was (own rule).
pub fn relabel(forest: &mut Forest, button: Key, text: DomStr) -> bool
    requires { IsNode forest.old button }
    ensures asked { result ≡ is_some (option_and_then (text_at forest.old.trees)
        (first_of (children_of forest.old.trees (name_of forest.old button)))) }
    ensures label { result ≡ true → option_and_then (text_at forest.new.trees)
        (first_of (children_of forest.new.trees (name_of forest.old button))) ≡ Some text.items }
    ensures names { forest.new.names ≡ forest.old.names }
    ensures children { (x : Name) → children_of forest.new.trees x ≡ children_of forest.old.trees x }
    ensures held { (k : ℕ) → IsNode forest.old k →
        first_of (children_of forest.old.trees (name_of forest.old button)) ≢ Some (name_of forest.old k) →
        node_in forest.new.trees (name_of forest.old k) ≡ node_in forest.old.trees (name_of forest.old k) }
    ensures left { result ≡ false → forest.new ≡ forest.old }
{
    let Some(child) = forest.first(button) else {
        return false;
    };
    if !matches!(forest.kind(child), Kind::Text) {
        return false;
    }
    forest.set_data(child, text);
    true
}
