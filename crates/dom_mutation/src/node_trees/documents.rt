//! Node documents of whole trees, and the shadow roots below a node (DOM Standard, concepts: node document, adopt).
ghost use Rattle.std.specs.Prelude.{◌≡◌, ◌++◌, All, fold, map, IfOk, OnOk};
ghost use Rattle.dom_model.specs.TreeChanges.{change_subtree, with_document};
ghost use Rattle.dom_tree.specs.Forest.{IsNode, name_of};
ghost use Rattle.dom_slots.specs.Hosts.{HostsAreNodes};
ghost use Rattle.dom_mutation.specs.Documents.{under_each, roots_within};

use dom_slots::Slots;
use dom_tree::Forest;
use node_arena::Key;
use std::alloc::{AllocError, Global};

/// Gives a node and all below it a node document.
pub(crate) fn set_documents(forest: &mut Forest, top: Key, document: Key)
    requires top_is_node { IsNode forest.old top }
    requires document_is_node { IsNode forest.old document }
    ensures names { forest.new.names ≡ forest.old.names }
    ensures trees { forest.new.trees ≡ change_subtree (with_document (name_of forest.old document)) (name_of forest.old top) forest.old.trees }
{
    forest.law_nodes_stand_once();
    let mut at = Some(top);
    while let Some(node) = at {
        forest.set_document(node, Some(document));
        at = forest.following(node, top);
    }
}

/// Gives some nodes, with all below each, a node document.
pub(crate) fn set_each(forest: &mut Forest, tops: &[Key], document: Key)
    requires tops_are_nodes { All (IsNode forest.old) tops.now }
    requires document_is_node { IsNode forest.old document }
    ensures names { forest.new.names ≡ forest.old.names }
    ensures trees { forest.new.trees ≡ fold (under_each (name_of forest.old document)) forest.old.trees (map (name_of forest.old) tops.now) }
{
    for top in tops {
        set_documents(forest, *top, document);
    }
}

/// The shadow roots of the hosts in the tree of a node, in tree order, behind each those of the hosts in its own shadow tree,
/// and so on, so many shadow trees deep.
pub(crate) fn roots_below(
    alloc: Global,
    forest: &Forest,
    slots: &Slots,
    top: Key,
    depth: u8,
) -> Result<Vec<Key>, AllocError>
    requires top_is_node { IsNode forest.now top }
    requires hosts { HostsAreNodes forest.now.names slots.now.hosts }
    ensures names { IfOk result (λ keys. map (name_of forest.now) keys.items ≡
        roots_within depth forest.now slots.now.hosts (name_of forest.now top)) }
    ensures nodes { IfOk result (λ keys. All (IsNode forest.now) keys.items) }
{
    let mut roots = Vec::new(alloc);
    add_roots(forest, slots, top, depth, &mut roots)?;
    Ok(roots)
}

/// Puts those shadow roots behind others.
fn add_roots(
    forest: &Forest,
    slots: &Slots,
    top: Key,
    depth: u8,
    roots: &mut Vec<Key>,
) -> Result<(), AllocError>
    requires top_is_node { IsNode forest.now top }
    requires hosts { HostsAreNodes forest.now.names slots.now.hosts }
    requires nodes { All (IsNode forest.now) roots.old.items }
    ensures names { OnOk result (map (name_of forest.now) roots.new.items ≡ map (name_of forest.now) roots.old.items ++
        roots_within depth forest.now slots.now.hosts (name_of forest.now top)) }
    ensures nodes { OnOk result (All (IsNode forest.now) roots.new.items) }
{
    if depth == 0 {
        return Ok(());
    }
    forest.law_nodes_stand_once();
    let mut at = Some(top);
    while let Some(node) = at {
        if let Some(root) = slots.root_of(node) {
            roots.push(root)?;
            add_roots(forest, slots, root, depth - 1, roots)?;
        }
        at = forest.following(node, top);
    }
    Ok(())
}
