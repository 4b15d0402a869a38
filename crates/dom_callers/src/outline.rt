//! All headings of a document, found by a walker.
ghost use Rattle.std.specs.Prelude.{◌≡◌, map, filter, All, IfOk};
ghost use Rattle.dom_model.specs.Names.{text_eq};
ghost use Rattle.dom_tree.specs.Forest.{IsNode, name_of};
ghost use Rattle.dom_traversal.specs.Filters.{filter_of};
ghost use Rattle.dom_traversal.specs.Walkers.{walker_rest};
ghost use Rattle.dom_callers.specs.Headings.{element_filter, from_top, is_heading};

use dom_traversal::{Filter, Walker, law_rest};
use dom_tree::Forest;
use node_arena::Key;
use std::alloc::{AllocError, Global};

/// The `h1` elements below a node, in tree order. It is refused where memory is refused.
pub fn headings(alloc: Global, forest: &Forest, top: Key) -> Result<Vec<Key>, AllocError>
    requires { IsNode forest.now top }
    ensures found { IfOk result (λ keys. map (name_of forest.now) keys.items ≡ filter (is_heading forest.now.trees) (walker_rest forest.now (from_top top))) }
    ensures nodes { IfOk result (λ keys. All (IsNode forest.now) keys.items) }
{
    law_rest(forest);
    let mut found = Vec::new(alloc);
    let mut walker = Walker::new(top, elements());
    while let Some(key) = walker.next(forest) {
        if is_heading(forest, key) {
            found.push(key)?;
        }
    }
    Ok(found)
}

/// A filter that shows elements alone, and rejects none.
fn elements() -> Filter
    ensures { filter_of result ≡ element_filter }
{
    Filter {
        show: 1,
        name: None,
    }
}

/// Whether a node has the name `h1`.
fn is_heading(forest: &Forest, key: Key) -> bool
    requires { IsNode forest.now key }
    ensures { result ≡ is_heading forest.now.trees (name_of forest.now key) }
{
    is_word(forest.element(key), "h1")
}

/// Whether two texts are the same.
fn is_word(text: &str, other: &str) -> bool
    ensures { result ≡ text_eq text.now other.now }
{
    text == other
}
