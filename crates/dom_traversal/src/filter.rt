//! Which nodes an iterator or a walker sees.
ghost use Rattle.std.specs.Prelude.{◌≡◌};
ghost use Rattle.dom_model.specs.Traversal.{accepts, answer_at, is_shown};
ghost use Rattle.dom_model.specs.Tree.{is_element, kind_of};
ghost use Rattle.dom_tree.specs.Forest.{IsNode, name_of};
ghost use Rattle.dom_traversal.specs.Filters.{filter_of, show_of};

use dom_attributes::is_same_text;
use dom_base::{Kind, Verdict};
use dom_tree::Forest;
use node_arena::Key;

/// A whatToShow with a NodeFilter: which nodes are shown, and what is answered at an element with a name (DOM Standard, interface
/// NodeFilter). A node that is not shown is skipped, an element of the name gets the verdict, and all else is accepted.
#[derive(Drop)]
pub struct Filter {
    /// The whatToShow. Bit 0 is SHOW_ELEMENT, 1 SHOW_TEXT, 2 SHOW_COMMENT, 3 SHOW_DOCUMENT, and 4 SHOW_DOCUMENT_FRAGMENT, shadow roots
    /// among them; these are not the bits of the Standard. The others count for nothing.
    pub show: u8,
    /// The name of the elements that get the verdict.
    pub name: Option<(String, Verdict)>,
}

impl Filter {
    /// What the filter answers at a node; none where it accepts it.
    pub(crate) fn answer(&self, forest: &Forest, key: Key) -> Option<Verdict>
        requires { IsNode forest.now key }
        ensures { result ≡ answer_at forest.now.trees (filter_of self.now) (name_of forest.now key) }
    {
        let kind = forest.kind(key);
        if !is_shown(self.show, kind) {
            return Some(Verdict::Skip);
        }
        if !is_element(kind) {
            return None;
        }
        let (name, verdict) = self.name.as_ref()?;
        if is_same_text(forest.element(key), name.as_str()) {
            Some(*verdict)
        } else {
            None
        }
    }

    /// Whether the filter accepts a node.
    pub(crate) fn accepts(&self, forest: &Forest, key: Key) -> bool
        requires { IsNode forest.now key }
        ensures { result ≡ accepts forest.now.trees (filter_of self.now) (name_of forest.now key) }
    {
        self.answer(forest, key).is_none()
    }
}

/// Whether the nodes of a kind are shown.
fn is_shown(show: u8, kind: Kind) -> bool
    ensures { result ≡ is_shown (show_of show) kind }
{
    let bit = match kind {
        Kind::Element => 1,
        Kind::Text => 2,
        Kind::Comment => 4,
        Kind::Document => 8,
        Kind::Fragment | Kind::Shadow => 16,
    };
    show & bit != 0
}

/// Whether a kind of node is that of elements.
fn is_element(kind: Kind) -> bool
    ensures { result ≡ is_element kind }
{
    matches!(kind, Kind::Element)
}
