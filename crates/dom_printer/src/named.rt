//! Names of nodes, as they are lent.
ghost use Rattle.std.specs.Prelude.{◌≡◌};
ghost use Rattle.dom_base.specs.declared.NodeName.{NodeName as Name};
ghost use Rattle.dom_printer.specs.Names.{name_view};

use dom_base::{NodeName, Owner};

/// A node's name, with its owner lent.
#[derive(Clone, Copy)]
pub struct LentName<'a> {
    pub owner: &'a Owner,
    pub number: u32,
}

/// The owner of a name that stands where none was put yet.
static PAGE: Owner = Owner::Page;

impl Default for LentName<'_> {
    /// The name of the page's first node, which stands in a list of names where none was put yet.
    fn default() -> Self {
        LentName {
            owner: &PAGE,
            number: 0,
        }
    }
}

/// What tells the names of nodes (`name`), each given by its name or by what its name is found with, such as its key. It tells those of
/// the nodes that it knows (`knows`), and of no others.
pub trait Names<T> {
    ghost name: { Self → T → Name };

    ghost knows: { Self → T → Type 0 };

    /// The name of a node that it knows.
    fn lent<'a>(&'a self, node: &'a T) -> LentName<'a>
        requires { knows self.now node.now }
        ensures { name_view result ≡ name self.now node.now };
}

/// Names that tell themselves.
pub(crate) struct Themselves;

impl Names<NodeName> for Themselves {
    ghost name = { λ _ node. node };

    ghost knows = { λ _ _. Unit {0} };

    #[inline(always)]
    fn lent<'a>(&'a self, node: &'a NodeName) -> LentName<'a> {
        LentName {
            owner: &node.owner,
            number: node.number,
        }
    }
}

impl Names<LentName<'_>> for Themselves {
    ghost name = { λ _ node. name_view node };

    ghost knows = { λ _ _. Unit {0} };

    #[inline(always)]
    fn lent<'a>(&'a self, node: &'a LentName<'_>) -> LentName<'a> {
        *node
    }
}
