//! What many nodes have in common.
ghost use Rattle.std.specs.Prelude.{◌≡◌, true, IfOk};
ghost use Rattle.std.specs.Rc.{rc_str_bytes};

use dom_attributes::{SharedNames, Signs, is_same_text};
use dom_base::Owner;
use std::alloc::{AllocError, Global};
use std::collections::BTreeSet;
use std::marker::Model;
use std::rc::{Rc, RcStr};

/// The owner of some nodes and their local name, which is empty where they are no elements.
#[derive(PartialEq, Eq, PartialOrd, Ord, Drop)]
pub(crate) struct Shared {
    pub(crate) owner: Owner,
    pub(crate) element: RcStr,
}

/// What some nodes share, with the signs of such a node that has no attributes. Of the first few these are told once for all nodes.
#[derive(Drop)]
pub(crate) struct Kept {
    pub(crate) shared: Rc<Shared>,
    pub(crate) signs: Signs,
}

impl Model for Kept {
    ghost use Rattle.std.specs.Prelude.{[]};
    ghost use Rattle.std.specs.Rc.{rc_str_bytes};
    ghost use Rattle.dom_attributes.specs.Signs.{Cover};
    ghost use Rattle.dom_tree.specs.declared.shared.Shared.{Shared};

    ghost Value = { Shared };

    ghost view = { λ k. k.shared.value };

    ghost invariant = { λ k. Cover k.signs (rc_str_bytes k.shared.value.element) [] };
}

impl Kept {
    /// What is shared, with its signs.
    fn of(shared: Rc<Shared>) -> Kept
        ensures { result ≡ shared.value }
    {
        let signs = Signs::of_bare(shared.element.as_str());
        Kept { shared, signs }
    }

    /// The same once more.
    #[inline(always)]
    fn again(&self) -> Result<Kept, AllocError>
        ensures { IfOk result (λ kept. kept ≡ self.now) }
    {
        Ok(Kept {
            shared: self.shared.clone()?,
            signs: self.signs,
        })
    }
}

/// How many are compared one after another, before the others are found in their order.
const FEW: usize = 8;

impl Shared {
    /// Whether it is this owner with this local name.
    #[inline(always)]
    fn is(&self, owner: Owner, element: &str) -> bool
        ensures { result ≡ true → (self.now.owner ≡ owner) × (rc_str_bytes self.now.element ≡ element.now) }
    {
        self.owner == owner && is_same_text(self.element.as_str(), element)
    }
}

/// What the nodes of a forest share: each owner with each of its local names is kept once, the first few apart from the
/// others, and each of the first local names once for all owners.
#[derive(Drop)]
pub(crate) struct SharedTable {
    few: Vec<Kept>,
    /// The place among the few that was found last.
    last: usize,
    others: BTreeSet<Rc<Shared>>,
    names: SharedNames,
    alloc: Global,
}

impl SharedTable {
    /// A table of nothing, which takes no memory yet.
    pub(crate) fn new(alloc: Global) -> Self {
        SharedTable {
            few: Vec::new(alloc),
            last: 0,
            others: BTreeSet::new(alloc),
            names: SharedNames::new(alloc),
            alloc,
        }
    }

    /// An owner with a local name, as it is kept, or from now on. What was found last among the few is tried first.
    #[inline(always)]
    pub(crate) fn shared(&mut self, owner: Owner, element: &str) -> Result<Kept, AllocError>
        ensures owner { IfOk result (λ kept. kept.owner ≡ owner) }
        ensures element { IfOk result (λ kept. rc_str_bytes kept.element ≡ element.now) }
    {
        match self.few.get(self.last) {
            Some(kept) if kept.shared.is(owner, element) => kept.again(),
            _ => self.sought(owner, element),
        }
    }

    /// An owner with a local name, sought among all that are kept, and kept from now on.
    #[inline(never)]
    fn sought(&mut self, owner: Owner, element: &str) -> Result<Kept, AllocError>
        ensures owner { IfOk result (λ kept. kept.owner ≡ owner) }
        ensures element { IfOk result (λ kept. rc_str_bytes kept.element ≡ element.now) }
    {
        for (place, kept) in self.few.iter().enumerate() {
            if kept.shared.is(owner, element) {
                self.last = place;
                return kept.again();
            }
        }
        let element = self.names.name(element)?;
        self.kept(Rc::new(self.alloc, Shared { owner, element })?)
    }

    /// What is not among the few, as it is kept among the others, or from now on.
    fn kept(&mut self, shared: Rc<Shared>) -> Result<Kept, AllocError>
        ensures owner { IfOk result (λ kept. kept.owner ≡ shared.value.owner) }
        ensures element { IfOk result (λ kept. rc_str_bytes kept.element ≡ rc_str_bytes shared.value.element) }
    {
        if self.few.len() < FEW {
            let kept = Kept::of(shared);
            self.few.push(kept.again()?)?;
            return Ok(kept);
        }
        if let Some(kept) = self.others.get(&shared)
            && kept.is(shared.owner, shared.element.as_str())
        {
            return Ok(Kept::of(kept.clone()?));
        }
        let _ = self.others.insert(shared.clone()?)?;
        Ok(Kept::of(shared))
    }
}
