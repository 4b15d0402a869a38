//! The signalled slots (DOM Standard, signal a slot change). That each owner's are taken apart from those of others is an own rule.
ghost use Rattle.std.specs.Prelude.{◌≡◌, [], false, map, not, filter, OnOk, OnErr};
ghost use Rattle.dom_model.specs.Names.{name_eq, is_in, append_once, node_of};
ghost use Rattle.dom_model.specs.Turns.{is_owned_by};

use crate::by_owner::ByOwner;
use dom_base::{NodeName, Owner};
use std::alloc::{AllocError, Global};
use std::marker::Model;

/// The signalled slots of all owners, each once, in the order of their signals. A contract sees them as the list of them.
///
/// All that were signalled are logged, and an owner's are taken without a look at others': those of it that stand in the log
/// up to then do not count any more. Where none is left that counts, the log is empty again, if it is as long as the list of
/// owners that is then made anew: so both cost no more than the signals did.
pub struct Signals {
    log: Vec<NodeName>,
    own: ByOwner,
    count: usize,
    alloc: Global,
}

impl Drop for Signals {
    // Written out, so that the crates above cite it, and do not prove again how each field is let go.
    fn drop(self) {
        let Self {
            log,
            own,
            count,
            alloc,
        } = self;
    }
}

impl Model for Signals {
    ghost use Rattle.std.specs.Prelude.{List};
    ghost use Rattle.dom_base.specs.declared.NodeName.{NodeName as Name};

    ghost Value = { List Name };

    ghost use Rattle.dom_microtasks.specs.Signalled.{signals_of, IsKept};

    ghost view = { signals_of };

    ghost invariant = { IsKept };
}

impl Signals {
    /// No slots. It takes no memory yet, and will take its memory from `alloc`.
    pub fn new(alloc: Global) -> Self
        ensures { result ≡ [] }
    {
        Signals {
            log: Vec::new(alloc),
            own: ByOwner::new(alloc),
            count: 0,
            alloc,
        }
    }

    /// Signals a slot, given its owner and its number: it comes behind the others, where it is not among them (DOM Standard, signal a slot
    /// change). It is found without a search. Where memory is refused, they are as they were.
    #[inline(always)]
    pub fn add(&mut self, owner: &Owner, number: u32) -> Result<(), AllocError>
        ensures ok { OnOk result (self.new ≡ append_once name_eq self.old (node_of owner.now number)) }
        ensures err { OnErr result (self.new ≡ self.old) }
    {
        if self.own.has(owner, number) {
            return Ok(());
        }
        self.add_new(NodeName {
            owner: *owner,
            number,
        })
    }

    /// Puts a slot that is not among them behind the others, as `add` says.
    #[inline(never)]
    fn add_new(&mut self, slot: NodeName) -> Result<(), AllocError>
        requires { is_in name_eq slot self.old ≡ false }
        ensures ok { OnOk result (self.new ≡ append_once name_eq self.old slot) }
        ensures err { OnErr result (self.new ≡ self.old) }
    {
        self.log.reserve(1)?;
        self.own.push(slot)?;
        let _ = self.log.push(slot);
        self.count += 1;
        Ok(())
    }

    /// The numbers of an owner's slots, in their order.
    pub fn of(&self, owner: Owner) -> &[u32]
        ensures { map (node_of owner) result.now ≡ filter (is_owned_by owner) self.now }
    {
        self.own.numbers(&owner)
    }

    /// Takes the slots of an owner away (DOM Standard, notify mutation observers). It takes no memory, and
    /// looks at no other slots.
    pub fn forget(&mut self, owner: Owner)
        ensures { self.new ≡ filter (λ s. not (is_owned_by owner s)) self.old }
    {
        let count = self.own.numbers(&owner).len();
        if count == 0 {
            return;
        }
        self.own.empty(owner, self.log.len());
        self.count -= count;
        if self.own.is_over(self.count, self.log.len()) {
            self.log.clear();
            self.own = ByOwner::new(self.alloc);
        }
    }
}
