//! Names of elements or attributes, of which many nodes have the same.
ghost use Rattle.std.specs.Prelude.{◌≡◌, IfOk};
ghost use Rattle.std.specs.Rc.{rc_str_bytes};

use crate::texts::is_same_text;
use std::alloc::{AllocError, Global};
use std::rc::RcStr;

/// How many names are kept. Each of them is compared with a name in turn, so they are few; one that comes later is made anew each time.
const MOST: usize = 16;

/// The names that came first. Each is kept once, for all nodes that have it.
#[derive(Drop)]
pub struct SharedNames {
    kept: Vec<RcStr>,
    alloc: Global,
}

impl SharedNames {
    /// No names. Takes no memory yet.
    pub fn new(alloc: Global) -> Self {
        SharedNames {
            kept: Vec::new(alloc),
            alloc,
        }
    }

    /// A name, as it is kept where it is; that it is then the same block no clause says. It is refused only where memory is, and the
    /// names that are kept stay.
    pub fn name(&mut self, name: &str) -> Result<RcStr, AllocError>
        ensures { IfOk result (λ shared. rc_str_bytes shared ≡ name.now) }
    {
        for kept in &self.kept {
            if is_same_text(name, kept.as_str()) {
                return kept.clone();
            }
        }
        self.add(name)
    }

    /// A name that is not kept yet. From now on it is, where there is room.
    fn add(&mut self, name: &str) -> Result<RcStr, AllocError>
        ensures { IfOk result (λ shared. rc_str_bytes shared ≡ name.now) }
    {
        let shared = RcStr::from_str(self.alloc, name)?;
        if self.kept.len() < MOST {
            self.kept.push(shared.clone()?)?;
        }
        Ok(shared)
    }
}
