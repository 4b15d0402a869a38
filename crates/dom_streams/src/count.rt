//! A count that only proofs read.
ghost use Rattle.std.specs.Prelude.{◌≡◌, ℕ, ◌+◌};
ghost use Rattle.std.specs.Borrow.{ftrue};

use std::marker::Model;

/// A count without an end, which a clause reads as `total`. It takes no memory, and nothing of it runs.
#[derive(Drop)]
pub struct Count {
    pub ghost total: { ℕ },
}

impl Model for Count {
    ghost also_owns = { λ _. ftrue };
}

impl Count {
    /// The count of nothing.
    pub fn new() -> Count
        ensures { result.total ≡ 0 }
    {
        Count {}
    }

    /// The count with so many more.
    pub fn with(&self, _more: usize) -> Count
        ensures { result.total ≡ self.now.total + _more }
    {
        Count {}
    }
}
