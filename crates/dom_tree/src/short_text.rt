//! Data of a few code units.
ghost use Rattle.std.specs.Prelude.{◌≡◌, ◌≤◌, ◌+◌, ◌++◌, true, false, length, take, None, IfSome, IfOk};
ghost use Rattle.dom_tree.specs.Own.{units_in};

use dom_base::DomStr;
use std::alloc::{AllocError, Global};
use std::marker::Model;

/// The most code units of short data.
const MOST: usize = 15;

/// Data of at most fifteen code units, which stand where they are kept, and ask for no memory of their own.
#[derive(Drop)]
pub(crate) struct ShortText {
    units: [u16; MOST],
    len: u8,
}

impl Model for ShortText {
    ghost use Rattle.std.specs.Prelude.{ℕ, List, ◌≤◌, ◌≡◌, take, length};

    ghost Value = { List ℕ };

    ghost view = { λ t. take t.len t.units };

    ghost invariant = { λ t. (t.len ≤ 15) × (length t.units ≡ 15) };
}

impl ShortText {
    /// Three parts, one behind another, if they are short together.
    #[inline(always)]
    pub(crate) fn joined(head: &[u16], middle: &[u16], tail: &[u16]) -> Option<ShortText>
        ensures { IfSome result (λ text. text ≡ head.now ++ middle.now ++ tail.now) }
    {
        let mut units = [0; MOST];
        let middle_at = put(&mut units, 0, head)?;
        let tail_at = put(&mut units, middle_at, middle)?;
        let len = put(&mut units, tail_at, tail)?;
        Some(ShortText {
            units,
            len: len as u8,
        })
    }

    /// Whether code units, which come behind these then, are short together with them. Where they are not, nothing is changed.
    #[inline(always)]
    pub(crate) fn append(&mut self, units: &[u16]) -> bool
        ensures appended { result ≡ true → self.new ≡ self.old ++ units.now }
        ensures left { result ≡ false → self.new ≡ self.old }
    {
        match put(&mut self.units, self.len as usize, units) {
            Some(len) => {
                self.len = len as u8;
                true
            }
            None => false,
        }
    }

    /// The code units.
    #[inline(always)]
    pub(crate) fn as_slice(&self) -> &[u16]
        ensures { result.now ≡ self.now }
    {
        &self.units[..self.len as usize]
    }
}

/// Code units of a node, copied so that the node is not borrowed: short ones without a string.
pub(crate) enum Units {
    Short(ShortText),
    Long(DomStr),
}

impl Drop for Units {
    // Written out, so that a function that has some cites it, and does not tell the two apart at its end.
    #[inline(always)]
    fn drop(self) {
        match self {
            Units::Short(short) => drop(short),
            Units::Long(units) => drop(units),
        }
    }
}

impl Units {
    /// These code units.
    #[inline(always)]
    pub(crate) fn of(alloc: Global, units: &[u16]) -> Result<Units, AllocError>
        ensures { IfOk result (λ copied. units_in copied ≡ units.now) }
    {
        match ShortText::joined(units, &[], &[]) {
            Some(short) => Ok(Units::Short(short)),
            None => Ok(Units::Long(Vec::from_slice(alloc, units)?)),
        }
    }

    /// The code units.
    #[inline(always)]
    pub(crate) fn as_slice(&self) -> &[u16]
        ensures { result.now ≡ units_in self.now }
    {
        match self {
            Units::Short(short) => short.as_slice(),
            Units::Long(units) => units.as_slice(),
        }
    }
}

/// Writes a part over the code units from a place on, where there are so many, and gives the place behind it.
#[inline(always)]
fn put(units: &mut [u16; MOST], at: usize, part: &[u16]) -> Option<usize>
    requires { at ≤ 15 }
    ensures place { IfSome result (λ end. (end ≡ at + length part.now) × (end ≤ 15)) }
    ensures units { IfSome result (λ end. take end units.new ≡ take at units.old ++ part.now) }
    ensures left { result ≡ None → units.new ≡ units.old }
    ensures size { length units.new ≡ 15 }
{
    if part.is_empty() {
        return Some(at);
    }
    let end = at.checked_add(part.len())?;
    if end > MOST {
        return None;
    }
    units[at..end].copy_from_slice(part);
    Some(end)
}
