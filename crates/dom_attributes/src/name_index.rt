//! The places of attributes by their names.
ghost use Rattle.std.specs.Prelude.{◌≡◌, ◌-◌, ℕ, List, None, Some, length, nat_lt, if◌then◌else◌, IfOk, OnOk, OnErr};
ghost use Rattle.std.specs.BTreeMap.{get_by_text};
ghost use Rattle.std.specs.List.{position};
ghost use Rattle.std.specs.Option.{option_map};
ghost use Rattle.std.specs.Rc.{rc_str_bytes};
ghost use Rattle.std.specs.Str.{bytes_eq};
ghost use Rattle.dom_attributes.specs.Attributes.{HaveOwnNames, attributes_under, IsIndexOf, MayIndex};

use crate::texts::is_same_text;
use dom_base::DomStr;
use std::alloc::{AllocError, Global};
use std::collections::BTreeMap;
use std::rc::RcStr;

/// The place of each attribute of a list, by its name. Names are ordered and not hashed, so that no choice of names makes a look-up slow.
pub(crate) type NameIndex = BTreeMap<String, usize>;

/// The place of the attribute of this name in a list, which is found in the list's index, if it has one.
pub(crate) fn place_of(
    list: &[(RcStr, DomStr)],
    index: &Option<Box<NameIndex>>,
    name: &str,
) -> Option<usize>
    requires { MayIndex index.now list.now }
    ensures { result ≡ position (λ e. bytes_eq name.now (rc_str_bytes e.0)) list.now }
{
    match index {
        Some(index) => index.get(name).copied(),
        None => list
            .iter()
            .position(|attribute| is_same_text(name, attribute.0.as_str())),
    }
}

/// The index of a list.
pub(crate) fn index_of(alloc: Global, list: &[(RcStr, DomStr)]) -> Result<NameIndex, AllocError>
    requires { HaveOwnNames (attributes_under list.now) }
    ensures { IfOk result (λ index. IsIndexOf index list.now) }
{
    let mut index = BTreeMap::new(alloc);
    for place in 0..list.len() {
        note(alloc, &mut index, list[place].0.as_str(), place)?;
    }
    Ok(index)
}

/// Notes the place of an attribute. Where memory is refused, the index is as it was.
pub(crate) fn note(
    alloc: Global,
    index: &mut NameIndex,
    name: &str,
    place: usize,
) -> Result<(), AllocError>
    ensures ok { OnOk result ((t : List ℕ) → get_by_text index.new t ≡ (if bytes_eq name.now t then Some place else get_by_text index.old t)) }
    ensures err { OnErr result ((t : List ℕ) → get_by_text index.new t ≡ get_by_text index.old t) }
{
    let _ = index.insert(String::from_str(alloc, name)?, place)?;
    Ok(())
}

/// Forgets the place of an attribute that is taken out of the list. The attributes after it move up.
pub(crate) fn forget(index: &mut NameIndex, name: &str, place: usize)
    ensures { (t : List ℕ) → get_by_text index.new t ≡
        (if bytes_eq name.now t then None else option_map (λ p. if nat_lt place p then p - 1 else p) (get_by_text index.old t)) }
{
    let _ = index.remove(name);
    index.retain(|_name, other| {
        if *other > place {
            *other -= 1;
        }
        true
    });
}
