//! Data of which some code units give way to others.
ghost use Rattle.std.specs.Prelude.{◌≡◌, IfSome, OnOk, OnErr};
ghost use Rattle.dom_model.specs.TreeChanges.{replaced};

use crate::short_text::ShortText;
use dom_base::DomStr;
use std::alloc::AllocError;

/// Short data in which, from an offset on, so many code units, or as many as there are, have given way to others, if they are still short.
#[inline(always)]
pub(crate) fn spliced_short(
    text: &[u16],
    offset: usize,
    count: usize,
    units: &[u16],
) -> Option<ShortText>
    ensures { IfSome result (λ short. short ≡ replaced offset count units.now text.now) }
{
    let start = offset.min(text.len());
    let end = start + count.min(text.len() - start);
    ShortText::joined(&text[..start], units, &text[end..])
}

/// From an offset on, so many code units, or as many as there are, give way to others. Where memory is refused, all is as it was.
pub(crate) fn splice(
    text: &mut DomStr,
    offset: usize,
    count: usize,
    units: DomStr,
) -> Result<(), AllocError>
    ensures ok { OnOk result (text.new.items ≡ replaced offset count units.items text.old.items) }
    ensures err { OnErr result (text.new.items ≡ text.old.items) }
{
    let start = offset.min(text.len());
    let cut = count.min(text.len() - start);
    if start + cut == text.len() {
        text.reserve(units.len().saturating_sub(cut))?;
        text.truncate(start);
        return text.extend_from_slice(units.as_slice());
    }
    if cut == units.len() {
        text.slice_mut(start..start + cut)
            .copy_from_slice(units.as_slice());
        return Ok(());
    }
    text.splice(start..start + cut, units)?;
    Ok(())
}
