//! The command that observes a node, with names between commas.
ghost use Rattle.std.specs.Prelude.{◌≡◌, IfOk, map, string_bytes};
ghost use Rattle.dom_reader.specs.Views.{word_view};
ghost use Rattle.dom_calls.specs.Asked.{IsAsked, IsMemory, asks_observe, names_between};

use crate::commands::name_of;
use crate::words::{has, is_within};
use dom_base::{Fault, Refusal};
use dom_reader::{Command, NodeWord, ObserveWords};
use std::alloc::Global;

/// The names between commas, one or more.
fn names_of(alloc: Global, bytes: &[u8]) -> Result<Vec<String>, Fault>
    ensures ok { IfOk result (λ names. map string_bytes names.items ≡ names_between bytes.now) }
    ensures err { IsMemory result }
{
    let mut names = Vec::new(alloc);
    for name in bytes.split(|b| *b == b',') {
        names.push(name_of(alloc, name)?)?;
    }
    Ok(names)
}

/// Observes a node. The flags are childList (1), attributes (2), characterData (4), subtree (8), attributeOldValue (16),
/// characterDataOldValue (32), and attributeFilter (64), which has the names between commas; no bytes are one empty name.
pub fn observe(
    alloc: Global,
    observer: u32,
    node: NodeWord,
    flags: u32,
    names: &[u8],
) -> Result<Command, Fault>
    ensures { IsAsked result (asks_observe observer (word_view node) flags names.now) }
{
    if !is_within(flags, 127) || (!has(flags, 64) && !names.is_empty()) {
        return Err(Fault::Refused(Refusal::Syntax));
    }
    let words = ObserveWords {
        child_list: has(flags, 1),
        attributes: has(flags, 2),
        character_data: has(flags, 4),
        subtree: has(flags, 8),
        attribute_old_value: has(flags, 16),
        character_data_old_value: has(flags, 32),
        filter: if has(flags, 64) {
            Some(names_of(alloc, names)?)
        } else {
            None
        },
    };
    Ok(Command::Observe(observer, node, words))
}

#[cfg(test)]
mod tests {
    use super::observe;
    use dom_base::Fault;
    use dom_reader::{Command, NodeWord, ObserveWords};
    use std::process::Abort;

    /// Whether these are the options attributes, subtree and attributeFilter, with the names `id`, none and `class`.
    fn are_asked(words: &ObserveWords) -> bool {
        let Some(names) = &words.filter else {
            return false;
        };
        let [id, none, class] = names.as_slice() else {
            return false;
        };
        let are_between = id.as_str() == "id" && none.is_empty() && class.as_str() == "class";
        are_between && words.attributes && words.subtree && !words.child_list
    }

    #[test]
    fn names_stand_between_commas(rt: HostRuntime) -> Result<(), Fault> {
        let asked = observe(rt.alloc(), 2, NodeWord::Own(7), 74, b"id,,class")?;
        assert!(rt;
            matches!(&asked, Command::Observe(2, NodeWord::Own(7), words) if are_asked(words))
        );
        Ok(())
    }
}
