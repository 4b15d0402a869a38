//! Records of observers, as they are told.
ghost use Rattle.std.specs.Prelude.{◌≡◌, ◌∷◌, [], OnOk};
ghost use Rattle.std.specs.List.{AllByRecursion};
ghost use Rattle.std.specs.Option.{option_map, ForSome};
ghost use Rattle.dom_printer.specs.Names.{name_view};
ghost use Rattle.dom_tree.specs.Forest.{IsNode, name_at};
ghost use Rattle.dom_query_commands.specs.Recorded.{record_line, record_lines, notice_lines, IsRecord, IsNotice};

use dom_admission::{lent_name, names_of};
use dom_answers::Answers;
use dom_base::Owner;
use dom_observers::{Change as Changed, Record};
use dom_printer::{Change, LentName};
use dom_tree::Forest;
use node_arena::Key;
use smallvec::SmallVec;
use std::alloc::{AllocError, Global};

/// Adds the records of a notification to the answers, each observer's in order.
pub(crate) fn put_notices<A: Answers>(
    alloc: Global,
    forest: &Forest,
    owner: Owner,
    notices: &[(u32, Vec<Record>)],
    out: &mut A,
) -> Result<(), AllocError>
    requires { AllByRecursion (IsNotice forest.now.names) notices.now }
    ensures { OnOk result (A.adds out.old (notice_lines forest.now.names owner notices.now) out.new) }
{
    for notice in notices {
        let observer = notice.0;
        put_records(alloc, forest, owner, observer, notice.1.as_slice(), out)?;
    }
    Ok(())
}

/// Adds the records of an observer to the answers.
pub(crate) fn put_records<A: Answers>(
    alloc: Global,
    forest: &Forest,
    owner: Owner,
    observer: u32,
    records: &[Record],
    out: &mut A,
) -> Result<(), AllocError>
    requires { AllByRecursion (IsRecord forest.now.names) records.now }
    ensures { OnOk result (A.adds out.old (record_lines forest.now.names owner observer records.now) out.new) }
{
    for told in records {
        put_change(alloc, forest, &owner, observer, told, out)?;
    }
    Ok(())
}

/// Adds a record of an observer to the answers.
fn put_change<A: Answers>(
    alloc: Global,
    forest: &Forest,
    owner: &Owner,
    observer: u32,
    told: &Record,
    out: &mut A,
) -> Result<(), AllocError>
    requires { IsRecord forest.now.names told.now }
    ensures { OnOk result (A.adds out.old (record_line forest.now.names owner.now observer told.now ∷ []) out.new) }
{
    match told {
        Changed::ChildList {
            target,
            added,
            removed,
            previous,
            next,
        } => {
            let plus = names_of(alloc, forest, added.as_slice())?;
            let minus = names_of(alloc, forest, removed.as_slice())?;
            let change = Change::ChildList {
                target: lent_name(forest, *target),
                added: plus.as_slice(),
                removed: minus.as_slice(),
                previous: name_if(forest, *previous),
                next: name_if(forest, *next),
            };
            out.record(owner, observer, &change)
        }
        Changed::Attributes { target, name, old } => {
            let change = Change::Attributes {
                target: lent_name(forest, *target),
                name: name.as_str(),
                old: units_if(old),
            };
            out.record(owner, observer, &change)
        }
        Changed::CharacterData { target, old } => {
            let change = Change::CharacterData {
                target: lent_name(forest, *target),
                old: units_if(old),
            };
            out.record(owner, observer, &change)
        }
    }
}

/// The name of a node, if there is one.
fn name_if(forest: &Forest, key: Option<Key>) -> Option<LentName<'_>>
    requires { ForSome key (IsNode forest.now) }
    ensures { option_map name_view result ≡ option_map (name_at forest.now.names) key }
{
    match key {
        Some(node) => Some(lent_name(forest, node)),
        None => None,
    }
}

/// The code units of an old value, if there is one.
fn units_if(old: &Option<SmallVec<u16, 8>>) -> Option<&[u16]>
    ensures { option_map (λ units. units.now) result ≡ option_map (λ units. units.items) old.now }
{
    match old {
        Some(units) => Some(units.as_slice()),
        None => None,
    }
}
