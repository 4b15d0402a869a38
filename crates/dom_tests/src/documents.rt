//! Documents that are called by several owners: no call is busy, and tasks wait for a checkpoint. `examples/faults/check` runs this test with one request
//! for memory after the other refused.

use crate::parts::part;
use dom_answers::{Answer, Item, Reply, Said};
use dom_base::{Owner, Refusal};
use dom_engine::Document;
use dom_reader::{Line, parse_line};
use std::alloc::Global;
use std::process::Abort;

/// What is done with a document: a checkpoint, or the call that a line says.
#[derive(Clone, Copy)]
enum Act {
    Checkpoint,
    Call(&'static [u8]),
}

/// How an answer is to end: a checkpoint's has no reply.
#[derive(Clone, Copy)]
enum Ending {
    Open,
    Nothing,
    Node(u32),
    Component,
    Refused(Refusal),
}

/// The microtasks that an answer is to tell, in their order: whether each is the page's, and its label.
type Runs = &'static [(bool, &'static [u8])];

/// A component's calls come among the page's: none is refused as busy, none ends a turn, and the microtasks of both run at checkpoints, first in,
/// first out.
const ACTS: [(Act, Runs, Ending); 15] = [
    (Act::Call(b"p new element div"), &[], Ending::Node(1)),
    (Act::Call(b"p append n0 n1"), &[], Ending::Nothing),
    (Act::Call(b"p attach n1"), &[], Ending::Component),
    (Act::Call(b"p micro first"), &[], Ending::Nothing),
    (Act::Call(b"c1 micro second"), &[], Ending::Nothing),
    (Act::Call(b"c1 new element b"), &[], Ending::Node(1)),
    (Act::Call(b"p micro third"), &[], Ending::Nothing),
    (
        Act::Checkpoint,
        &[(true, b"first"), (false, b"second"), (true, b"third")],
        Ending::Open,
    ),
    (Act::Checkpoint, &[], Ending::Open),
    (Act::Call(b"c1 micro fourth"), &[], Ending::Nothing),
    (Act::Call(b"p micro fifth"), &[], Ending::Nothing),
    (Act::Call(b"c2 ."), &[], Ending::Refused(Refusal::Unknown)),
    (
        Act::Call(b"p ."),
        &[(false, b"fourth"), (true, b"fifth")],
        Ending::Nothing,
    ),
    (Act::Call(b"c1 remove m1"), &[], Ending::Nothing),
    (Act::Checkpoint, &[], Ending::Open),
];

/// Whether an item of an answer with these bytes is the run of this microtask.
fn is_run(item: &Item, bytes: &[u8], is_page: bool, label: &[u8]) -> bool {
    let Item::Says(owner, Said::Microtask(span)) = item else {
        return false;
    };
    matches!(owner, Owner::Page) == is_page && part(*span, bytes) == Some(label)
}

/// Whether items are the runs of these microtasks, in their order, and no more.
fn are_runs(items: &[Item], bytes: &[u8], runs: Runs) -> bool {
    if runs.len() != items.len() {
        return false;
    }
    for (item, (is_page, label)) in items.iter().zip(runs) {
        if !is_run(item, bytes, *is_page, label) {
            return false;
        }
    }
    true
}

/// Whether an answer tells these microtasks, and ends so.
fn tells(answer: &Answer, runs: Runs, ending: Ending) -> bool {
    if matches!(ending, Ending::Open) {
        return are_runs(answer.items(), answer.bytes(), runs);
    }
    let Some(Item::Says(_, said)) = answer.last() else {
        return false;
    };
    let ends = match (ending, said) {
        (Ending::Nothing, Said::Replied(Reply::Nothing)) => true,
        (Ending::Node(number), Said::Replied(Reply::Node(node))) => node.number == number,
        (Ending::Component, Said::Replied(Reply::Component(_))) => true,
        (Ending::Refused(one), Said::Refused(other)) => one == *other,
        _ => false,
    };
    ends && are_runs(answer.deliveries(), answer.bytes(), runs)
}

/// The command of a line with its owner, or none if memory is refused to it.
fn said(rt: &impl Abort, alloc: Global, line: &[u8]) -> Option<Line> {
    match parse_line(alloc, line).ok()? {
        Ok(line) => Some(line),
        Err(_) => panic!(rt; "the line says no command"),
    }
}

/// Out of memory is final.
fn expect_end(rt: &impl Abort, document: &mut Document, answer: &mut Answer) {
    assert!(rt; answer.last().is_none());
    assert!(rt; document.checkpoint(answer).is_err());
    assert!(rt; answer.last().is_none());
}

#[test]
fn tasks_of_all_owners_wait_for_a_checkpoint(rt: HostRuntime) {
    let Ok(mut document) = Document::new(rt.alloc()) else {
        return;
    };
    let mut answer = Answer::new(rt.alloc());
    for (act, runs, ending) in ACTS {
        let done = match act {
            Act::Checkpoint => document.checkpoint(&mut answer),
            Act::Call(line) => {
                let Some(mut said) = said(&rt, rt.alloc(), line) else {
                    return;
                };
                document.call(&said.owner, &mut said.command, &mut answer)
            }
        };
        if done.is_err() {
            expect_end(&rt, &mut document, &mut answer);
            return;
        }
        assert!(rt; tells(&answer, runs, ending));
    }
}
