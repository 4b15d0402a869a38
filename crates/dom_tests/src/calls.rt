//! Sessions that are called. `examples/faults/check` runs these tests with one request for memory after the other refused.

use dom_answers::{Answer, Item, Reply, Said};
use dom_base::{Owner, Refusal};
use dom_engine::Session;
use dom_reader::{Command, NodeWord, parse_line};
use std::alloc::{AllocError, Global};
use std::process::Abort;

/// A reply of the page or a refusal.
#[derive(Clone, Copy)]
enum Ending {
    Nothing,
    Node(u32),
    Truth(bool),
    Refused(Refusal),
}

/// Lines, and how the answer of each as a call is to end after how many deliveries (docs/PROTOCOL.md).
const CALLS: [(&[u8], usize, Ending); 9] = [
    (b"p new element div", 0, Ending::Node(1)),
    (b"p listen n1 go seen log", 0, Ending::Nothing),
    (b"p dispatch n1 go", 1, Ending::Truth(true)),
    (b"p append n0 m1", 0, Ending::Refused(Refusal::Foreign)),
    (b"p remove n7", 0, Ending::Refused(Refusal::Unknown)),
    (b"p micro done", 0, Ending::Nothing),
    (b"c1 tree m0", 0, Ending::Refused(Refusal::Busy)),
    (b"p .", 1, Ending::Nothing),
    (b"p micro last", 0, Ending::Nothing),
];

/// Whether an answer ends so.
fn ends_so(answer: &Answer, ending: Ending) -> bool {
    let Some(Item::Says(_, said)) = answer.last() else {
        return false;
    };
    match (ending, said) {
        (Ending::Nothing, Said::Replied(Reply::Nothing)) => true,
        (Ending::Node(number), Said::Replied(Reply::Node(node))) => {
            node.owner == Owner::Page && node.number == number
        }
        (Ending::Truth(one), Said::Replied(Reply::Truth(other))) => one == *other,
        (Ending::Refused(one), Said::Refused(other)) => one == *other,
        _ => false,
    }
}

/// Out of memory is final, for calls and lines.
fn expect_end(rt: &impl Abort, session: &mut Session, answer: &mut Answer) {
    assert!(rt; answer.last().is_none());
    assert!(rt; session.line(b"p tree n0").is_err());
    assert!(rt; session.close(answer).is_err());
}

#[test]
fn calls_answer_as_lines(rt: HostRuntime) {
    let Ok(mut session) = Session::new(rt.alloc()) else {
        return;
    };
    let mut answer = Answer::new(rt.alloc());
    for (line, deliveries, ending) in CALLS {
        let Ok(read) = parse_line(rt.alloc(), line) else {
            return;
        };
        let Ok(mut said) = read else {
            panic!(rt; "the line says no command");
        };
        match session.call(&said.owner, &mut said.command, &mut answer) {
            Ok(()) => {
                assert!(rt; answer.deliveries().len() == deliveries);
                assert!(rt; ends_so(&answer, ending));
            }
            Err(_) => {
                expect_end(&rt, &mut session, &mut answer);
                return;
            }
        }
    }
    match session.close(&mut answer) {
        Ok(()) => {
            assert!(rt; answer.deliveries().is_empty());
            assert!(rt;
                matches!(
                    answer.last(),
                    Some(Item::Says(Owner::Page, Said::Microtask(_)))
                )
            );
        }
        Err(_) => expect_end(&rt, &mut session, &mut answer),
    }
}

/// What no line can say: a text longer than a line, and numbers of ten digits.
fn long_calls(alloc: Global) -> Result<[(Command, Ending); 5], AllocError> {
    let text = vec![in alloc; 0x61; 70_000]?;
    Ok([
        (Command::NewText(text), Ending::Node(1)),
        (Command::Split(NodeWord::Own(1), 69_999), Ending::Node(2)),
        (
            Command::Split(NodeWord::Own(1), 4_000_000_000),
            Ending::Refused(Refusal::IndexSize),
        ),
        (
            Command::Remove(NodeWord::Own(4_000_000_000)),
            Ending::Refused(Refusal::Unknown),
        ),
        (Command::EndTurn, Ending::Nothing),
    ])
}

#[test]
fn calls_take_what_no_line_says(rt: HostRuntime) {
    let Ok(mut session) = Session::new(rt.alloc()) else {
        return;
    };
    let Ok(calls) = long_calls(rt.alloc()) else {
        return;
    };
    let mut answer = Answer::new(rt.alloc());
    for (mut command, ending) in calls {
        match session.call(&Owner::Page, &mut command, &mut answer) {
            Ok(()) => assert!(rt; ends_so(&answer, ending)),
            Err(_) => {
                expect_end(&rt, &mut session, &mut answer);
                return;
            }
        }
    }
}
