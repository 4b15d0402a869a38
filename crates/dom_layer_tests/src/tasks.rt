//! The order of tasks, and that each owner's notification waits once.
use dom_base::{Owner, OwnerPath};
use dom_microtasks::{Queue, Task};
use std::alloc::{AllocError, Global};
use std::process::Abort;

const FIRST: Owner = Owner::Component(OwnerPath {
    depth: 1,
    parts: [1, 0, 0, 0, 0, 0, 0, 0],
});

const SECOND: Owner = Owner::Component(OwnerPath {
    depth: 1,
    parts: [2, 0, 0, 0, 0, 0, 0, 0],
});

// Queues a label of an owner.
fn micro(queue: &mut Queue, alloc: Global, owner: Owner, label: &[u8]) -> Result<(), AllocError> {
    queue.push_micro(owner, Vec::from_slice(alloc, label)?)
}

// The next task has to be this label of an owner.
fn expect_micro(rt: &impl Abort, queue: &mut Queue, owner: Owner, label: &[u8]) {
    let Some(Task::Micro(from, text)) = queue.pop() else {
        panic!(rt; "no label came");
    };
    assert!(rt; from == owner);
    assert!(rt; text.as_slice() == label);
}

// The next task has to be the notification of an owner.
fn expect_notify(rt: &impl Abort, queue: &mut Queue, owner: Owner) {
    let Some(Task::Notify(from)) = queue.pop() else {
        panic!(rt; "no notification came");
    };
    assert!(rt; from == owner);
}

// Queues labels and notifications of three owners.
fn push_in_order(queue: &mut Queue, alloc: Global) -> Result<(), AllocError> {
    micro(queue, alloc, Owner::Page, b"a")?;
    queue.push_notify(FIRST)?;
    micro(queue, alloc, SECOND, b"b")?;
    queue.push_notify(Owner::Page)?;
    micro(queue, alloc, FIRST, b"c")?;
    queue.push_notify(SECOND)?;
    micro(queue, alloc, Owner::Page, b"")
}

// They have to come in this order.
fn expect_in_order(rt: &impl Abort, queue: &mut Queue) {
    expect_micro(rt, queue, Owner::Page, b"a");
    expect_notify(rt, queue, FIRST);
    expect_micro(rt, queue, SECOND, b"b");
    expect_notify(rt, queue, Owner::Page);
    expect_micro(rt, queue, FIRST, b"c");
    expect_notify(rt, queue, SECOND);
    expect_micro(rt, queue, Owner::Page, b"");
    assert!(rt; queue.pop().is_none());
}

#[test]
fn tasks_of_three_owners_come_in_their_order(rt: HostRuntime) {
    let mut queue = Queue::new(rt.alloc());
    let pushed = push_in_order(&mut queue, rt.alloc());
    assert!(rt; pushed.is_ok());
    expect_in_order(&rt, &mut queue);
}

// Queues the notifications of two owners more than once, and a label.
fn push_again(queue: &mut Queue, alloc: Global) -> Result<(), AllocError> {
    queue.push_notify(FIRST)?;
    micro(queue, alloc, FIRST, b"x")?;
    queue.push_notify(FIRST)?;
    queue.push_notify(Owner::Page)?;
    queue.push_notify(FIRST)?;
    queue.push_notify(Owner::Page)
}

#[test]
fn a_queued_notification_is_not_queued_again(rt: HostRuntime) {
    let mut queue = Queue::new(rt.alloc());
    let pushed = push_again(&mut queue, rt.alloc());
    assert!(rt; pushed.is_ok());
    expect_notify(&rt, &mut queue, FIRST);
    expect_micro(&rt, &mut queue, FIRST, b"x");
    expect_notify(&rt, &mut queue, Owner::Page);
    assert!(rt; queue.pop().is_none());
}

// Queues the notification of an owner and a label, takes the notification out and queues it twice.
fn push_after_pop(rt: &impl Abort, queue: &mut Queue, alloc: Global) -> Result<(), AllocError> {
    queue.push_notify(SECOND)?;
    micro(queue, alloc, SECOND, b"x")?;
    expect_notify(rt, queue, SECOND);
    queue.push_notify(SECOND)?;
    queue.push_notify(SECOND)
}

#[test]
fn a_notification_that_was_taken_out_is_queued_again(rt: HostRuntime) {
    let mut queue = Queue::new(rt.alloc());
    let pushed = push_after_pop(&rt, &mut queue, rt.alloc());
    assert!(rt; pushed.is_ok());
    expect_micro(&rt, &mut queue, SECOND, b"x");
    expect_notify(&rt, &mut queue, SECOND);
    assert!(rt; queue.pop().is_none());
    assert!(rt; queue.pop().is_none());
}
