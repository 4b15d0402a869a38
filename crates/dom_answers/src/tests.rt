//! Answers with items of each kind, as text and as values. The lines are those of docs/PROTOCOL.md.
use crate::{Answer, Answers, Item, Mutation, Reply, Row, Said};
use dom_base::{Kind, NodeName, Owner, OwnerPath, Refusal};
use dom_printer::{
    Attribute, Change, Event, LentName, Names, NodeContent, Opening, TreeStep, Value,
};
use std::alloc::{AllocError, Global};
use std::process::Abort;

const COMPONENT: Owner = Owner::Component(OwnerPath {
    depth: 1,
    parts: [1, 0, 0, 0, 0, 0, 0, 0],
});

// The lines of what is told below.
const LINES: &str = "\
c1 event s click phase=3 target=n2 current=m1 related=null path=[n2,m1,m0,n1,n0]
p record o0 childList n1 added=[n2] removed=[] prev=null next=n3
p record o0 attributes n1 name=id old=null
p record o0 characterData n2 old=\"a\"
c1 micro later
! owner
p ! hierarchy
p ok \"ab\"
p ok n1
p ok [n2,n3]
p ok (n1 element p id=\"x\" (n2 text \"ab\"))
";

// A node of the page.
fn of_page(number: u32) -> NodeName {
    NodeName {
        owner: Owner::Page,
        number,
    }
}

// A node of the component.
fn of_component(number: u32) -> NodeName {
    NodeName {
        owner: COMPONENT,
        number,
    }
}

// A name that is lent.
fn lent(name: &NodeName) -> LentName<'_> {
    LentName {
        owner: &name.owner,
        number: name.number,
    }
}

// Names that tell themselves.
struct Themselves;

impl Names<NodeName> for Themselves {
    ghost name = { λ _ node. node };

    ghost knows = { λ _ _. Unit {0} };

    fn lent<'a>(&'a self, node: &'a NodeName) -> LentName<'a> {
        LentName {
            owner: &node.owner,
            number: node.number,
        }
    }
}

// Tells a call of a listener.
fn tell_event<A: Answers>(alloc: Global, answer: &mut A) -> Result<(), AllocError> {
    let path = [
        of_page(2),
        of_component(1),
        of_component(0),
        of_page(1),
        of_page(0),
    ];
    let mut text = Vec::new(alloc);
    answer.place_path(&mut text, &COMPONENT, &path)?;
    let event = Event {
        label: b"s",
        event: b"click",
        phase: 3,
        target: of_page(2),
        current: of_component(1),
        related: None,
        path: text.as_slice(),
    };
    answer.event(&COMPONENT, &event)
}

// Tells a record of children: the first name's node got the second's before the third's.
fn tell_children<'a, A: Answers>(
    answer: &mut A,
    names: &'a [LentName<'a>; 3],
) -> Result<(), AllocError> {
    let children: Change<'a> = Change::ChildList {
        target: names[0],
        added: &names[1..2],
        removed: &names[..0],
        previous: None,
        next: Some(names[2]),
    };
    answer.record(&Owner::Page, 0, &children)
}

// Tells records of an attribute and of data, and a microtask.
fn tell_others<A: Answers>(
    answer: &mut A,
    first: LentName<'_>,
    second: LentName<'_>,
) -> Result<(), AllocError> {
    let attribute = Change::Attributes {
        target: first,
        name: "id",
        old: None,
    };
    answer.record(&Owner::Page, 0, &attribute)?;
    let data = Change::CharacterData {
        target: second,
        old: Some(&[0x61]),
    };
    answer.record(&Owner::Page, 0, &data)?;
    answer.microtask(&COMPONENT, b"later")
}

// Tells records of the three kinds, and a microtask.
fn tell_records<A: Answers>(answer: &mut A) -> Result<(), AllocError> {
    let (first, second, third) = (of_page(1), of_page(2), of_page(3));
    tell_children(answer, &[lent(&first), lent(&second), lent(&third)])?;
    tell_others(answer, lent(&first), lent(&second))
}

// Tells refusals and replies.
fn tell_replies<A: Answers>(answer: &mut A) -> Result<(), AllocError> {
    answer.refuse(None, Refusal::Syntax)?;
    answer.refuse(Some(Owner::Page), Refusal::Hierarchy)?;
    answer.reply(&Owner::Page, &Value::Str(&[0x61, 0x62]))?;
    answer.reply_node(&Owner::Page, &of_page(1))?;
    answer.reply_list(&Owner::Page, &Themselves, &[of_page(2), of_page(3)])
}

// Tells a tree.
fn tell_tree<A: Answers>(alloc: Global, answer: &mut A) -> Result<(), AllocError> {
    let id = Attribute {
        name: "id",
        value: &[0x78],
    };
    let steps = [
        TreeStep::Opens(Opening {
            name: of_page(1),
            kind: Kind::Element,
            words: NodeContent::Element {
                name: "p",
                attributes: Vec::from_slice(alloc, &[id])?,
            },
        }),
        TreeStep::Opens(Opening {
            name: of_page(2),
            kind: Kind::Text,
            words: NodeContent::Data(&[0x61, 0x62]),
        }),
        TreeStep::Closes,
        TreeStep::Closes,
    ];
    answer.reply_tree(&Owner::Page, &steps)
}

// Tells all of it.
fn tell<A: Answers>(alloc: Global, answer: &mut A) -> Result<(), AllocError> {
    tell_event(alloc, answer)?;
    tell_records(answer)?;
    tell_replies(answer)?;
    tell_tree(alloc, answer)
}

#[test]
fn bytes_take_the_lines(rt: HostRuntime) {
    let mut text = Vec::new(rt.alloc());
    assert!(rt; tell(rt.alloc(), &mut text).is_ok());
    assert!(rt; text.as_slice() == LINES.as_bytes());
}

// The event has to be there as it was told.
fn expect_event(rt: &impl Abort, answer: &Answer) {
    let items = answer.items();
    assert!(rt; items.len() == 11);
    let Item::Says(owner, Said::Event(call)) = items[0] else {
        panic!(rt; "no event came");
    };
    assert!(rt; owner == COMPONENT);
    assert!(rt; call.label.of(answer.bytes()) == b"s".as_slice());
    assert!(rt; call.event.of(answer.bytes()) == b"click".as_slice());
    assert!(rt; call.phase == 3);
    assert!(rt; call.target == of_page(2));
    assert!(rt; call.current == of_component(1));
    assert!(rt; call.related.is_none());
    let path = call.path.of(answer.nodes());
    assert!(rt; path.len() == 5);
    assert!(rt; path[1] == of_component(1));
    assert!(rt; path[4] == of_page(0));
}

// So do the records.
fn expect_records(rt: &impl Abort, answer: &Answer) {
    let items = answer.items();
    assert!(rt; items.len() == 11);
    let Item::Says(_, Said::Record(0, Mutation::ChildList { added, removed, .. })) = items[1] else {
        panic!(rt; "no record of children came");
    };
    assert!(rt; added.of(answer.nodes()) == [of_page(2)].as_slice());
    assert!(rt; removed.of(answer.nodes()).is_empty());
    let Item::Says(_, Said::Record(0, Mutation::Attributes { name, old, .. })) = items[2] else {
        panic!(rt; "no record of an attribute came");
    };
    assert!(rt; name.of(answer.bytes()) == b"id".as_slice());
    assert!(rt; old.is_none());
    let Item::Says(_, Said::Record(0, Mutation::CharacterData { old: Some(old), .. })) = items[3]
    else {
        panic!(rt; "no record of data came");
    };
    assert!(rt; old.of(answer.units()) == [0x61].as_slice());
    let Item::Says(_, Said::Microtask(label)) = items[4] else {
        panic!(rt; "no microtask came");
    };
    assert!(rt; label.of(answer.bytes()) == b"later".as_slice());
}

// And the tree, which came last.
fn expect_tree(rt: &impl Abort, answer: &Answer) {
    let Some(Item::Says(_, Said::Replied(Reply::Tree(span)))) = answer.last() else {
        panic!(rt; "no tree came");
    };
    let rows = span.of(answer.rows());
    assert!(rt; rows.len() == 4);
    let (Row::Opens(element), Row::Opens(text)) = (rows[0], rows[1]) else {
        panic!(rt; "no node came");
    };
    assert!(rt; element.name == of_page(1));
    assert!(rt; element.element.of(answer.bytes()) == b"p".as_slice());
    let attributes = element.attributes.of(answer.attributes());
    assert!(rt; attributes.len() == 1);
    assert!(rt; attributes[0].name.of(answer.bytes()) == b"id".as_slice());
    assert!(rt; attributes[0].value.of(answer.units()) == [0x78].as_slice());
    assert!(rt; text.kind == Kind::Text);
    assert!(rt; text.text.of(answer.units()) == [0x61, 0x62].as_slice());
}

#[test]
fn values_are_what_was_told(rt: HostRuntime) {
    let mut answer = Answer::new(rt.alloc());
    assert!(rt; tell(rt.alloc(), &mut answer).is_ok());
    expect_event(&rt, &answer);
    expect_records(&rt, &answer);
    expect_tree(&rt, &answer);
    assert!(rt; answer.deliveries().len() == 10);
    answer.clear();
    assert!(rt; answer.last().is_none());
}
