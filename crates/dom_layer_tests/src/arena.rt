ghost use Rattle.std.specs.Prelude.{◌≡◌, ◌<◌, ◌↔◌, length, All, IfOk, OnOk, IsTrue};
ghost use Rattle.std.specs.Option.{ForSome};
ghost use Rattle.node_arena.specs.Nodes.{IsInclusiveAncestor};

use node_arena::{Arena, Key};
use std::alloc::{AllocError, Global};
use std::cell::Cell;
use std::process::Abort;
use std::test::Fail;

// Links a child, after what `link_before` asks is tested.
fn link<T>(rt: &impl Abort, arena: &mut Arena<T>, parent: Key, child: Key, before: Option<Key>)
    requires parent_is_node { parent < length arena.old.payloads }
    requires child_is_node { child < length arena.old.payloads }
    requires before_is_node { ForSome before (λ b. b < length arena.old.payloads) }
    ensures { length arena.new.payloads ≡ length arena.old.payloads }
{
    assert!(rt; arena.parent(child).is_none());
    assert!(rt; !arena.is_inclusive_ancestor(child, parent));
    match before {
        Some(next) => {
            assert!(rt; arena.parent(next) == Some(parent));
            arena.link_before(parent, child, Some(next));
        }
        None => arena.link_before(parent, child, None),
    }
}

// Checks the children of a node, read from the first one, against the list of the payloads that are wanted.
fn check_from_first(rt: &impl Abort, arena: &Arena<u32>, parent: Key, wanted: &[u32])
    requires { parent < length arena.now.payloads }
{
    let mut at = arena.first(parent);
    for payload in wanted {
        let child = at.expect(rt, "a child is missing");
        assert!(rt; arena.payload(child) == payload);
        assert!(rt; arena.parent(child) == Some(parent));
        at = arena.next(child);
    }
    assert!(rt; at.is_none());
}

// Checks the children of a node, read from the last one.
fn check_from_last(rt: &impl Abort, arena: &Arena<u32>, parent: Key, wanted: &[u32])
    requires { parent < length arena.now.payloads }
{
    let mut at = arena.last(parent);
    for payload in wanted.iter().rev() {
        let child = at.expect(rt, "a child is missing");
        assert!(rt; arena.payload(child) == payload);
        at = arena.prev(child);
    }
    assert!(rt; at.is_none());
}

// Checks the children of a node, read from both ends, against the list of the payloads that are wanted.
fn check_children(rt: &impl Abort, arena: &Arena<u32>, parent: Key, wanted: &[u32])
    requires { parent < length arena.now.payloads }
{
    check_from_first(rt, arena, parent, wanted);
    check_from_last(rt, arena, parent, wanted);
}

// Adds four nodes and moves them.
fn add_and_move(rt: &impl Abort, arena: &mut Arena<u32>) -> Result<(), AllocError> {
    let root = arena.add(0)?;
    let one = arena.add(1)?;
    let two = arena.add(2)?;
    let three = arena.add(3)?;
    move_children(rt, arena, root, one, two, three);
    Ok(())
}

#[test]
fn children_stand_where_they_are_put(rt: HostRuntime) {
    let mut arena = Arena::new(rt.alloc());
    let moved = add_and_move(&rt, &mut arena);
    assert!(rt; moved.is_ok());
}

// Puts three nodes below a root, takes them out and puts them below one another.
fn move_children(rt: &impl Abort, arena: &mut Arena<u32>, root: Key, one: Key, two: Key, three: Key)
    requires root { root < length arena.old.payloads }
    requires one { one < length arena.old.payloads }
    requires two { two < length arena.old.payloads }
    requires three { three < length arena.old.payloads }
{
    check_children(rt, arena, root, &[]);
    link(rt, arena, root, two, None);
    link(rt, arena, root, one, Some(two));
    link(rt, arena, root, three, None);
    check_children(rt, arena, root, &[1, 2, 3]);
    arena.unlink(two);
    check_children(rt, arena, root, &[1, 3]);
    assert!(rt; arena.parent(two).is_none());
    assert!(rt; arena.next(two).is_none());
    assert!(rt; arena.prev(two).is_none());
    arena.unlink(two);
    link(rt, arena, one, two, None);
    arena.unlink(three);
    link(rt, arena, two, three, None);
    check_children(rt, arena, root, &[1]);
    assert!(rt; arena.is_inclusive_ancestor(root, three));
    assert!(rt; arena.is_inclusive_ancestor(root, root));
    assert!(rt; !arena.is_inclusive_ancestor(three, root));
    assert!(rt; !arena.is_known_above(root, three));
    arena.remember_ancestor(root, two);
    assert!(rt; arena.is_known_above(root, one));
    assert!(rt; arena.is_known_above(root, two));
    assert!(rt; arena.is_known_above(root, three));
    arena.unlink(one);
    assert!(rt; !arena.is_known_above(root, three));
    check_children(rt, arena, root, &[]);
    check_children(rt, arena, one, &[2]);
}

// Adds two nodes, one below the other, and writes a payload.
fn add_and_write(rt: &impl Abort, arena: &mut Arena<u32>) -> Result<(), AllocError> {
    let root = arena.add(7)?;
    let child = arena.add(8)?;
    link(rt, arena, root, child, None);
    *arena.payload_mut(child) = 18;
    assert!(rt; *arena.payload(root) == 7);
    check_children(rt, arena, root, &[18]);
    assert!(rt; root != child && root < child);
    Ok(())
}

#[test]
fn a_payload_is_written(rt: HostRuntime) {
    let mut arena = Arena::new(rt.alloc());
    let written = add_and_write(&rt, &mut arena);
    assert!(rt; written.is_ok());
}

// Adds the numbers below 100,000 below a root, each before the one added last, and gives their nodes.
fn add_numbers(
    rt: &impl Abort,
    alloc: Global,
    arena: &mut Arena<u32>,
    root: Key,
) -> Result<Vec<Key>, AllocError>
    requires { root < length arena.old.payloads }
    ensures root { OnOk result (root < length arena.new.payloads) }
    ensures children { IfOk result (λ children. All (λ k. k < length arena.new.payloads) children.items) }
{
    let mut before = None;
    let mut children = Vec::new(alloc);
    for number in 0..100_000u32 {
        let child = arena.add(number)?;
        link(rt, arena, root, child, before);
        before = Some(child);
        children.push(child)?;
    }
    Ok(children)
}

// Takes the nodes with even numbers out.
fn unlink_even(arena: &mut Arena<u32>, children: &[Key])
    requires { All (λ k. k < length arena.old.payloads) children.now }
    ensures { length arena.new.payloads ≡ length arena.old.payloads }
{
    for child in children {
        if *arena.payload(*child) % 2 == 0 {
            arena.unlink(*child);
        }
    }
}

// The odd numbers below 100,000, falling.
fn odd_numbers(alloc: Global) -> Result<Vec<u32>, AllocError> {
    let mut numbers = Vec::new(alloc);
    for half in (0..50_000).rev() {
        numbers.push(2 * half + 1)?;
    }
    Ok(numbers)
}

// Adds numbers, takes the even ones out and looks at the others.
fn add_and_unlink(
    rt: &impl Abort,
    alloc: Global,
    arena: &mut Arena<u32>,
) -> Result<(), AllocError> {
    let odd = odd_numbers(alloc)?;
    let root = arena.add(0)?;
    let children = add_numbers(rt, alloc, arena, root)?;
    unlink_even(arena, children.as_slice());
    check_children(rt, arena, root, odd.as_slice());
    Ok(())
}

#[test]
fn many_children_go_and_stay(rt: HostRuntime) {
    let mut arena = Arena::new(rt.alloc());
    let unlinked = add_and_unlink(&rt, rt.alloc(), &mut arena);
    assert!(rt; unlinked.is_ok());
}

// A number below a bound, which changes from call to call.
fn next_below(state: &mut u64, bound: u64) -> usize
    requires { 0 < bound }
    ensures { result < bound }
{
    *state = state
        .wrapping_mul(6_364_136_223_846_793_005)
        .wrapping_add(1_442_695_040_888_963_407);
    ((*state >> 33) % bound) as usize
}

// A child of a list by its number there.
fn child_at<T>(rt: &impl Abort, arena: &Arena<T>, children: &[Key], number: usize) -> Key
    requires { All (λ k. k < length arena.now.payloads) children.now }
    ensures { result < length arena.now.payloads }
{
    *children.get(number).expect(rt, "a child is missing")
}

// Puts a child before another one, after its siblings and those of the other one are remembered.
fn move_before<T>(rt: &impl Abort, arena: &mut Arena<T>, root: Key, child: Key, next: Key)
    requires root { root < length arena.old.payloads }
    requires child { child < length arena.old.payloads }
    requires next { next < length arena.old.payloads }
    ensures { length arena.new.payloads ≡ length arena.old.payloads }
{
    arena.remember_siblings(child, usize::MAX);
    arena.unlink(child);
    assert!(rt; arena.index_below(child, usize::MAX) == Some(0));
    arena.remember_siblings(next, usize::MAX);
    link(rt, arena, root, child, Some(next));
}

// Moves children, by turns one at random and the first one into the middle, and does the same with a plain list of their numbers.
fn reorder<T>(
    rt: &impl Abort,
    arena: &mut Arena<T>,
    root: Key,
    children: &[Key],
    order: &mut Vec<usize>,
) -> Result<(), AllocError>
    requires root { root < length arena.old.payloads }
    requires children { All (λ k. k < length arena.old.payloads) children.now }
    ensures { length arena.new.payloads ≡ length arena.old.payloads }
{
    let mut state = 1;
    for turn in 0..2_000 {
        let (from, to) = if turn % 2 == 0 {
            (
                next_below(&mut state, 100_000),
                next_below(&mut state, 99_999),
            )
        } else {
            (0, 50_000)
        };
        assert!(rt; from < order.len());
        let number = order.remove(from);
        assert!(rt; to < order.len());
        let next = child_at(rt, arena, children, order[to]);
        let child = child_at(rt, arena, children, number);
        order.insert(to, number)?;
        move_before(rt, arena, root, child, next);
        assert!(rt; arena.index_below(next, usize::MAX) == Some(to + 1));
        assert!(rt; arena.index_below(child, usize::MAX) == Some(to));
    }
    Ok(())
}

// The numbers below 100,000, falling.
fn falling(alloc: Global) -> Result<Vec<usize>, AllocError> {
    let mut order = Vec::new(alloc);
    for number in (0..100_000).rev() {
        order.push(number)?;
    }
    Ok(order)
}

// Looks whether every hundredth child is where the plain list has it.
fn check_places<T>(rt: &impl Abort, arena: &Arena<T>, children: &[Key], order: &[usize])
    requires { All (λ k. k < length arena.now.payloads) children.now }
{
    for step in 0..1_000 {
        let place = step * 100;
        assert!(rt; place < order.len());
        let child = child_at(rt, arena, children, order[place]);
        assert!(rt; arena.index_below(child, usize::MAX) == Some(place));
    }
}

// Adds numbers, moves them and looks where they are.
fn add_and_reorder(
    rt: &impl Abort,
    alloc: Global,
    arena: &mut Arena<u32>,
    order: &mut Vec<usize>,
) -> Result<(), AllocError> {
    let root = arena.add(0)?;
    let children = add_numbers(rt, alloc, arena, root)?;
    reorder(rt, arena, root, children.as_slice(), order)?;
    check_places(rt, arena, children.as_slice(), order.as_slice());
    Ok(())
}

#[test]
fn remembered_children_are_where_they_are_put(rt: HostRuntime) -> Result<(), Fail> {
    let mut order = falling(rt.alloc())?;
    let mut arena = Arena::new(rt.alloc());
    let reordered = add_and_reorder(&rt, rt.alloc(), &mut arena, &mut order);
    assert!(rt; reordered.is_ok());
    Ok(())
}

// Adds a payload with one number.
fn add_alone(
    rt: &impl Abort,
    alloc: Global,
    arena: &mut Arena<Vec<u32>>,
    number: u32,
) -> Result<(), AllocError> {
    let mut payload = Vec::new(alloc);
    payload.push(number)?;
    let key = arena.add(payload)?;
    assert!(rt; arena.payload(key).as_slice() == [number].as_slice());
    Ok(())
}

#[test]
fn payloads_go_with_the_arena(rt: HostRuntime) {
    let mut arena = Arena::new(rt.alloc());
    for number in 0..1_000u32 {
        let added = add_alone(&rt, rt.alloc(), &mut arena, number);
        assert!(rt; added.is_ok());
    }
}

// A payload that counts how often payloads were dropped.
struct Counted<'a> {
    drops: &'a Cell<u32>,
}

impl Drop for Counted<'_> {
    fn drop(self) {
        let Counted { drops } = self;
        drops.set(drops.get().wrapping_add(1));
    }
}

#[test]
fn each_payload_is_dropped_once_with_its_arena(rt: HostRuntime) {
    let drops = Cell::new(0);
    let mut arena = Arena::new(rt.alloc());
    let Ok(root) = arena.add(Counted { drops: &drops }) else {
        panic!(rt; "no memory");
    };
    for _ in 0..999 {
        let Ok(child) = arena.add(Counted { drops: &drops }) else {
            panic!(rt; "no memory");
        };
        link(&rt, &mut arena, root, child, None);
    }
    assert!(rt; drops.get() == 0);
    drop(arena);
    assert!(rt; drops.get() == 1000);
}
