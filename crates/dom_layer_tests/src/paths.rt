//! What no line of a script reaches. It refuses related nodes of other owners: each tree of a path sees a related node of its own, and
//! a path is empty where the target would see itself as the related node. And the components that it makes are named by who attached
//! them: here the owner of a closed tree in another one has a number of its own. That tree sees out of it, and is not seen into.
mod scene;

use scene::run;

// The page's `span` is a child of a host, whose shadow tree has a slot and another element.
const SLOTTED: &str = "append n0 n1\n\
    attach n1 m0\n\
    append n1 n2\n\
    append m0 m1\n\
    append m0 m2";

// The lines of the scene where the `span` is a host itself.
const NESTED: &str = "append n0 n1\n\
    attach n1 m0\n\
    append n1 n2\n\
    attach n2 k0\n\
    append m0 m1\n\
    append m0 m2\n\
    append k0 k1";

// A host in the closed tree of another one, whose `span` is slotted there; the slot is a child of the inner host, and slotted again.
const WITHIN: &str = "append n0 n1\n\
    attach n1 m0\n\
    append n1 n2\n\
    append m0 m2\n\
    attach m2 k0\n\
    append m2 m1\n\
    append k0 k2\n\
    append k0 k1";

#[test]
fn no_path_where_the_target_sees_itself_as_related(rt: HostRuntime) {
    run(&rt, rt.alloc(), SLOTTED, ("n1", "m2", true), "");
}

#[test]
fn each_tree_sees_another_related_node(rt: HostRuntime) {
    let rows = "k1 k1 k1 n1 - k1 k0 n2 n1 n0\n\
        k0 - k1 n1 root k1 k0 n2 n1 n0\n\
        n2 n2 n2 n1 - n2 n1 n0\n\
        m1 - n2 m2 slot n2 m1 m0 n1 n0\n\
        m0 - n2 m2 root n2 m1 m0 n1 n0\n\
        n1 - n2 n1 - n2 n1 n0\n\
        n0 - n2 n1 - n2 n1 n0";
    run(&rt, rt.alloc(), NESTED, ("k1", "m2", true), rows);
}

#[test]
fn an_inner_tree_sees_the_outer_ones(rt: HostRuntime) {
    let rows = "k1 k1 k1 - - k1 k0 m2 m0 n1 n0\n\
        k0 - k1 - root k1 k0 m2 m0 n1 n0\n\
        m2 m2 m2 - - m2 m0 n1 n0\n\
        m0 - m2 - root m2 m0 n1 n0\n\
        n1 n1 n1 - - n1 n0\n\
        n0 - n1 - - n1 n0";
    run(&rt, rt.alloc(), WITHIN, ("k1", "", true), rows);
}

#[test]
fn a_path_goes_through_two_slots(rt: HostRuntime) {
    let rows = "n2 n2 n2 - - n2 n1 n0\n\
        m1 - n2 - slot n2 m1 m2 m0 n1 n0\n\
        k2 - n2 - slot n2 m1 k2 k0 m2 m0 n1 n0\n\
        k0 - n2 - root n2 m1 k2 k0 m2 m0 n1 n0\n\
        m2 - n2 - - n2 m1 m2 m0 n1 n0\n\
        m0 - n2 - root n2 m1 m2 m0 n1 n0\n\
        n1 - n2 - - n2 n1 n0\n\
        n0 - n2 - - n2 n1 n0";
    run(&rt, rt.alloc(), WITHIN, ("n2", "", true), rows);
}

#[test]
fn a_path_ends_in_the_outer_tree(rt: HostRuntime) {
    let rows = "k1 k1 k1 m1 - k1 k0 m2 m0\n\
        k0 - k1 m1 root k1 k0 m2 m0\n\
        m2 m2 m2 m1 - m2 m0\n\
        m0 - m2 m1 root m2 m0";
    run(&rt, rt.alloc(), WITHIN, ("k1", "m1", true), rows);
}
