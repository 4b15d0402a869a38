//! Sessions to which memory may be refused: `examples/faults/check` runs this test with one request after the other refused.

use dom_engine::Session;

const LINES: [&[u8]; 6] = [
    b"p new element div",
    b"p attach n1",
    b"p micro done",
    b"p .",
    b"c1 new element slot",
    b"c1 append m0 m1",
];

const ANSWERS: [&[u8]; 6] = [
    b"p ok n1\n",
    b"p ok c1\n",
    b"p ok\n",
    b"p micro done\np ok\n",
    b"c1 ok m1\n",
    b"c1 ok\n",
];

#[test]
fn want_of_memory_is_final(rt: HostRuntime) {
    let Ok(mut session) = Session::new(rt.alloc()) else {
        return;
    };
    for (line, answer) in LINES.iter().zip(ANSWERS) {
        match session.line(line) {
            Ok(text) => assert!(rt; text.as_slice() == answer),
            Err(_) => {
                assert!(rt; session.line(b"p tree n0").is_err());
                assert!(rt; session.finish().is_err());
                return;
            }
        }
    }
}
