// Listings and faults in buffers that fit them, or not.
use crate::{NoRoom, Outcome, Refused, write_fault, write_listing};
use machine::Layer;
use script::Verb;

#[test]
fn writes_each_line(rt: HostRuntime) {
    let outcomes = [
        Outcome::Done(Verb::Format),
        Outcome::Done(Verb::Start),
        Outcome::Done(Verb::Arrive),
        Outcome::Done(Verb::Cut),
        Outcome::Refused(Refused {
            number: 10,
            layer: Layer::Store,
        }),
        Outcome::Refused(Refused {
            number: 9,
            layer: Layer::Module,
        }),
    ];
    let mut out = [b'.'; 71];
    assert_eq!(rt; write_listing(&outcomes, &mut out[0..69]), Err(NoRoom));
    assert!(rt; out == [b'.'; 71]);
    assert_eq!(rt; write_listing(&outcomes, &mut out), Ok(70));
    assert!(rt;
        out == *b"format ok\nstart ok\narrive ok\ncut ok\nrefused 10 store\nrefused 9 module\n."
    );
}

#[test]
fn writes_a_fault(rt: HostRuntime) {
    let mut out = [b'.'; 25];
    assert_eq!(rt; write_fault(34, 2, 10, &mut out[0..23]), Err(NoRoom));
    assert!(rt; out == [b'.'; 25]);
    assert_eq!(rt; write_fault(34, 2, 10, &mut out), Ok(24));
    assert!(rt; out == *b"fault 34 line 2 byte 10\n.");
}
