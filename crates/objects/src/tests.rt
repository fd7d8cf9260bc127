// Examples of both ends, of every answer, and of words that are a picture or none.
use crate::answer::{Answer, code, value};
use crate::holder::{Queue, Stack};
use crate::object::Object;
use std::process::Abort;

fn shows(answer: Answer, number: u64, word: u64) -> bool {
    code(answer) == number && value(answer) == word
}

// Each row is an operation, its argument, and the code and the value that a fresh object comes to answer.
fn follows<O: Object>(rt: &impl Abort, rows: &[(u64, u64, u64, u64)]) {
    let mut object = O::fresh();
    for &(op, arg, number, word) in rows {
        assert!(rt; shows(object.apply(op, arg), number, word));
    }
}

#[test]
fn each_end_gives_its_entry(rt: HostRuntime) {
    let last = u64::MAX;
    follows::<Queue>(
        &rt,
        &[
            (2, 0, 1, 0),
            (1, 0, 0, 1),
            (1, last, 0, 2),
            (3, 0, 0, 0),
            (2, 0, 0, 0),
            (2, 0, 0, last),
            (3, 0, 1, 0),
        ],
    );
    follows::<Stack>(
        &rt,
        &[
            (2, 0, 1, 0),
            (1, 0, 0, 1),
            (1, last, 0, 2),
            (3, 0, 0, last),
            (2, 0, 0, last),
            (2, 0, 0, 0),
            (3, 0, 1, 0),
        ],
    );
}

fn filled<O: Object>(rt: &impl Abort) -> O {
    let mut object = O::fresh();
    for n in 0..32 {
        assert!(rt; shows(object.apply(1, n), 0, n + 1));
    }
    assert!(rt; shows(object.apply(1, 7), 2, 0));
    for op in [0, 4, u64::MAX] {
        assert!(rt; shows(object.apply(op, 7), 3, 0));
    }
    object
}

#[test]
fn a_full_object_refuses_and_stays(rt: HostRuntime) {
    let mut queue: Queue = filled(&rt);
    let mut stack: Stack = filled(&rt);
    assert!(rt; queue.picture() == stack.picture());
    for n in 0..32 {
        assert!(rt; shows(queue.apply(2, 0), 0, n));
        assert!(rt; shows(stack.apply(2, 0), 0, 31 - n));
    }
    assert!(rt; queue.picture() == [0; 40] && stack.picture() == [0; 40]);
}

#[test]
fn only_pictures_are_read(rt: HostRuntime) {
    let mut words = [0; 40];
    assert!(rt; Queue::from_picture(&words).is_some());
    words[1] = 9;
    assert!(rt; Queue::from_picture(&words).is_none());
    words[0] = 1;
    assert!(rt; Queue::from_picture(&words).is_some());
    words[0] = 32;
    assert!(rt; Stack::from_picture(&words).is_some());
    words[33] = 5;
    assert!(rt; Stack::from_picture(&words).is_none());
    words[0] = 33;
    assert!(rt; Stack::from_picture(&words).is_none());
    words[0] = u64::MAX;
    assert!(rt; Stack::from_picture(&words).is_none());
}
