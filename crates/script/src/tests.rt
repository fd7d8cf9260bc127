// Scripts, with the setup, the calls and the fault that they come to.
use crate::{Call, MemoryKind, ObjectKind, Setup, read_script};
use bounded::Bounded;

// The number, the line and the byte of the fault; or 0, the number of calls and 0.
fn outcome(script: &[u8], memory: &mut [Call]) -> (u64, usize, usize) {
    let mut calls = Bounded::new(memory);
    match read_script(script, &mut calls) {
        Ok(_) => (0, calls.len(), 0),
        Err(fault) => (fault.kind.number(), fault.line, fault.byte),
    }
}

fn fill_with_cuts(lines: &mut [u8]) {
    for (i, byte) in lines.iter_mut().enumerate() {
        *byte = b"cut\n"[i % 4];
    }
}

#[test]
fn reads_setup_and_calls(rt: HostRuntime) {
    let mut memory = [Call::Cut; 5];
    let mut calls = Bounded::new(&mut memory);
    assert_eq!(rt; calls.push(Call::Start), Ok(()));
    let script = b"store stack prompt\nformat 18446744073709551615\nstart\narrive 0\ncut";
    assert_eq!(rt;
        read_script(script, &mut calls),
        Ok(Setup {
            object: ObjectKind::Stack,
            memory: MemoryKind::Prompt
        })
    );
    assert_eq!(rt;
        calls.as_slice(),
        [
            Call::Start,
            Call::Format(18_446_744_073_709_551_615),
            Call::Start,
            Call::Arrive(0),
            Call::Cut
        ]
        .as_slice()
    );
}

#[test]
fn judges_the_first_line(rt: HostRuntime) {
    let mut memory = [Call::Cut; 1];
    assert_eq!(rt; outcome(b"", &mut memory), (35, 1, 1));
    assert_eq!(rt; outcome(b"\nstore queue lazy", &mut memory), (35, 1, 1));
    assert_eq!(rt; outcome(b"store  queue lazy", &mut memory), (35, 1, 1));
    assert_eq!(rt; outcome(b"store queue lazy \n", &mut memory), (35, 1, 1));
    assert_eq!(rt; outcome(b"store queue lazy", &mut memory), (0, 0, 0));
    assert_eq!(rt; outcome(b"store queue lazy\n", &mut memory), (0, 0, 0));
}

#[test]
fn finds_the_first_fault(rt: HostRuntime) {
    let mut memory = [Call::Cut; 2];
    assert_eq!(rt;
        outcome(b"store queue lazy\n\ncut", &mut memory),
        (32, 2, 1)
    );
    assert_eq!(rt;
        outcome(b"store queue lazy\ncut\nstart \n", &mut memory),
        (33, 3, 1)
    );
    assert_eq!(rt;
        outcome(b"store queue lazy\nformat  1", &mut memory),
        (33, 2, 1)
    );
    assert_eq!(rt;
        outcome(b"store queue lazy\narrive 01", &mut memory),
        (34, 2, 8)
    );
    assert_eq!(rt;
        outcome(
            b"store queue lazy\nformat 18446744073709551616",
            &mut memory,
        ),
        (34, 2, 8)
    );
    assert_eq!(rt;
        outcome(b"store queue lazy\ncut\ncut\n7", &mut memory),
        (31, 4, 1)
    );
}

#[test]
fn keeps_to_its_limits(rt: HostRuntime) {
    let long = [b'x'; 32_769];
    let mut memory = [Call::Start; 514];
    assert_eq!(rt; outcome(&long[0..32_768], &mut memory), (35, 1, 1));
    assert_eq!(rt; outcome(&long, &mut memory), (38, 1, 1));
    let mut script = [b'\n'; 2069];
    script[0..17].copy_from_slice(b"store queue lazy\n");
    fill_with_cuts(&mut script[17..2069]);
    assert_eq!(rt; outcome(&script[0..2065], &mut memory), (0, 512, 0));
    assert_eq!(rt; outcome(&script, &mut memory), (31, 514, 1));
}
