// A list of three places, filled and refused.
use super::{Bounded, Full};

#[test]
fn fills_three_places(rt: HostRuntime) {
    let mut memory = [0u8; 3];
    let mut list = Bounded::new(&mut memory);
    assert_eq!(rt; list.extend(&[7, 8]), Ok(()));
    assert_eq!(rt; list.extend(&[9, 9]), Err(Full));
    assert!(rt; list.has_room());
    assert_eq!(rt; list.push(9), Ok(()));
    assert!(rt; !list.has_room());
    assert_eq!(rt; list.push(10), Err(Full));
    assert_eq!(rt; list.len(), 3);
    assert!(rt; list.as_slice() == b"\x07\x08\x09".as_slice());
}
