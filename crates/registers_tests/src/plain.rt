// The plain register.
use crate::script::{EMPTY, fills, takes_out, tells_what_is_in_the_way};
use registers::{Full, Pieces, PlainRegister, Register};
use std::test::Fail;

#[test]
fn full_and_emptied(rt: HostRuntime) -> Result<(), Fail> {
    let mut slots = [EMPTY; 4];
    fills(&rt, &mut PlainRegister::new(&mut slots))
}

#[test]
fn jobs_taken_out(rt: HostRuntime) -> Result<(), Fail> {
    let mut slots = [EMPTY; 6];
    takes_out(&rt, &mut PlainRegister::new(&mut slots))
}

#[test]
fn in_the_way(rt: HostRuntime) {
    let mut slots = [EMPTY; 4];
    tells_what_is_in_the_way(&rt, &mut PlainRegister::new(&mut slots));
}

#[test]
fn no_slots(rt: HostRuntime) {
    let mut slots = [EMPTY; 0];
    let mut r = PlainRegister::new(&mut slots);
    assert_eq!(rt; r.free(), 0);
    assert_eq!(rt; r.add(EMPTY), Err(Full));
    assert_eq!(rt; r.take_out(0), 0);
    assert_eq!(rt; r.count(), 0);
}

#[test]
fn no_more_than_4096(rt: HostRuntime) {
    let mut slots = [EMPTY; 4100];
    let mut r = PlainRegister::new(&mut slots);
    assert_eq!(rt; r.free(), 4096);
    for _ in 0..4096 {
        assert_eq!(rt; r.add(EMPTY), Ok(()));
    }
    assert_eq!(rt; r.free(), 0);
    assert_eq!(rt; r.add(EMPTY), Err(Full));
    assert_eq!(rt; r.count(), 4096);
    assert_eq!(rt; r.take_out(0), 4096);
    assert_eq!(rt; r.free(), 4096);
}
