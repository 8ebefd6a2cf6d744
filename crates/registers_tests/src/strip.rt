// The strip register.
use crate::script::{EMPTY, fills, takes_out, tells_what_is_in_the_way};
use crate::spread::agree;
use registers::{Full, Pieces, PlainRegister, Register, StripRegister};
use std::test::Fail;

/// Heights that cut y in different ways.
const HEIGHTS: [u32; 5] = [0, 1, 60, 60000, u32::MAX];

#[test]
fn full_and_emptied(rt: HostRuntime) -> Result<(), Fail> {
    for height in HEIGHTS {
        let mut slots = [EMPTY; 4];
        let mut links = [7; 5];
        fills(&rt, &mut StripRegister::new(&mut slots, &mut links, height))?;
    }
    Ok(())
}

#[test]
fn jobs_taken_out(rt: HostRuntime) -> Result<(), Fail> {
    for height in HEIGHTS {
        let mut slots = [EMPTY; 7];
        let mut links = [u16::MAX; 6];
        takes_out(&rt, &mut StripRegister::new(&mut slots, &mut links, height))?;
    }
    Ok(())
}

#[test]
fn in_the_way(rt: HostRuntime) {
    for height in HEIGHTS {
        let mut slots = [EMPTY; 4];
        let mut links = [0; 4];
        tells_what_is_in_the_way(&rt, &mut StripRegister::new(&mut slots, &mut links, height));
    }
}

#[test]
fn no_links(rt: HostRuntime) {
    let mut slots = [EMPTY; 4];
    let mut links = [0; 0];
    let mut r = StripRegister::new(&mut slots, &mut links, 60);
    assert_eq!(rt; r.free(), 0);
    assert_eq!(rt; r.add(EMPTY), Err(Full));
    assert_eq!(rt; r.take_out(0), 0);
    assert_eq!(rt; r.count(), 0);
}

#[test]
fn agrees_with_the_plain_one(rt: HostRuntime) {
    for height in HEIGHTS {
        let mut slots = [EMPTY; 128];
        let mut links = [0; 128];
        let mut strip = StripRegister::new(&mut slots, &mut links, height);
        let mut others = [EMPTY; 128];
        agree(&rt, &mut PlainRegister::new(&mut others), &mut strip);
    }
}
