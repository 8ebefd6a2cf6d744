// What every register does, told by the answers alone.
use geometry::{Mark, Piece, Question, Rect, Span};
use registers::{Full, Register};
use std::process::Abort;
use std::test::Fail;

pub const EMPTY: Piece = Piece {
    layer: 0,
    rect: Rect {
        x: Span { low: 0, high: 0 },
        y: Span { low: 0, high: 0 },
    },
    net: 0,
    space: 0,
    job: 0,
    mark: Mark::Placed,
};

/// A keep-out on layer 1 with these borders in x.
fn bar(job: u16, low: i32, high: i32, mark: Mark) -> Piece {
    let rect = Rect {
        x: Span { low, high },
        y: Span { low: 0, high: 60 },
    };
    Piece {
        layer: 1,
        rect,
        net: 0,
        space: 0,
        job,
        mark,
    }
}

/// The point x, 30 on a layer, at reach 2 and space 3, for net 7.
fn about(layer: u8, x: i32, laid: bool) -> Question {
    let area = Rect {
        x: Span { low: x, high: x },
        y: Span { low: 30, high: 30 },
    };
    Question {
        layer,
        net: 7,
        reach: 2,
        space: 3,
        area,
        laid,
    }
}

/// The job numbers of the standing pieces are these, in this order.
fn jobs_are<R: Register>(rt: &impl Abort, r: &R, jobs: &[u16]) -> Result<(), Fail> {
    assert_eq!(rt; r.count(), jobs.len());
    for (k, job) in jobs.iter().enumerate() {
        let Some(p) = r.piece(k) else {
            return Err(Fail::new("a piece is missing"));
        };
        assert_eq!(rt; p.job, *job);
    }
    assert!(rt; r.piece(jobs.len()).is_none());
    assert!(rt; r.piece(usize::MAX).is_none());
    Ok(())
}

/// Four places: they fill, the fifth piece is refused, and an emptied register fills again.
pub fn fills<R: Register>(rt: &impl Abort, r: &mut R) -> Result<(), Fail> {
    for jobs in [[3, 1, 3, 2], [5, 5, 65535, 0]] {
        jobs_are(rt, r, &[])?;
        assert_eq!(rt; r.free(), 4);
        for job in jobs {
            assert_eq!(rt; r.add(bar(job, 0, 1, Mark::Placed)), Ok(()));
        }
        assert_eq!(rt; r.free(), 0);
        assert_eq!(rt; r.add(bar(9, 0, 1, Mark::Laid)), Err(Full));
        jobs_are(rt, r, &jobs)?;
        r.clear();
    }
    jobs_are(rt, r, &[])
}

/// A call of take out, how many pieces go, and which are left.
#[derive(Clone, Copy, Debug, PartialEq, Eq)]
struct Taken<'a> {
    job: u32,
    went: usize,
    left: &'a [u16],
}

/// Six places: the order of the rest is kept, and a number that nothing has takes nothing, also beyond 16 bits.
pub fn takes_out<R: Register>(rt: &impl Abort, r: &mut R) -> Result<(), Fail> {
    for job in [7, 65535, 7, 1, 7, 2] {
        assert_eq!(rt; r.add(bar(job, 0, 1, Mark::Placed)), Ok(()));
    }
    let calls = [
        Taken {
            job: 0,
            went: 0,
            left: &[7, 65535, 7, 1, 7, 2],
        },
        Taken {
            job: 3,
            went: 0,
            left: &[7, 65535, 7, 1, 7, 2],
        },
        Taken {
            job: 65536 + 7,
            went: 0,
            left: &[7, 65535, 7, 1, 7, 2],
        },
        Taken {
            job: u32::MAX,
            went: 0,
            left: &[7, 65535, 7, 1, 7, 2],
        },
        Taken {
            job: 7,
            went: 3,
            left: &[65535, 1, 2],
        },
        Taken {
            job: 7,
            went: 0,
            left: &[65535, 1, 2],
        },
        Taken {
            job: 2,
            went: 1,
            left: &[65535, 1],
        },
        Taken {
            job: 65535,
            went: 1,
            left: &[1],
        },
        Taken {
            job: 1,
            went: 1,
            left: &[],
        },
        Taken {
            job: 1,
            went: 0,
            left: &[],
        },
    ];
    for call in &calls {
        assert_eq!(rt; r.take_out(call.job), call.went);
        jobs_are(rt, r, call.left)?;
    }
    assert_eq!(rt; r.free(), 6);
    assert_eq!(rt; r.add(bar(8, 0, 1, Mark::Laid)), Ok(()));
    jobs_are(rt, r, &[8])
}

/// A question, and the job number of the only piece in the way, if one is.
#[derive(Clone, Copy, Debug, PartialEq, Eq)]
struct Asked {
    layer: u8,
    x: i32,
    laid: bool,
    job: Option<u16>,
}

const ASKED: [Asked; 12] = [
    // on the borders of the first zone, and inside
    Asked {
        layer: 1,
        x: 35,
        laid: false,
        job: None,
    },
    Asked {
        layer: 1,
        x: 36,
        laid: false,
        job: Some(1),
    },
    Asked {
        layer: 1,
        x: 54,
        laid: false,
        job: Some(1),
    },
    Asked {
        layer: 1,
        x: 55,
        laid: false,
        job: None,
    },
    Asked {
        layer: 2,
        x: 45,
        laid: false,
        job: None,
    },
    // the first is placed, the second laid
    Asked {
        layer: 1,
        x: 45,
        laid: true,
        job: None,
    },
    Asked {
        layer: 1,
        x: 75,
        laid: true,
        job: Some(2),
    },
    Asked {
        layer: 1,
        x: 75,
        laid: false,
        job: Some(2),
    },
    // below 0, and at the ends of 32 bits
    Asked {
        layer: 1,
        x: -100,
        laid: false,
        job: Some(3),
    },
    Asked {
        layer: 1,
        x: i32::MIN,
        laid: false,
        job: Some(4),
    },
    Asked {
        layer: 1,
        x: i32::MAX,
        laid: false,
        job: None,
    },
    Asked {
        layer: 1,
        x: 0,
        laid: false,
        job: None,
    },
];

/// Four places and four pieces: absent exactly if none is in the way.
pub fn tells_what_is_in_the_way<R: Register>(rt: &impl Abort, r: &mut R) {
    assert_eq!(rt; r.add(bar(1, 40, 50, Mark::Placed)), Ok(()));
    assert_eq!(rt; r.add(bar(2, 70, 80, Mark::Laid)), Ok(()));
    assert_eq!(rt; r.add(bar(3, -110, -90, Mark::Placed)), Ok(()));
    assert_eq!(rt; r.add(bar(4, i32::MIN, i32::MIN + 8, Mark::Placed)), Ok(()));
    for row in &ASKED {
        let question = about(row.layer, row.x, row.laid);
        assert_eq!(rt; r.in_the_way(&question), row.job);
    }
    assert_eq!(rt; r.take_out(1), 1);
    assert_eq!(rt; r.in_the_way(&about(1, 45, false)), None);
    assert_eq!(rt; r.in_the_way(&about(1, 75, false)), Some(2));
    r.clear();
    assert_eq!(rt; r.in_the_way(&about(1, 75, false)), None);
}
