// Frames that read, and why others do not.
use frame::{Cause, Frame, FrameError, frame_at};
use std::process::Abort;

type Row = ([u8; 8], Result<Frame, FrameError>);

const READ: [Row; 5] = [
    (
        [0x9c, 0x40, 0x00, 0x00, 0x00, 0x00, 0x00, 0xf9],
        Ok(Frame {
            front: 40_000,
            rear: 0,
            flags: 0,
        }),
    ),
    (
        [0x00, 0x00, 0x9c, 0x40, 0x00, 0x00, 0x00, 0x91],
        Ok(Frame {
            front: 0,
            rear: 40_000,
            flags: 0,
        }),
    ),
    (
        [0x9c, 0x40, 0x9c, 0x40, 0x07, 0x00, 0x00, 0xe8],
        Ok(Frame {
            front: 40_000,
            rear: 40_000,
            flags: 7,
        }),
    ),
    (
        [0x00, 0x05, 0x00, 0x08, 0x00, 0x00, 0x00, 0xd5],
        Ok(Frame {
            front: 5,
            rear: 8,
            flags: 0,
        }),
    ),
    (
        [0x00, 0x00, 0x00, 0x00, 0x00, 0x00, 0x00, 0x0a],
        Ok(Frame {
            front: 0,
            rear: 0,
            flags: 0,
        }),
    ),
];

const REFUSED: [Row; 12] = [
    // The check is wrong in its lowest bit.
    (
        [0x00, 0x05, 0x00, 0x08, 0x00, 0x00, 0x00, 0xd4],
        Err(FrameError::WrongCheck),
    ),
    // Right checks, and a bit that must be zero: bits 3 and 7 of byte 4, bit 0 of byte 5, bits 0 and 7 of byte 6.
    (
        [0x00, 0x05, 0x00, 0x08, 0x08, 0x00, 0x00, 0xd9],
        Err(FrameError::NotZero),
    ),
    (
        [0x00, 0x05, 0x00, 0x08, 0x80, 0x00, 0x00, 0x15],
        Err(FrameError::NotZero),
    ),
    (
        [0x00, 0x05, 0x00, 0x08, 0x00, 0x01, 0x00, 0x99],
        Err(FrameError::NotZero),
    ),
    (
        [0x00, 0x05, 0x00, 0x08, 0x00, 0x00, 0x01, 0xc8],
        Err(FrameError::NotZero),
    ),
    (
        [0x00, 0x05, 0x00, 0x08, 0x00, 0x00, 0x80, 0xf3],
        Err(FrameError::NotZero),
    ),
    // Speeds of 40,001 in front, of 40,001 in the rear, of 65,535 in both.
    (
        [0x9c, 0x41, 0x00, 0x00, 0x00, 0x00, 0x00, 0xbf],
        Err(FrameError::TooFast),
    ),
    (
        [0x00, 0x00, 0x9c, 0x41, 0x00, 0x00, 0x00, 0x0c],
        Err(FrameError::TooFast),
    ),
    (
        [0xff, 0xff, 0xff, 0xff, 0x00, 0x00, 0x00, 0xbf],
        Err(FrameError::TooFast),
    ),
    // A wrong check comes before a bit that must be zero, and before a speed.
    (
        [0x00, 0x05, 0x00, 0x08, 0x00, 0x01, 0x00, 0x19],
        Err(FrameError::WrongCheck),
    ),
    (
        [0x9c, 0x41, 0x00, 0x00, 0x00, 0x00, 0x00, 0x40],
        Err(FrameError::WrongCheck),
    ),
    // A bit that must be zero comes before a speed.
    (
        [0x9c, 0x41, 0x00, 0x08, 0x00, 0x01, 0x00, 0x6f],
        Err(FrameError::NotZero),
    ),
];

fn check_rows(rt: &impl Abort, rows: &[Row]) {
    for (bytes, answer) in rows {
        assert_eq!(rt; frame_at(bytes, 0), *answer);
    }
}

#[test]
fn frames_read(rt: HostRuntime) {
    check_rows(&rt, &READ);
}

#[test]
fn frames_do_not_read(rt: HostRuntime) {
    check_rows(&rt, &REFUSED);
}

// Frames of fronts 5 and 7, and a third without its last byte.
const CUT: &[u8] = b"\0\x05\0\x08\0\0\0\xd5\
    \0\x07\0\x02\0\0\0\xe2\
    \0\x05\0\x08\0\0\0";

#[test]
fn a_cut_frame_is_missing(rt: HostRuntime) {
    let whole = Frame {
        front: 7,
        rear: 2,
        flags: 0,
    };
    assert_eq!(rt; frame_at(CUT, 1), Ok(whole));
    let missing = Err(FrameError::Missing);
    for rest in 0..8 {
        let bytes = &CUT[0..16 + rest];
        assert_eq!(rt; frame_at(bytes, 2), missing);
    }
    assert_eq!(rt; frame_at(CUT, usize::MAX), missing);
    assert_eq!(rt; frame_at(&[], 0), missing);
}

// The number of each error as the cause of a source.
#[test]
fn numbers_of_errors(rt: HostRuntime) {
    for (error, number) in [
        (FrameError::Missing, 1),
        (FrameError::WrongCheck, 2),
        (FrameError::NotZero, 3),
        (FrameError::TooFast, 4),
    ] {
        assert_eq!(rt; Cause::from(error).number, number);
    }
}
