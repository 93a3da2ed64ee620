// The order of a recorder's frames, and starts that are no frame.
use frame::{Cause, Recorder, Source, Trace};

// Frames of fronts 5, 7 and 9, and three bytes more.
const BYTES: &[u8] = b"\0\x05\0\x08\0\0\0\xd5\
    \0\x07\0\x02\0\0\0\xe2\
    \0\x09\0\x09\x01\0\0\xc8\
    \x01\x02\x03";

// The cause of a source that has no such frame.
const MISSING: Cause = Cause { number: 1 };

// The fronts of the first frames.
fn fronts<S: Source>(source: &S) -> [Result<u16, Cause>; 4] {
    [0, 1, 2, 3].map(|k| source.frame(k).map(|frame| frame.front))
}

const NONE: [Result<u16, Cause>; 4] = [Err(MISSING); 4];

// A start, the number of frames, and the fronts from there on.
const STARTS: [(usize, usize, [Result<u16, Cause>; 4]); 6] = [
    (0, 3, [Ok(5), Ok(7), Ok(9), Err(MISSING)]),
    (1, 3, [Ok(7), Ok(9), Ok(5), Err(MISSING)]),
    (2, 3, [Ok(9), Ok(5), Ok(7), Err(MISSING)]),
    (3, 0, NONE),
    (4, 0, NONE),
    (usize::MAX, 0, NONE),
];

#[test]
fn recorder_turns(rt: HostRuntime) {
    for (start, count, expected) in STARTS {
        let recorder = Recorder {
            bytes: BYTES,
            start,
        };
        assert_eq!(rt; recorder.count(), count);
        assert_eq!(rt; fronts(&recorder), expected);
        assert_eq!(rt; recorder.frame(u32::MAX), Err(MISSING));
    }
}

#[test]
fn trace_goes_straight(rt: HostRuntime) {
    let trace = Trace { bytes: BYTES };
    assert_eq!(rt; trace.count(), 3);
    assert_eq!(rt; fronts(&trace), [Ok(5), Ok(7), Ok(9), Err(MISSING)]);
    assert_eq!(rt; trace.frame(u32::MAX), Err(MISSING));
}

#[test]
fn no_bytes_have_no_frames(rt: HostRuntime) {
    let bytes = &BYTES[0..7];
    let trace = Trace { bytes };
    assert_eq!(rt; trace.count(), 0);
    assert_eq!(rt; fronts(&trace), NONE);
    let recorder = Recorder { bytes, start: 0 };
    assert_eq!(rt; recorder.count(), 0);
    assert_eq!(rt; fronts(&recorder), NONE);
}
