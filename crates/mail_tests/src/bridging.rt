// Bridges: which mail a message goes to, what the other one held before, and bridges of bridges.
use crate::Shut;
use crate::steps::{Step, empty, fill, play};
use boxes::Boxes;
use bridge::Bridge;
use line::Line;
use mail::Mail;
use mail::MailRefusal::Full;
use std::process::Abort;

// Where two posts, to the processors 8 and 9, went: how many to the first mail, how many to the second.
fn parted(rt: &impl Abort, split: u8) -> (u16, u16) {
    let mut bridge = Bridge {
        first: Line::new(),
        second: Boxes::new(),
        split,
    };
    play(
        rt,
        &mut bridge,
        &[
            Step::Post(8, 1, 1, 0, Ok(())),
            Step::Post(9, 1, 1, 0, Ok(())),
            Step::Waiting(2),
        ],
    );
    (bridge.first.waiting(), bridge.second.waiting())
}

#[test]
fn split_parts_the_receivers(rt: HostRuntime) {
    for (split, first, second) in [
        (0, 0, 2),
        (7, 0, 2),
        (8, 1, 1),
        (9, 2, 0),
        (16, 2, 0),
        (255, 2, 0),
    ] {
        assert_eq!(rt; parted(&rt, split), (first, second));
    }
}

// Both mails hold a request for 3 and one for 12 before they are joined at 8.
#[test]
fn what_the_other_held_comes_first(rt: HostRuntime) {
    let mut first = Line::new();
    let mut second = Boxes::new();
    play(
        &rt,
        &mut first,
        &[
            Step::Post(3, 1, 1, 0, Ok(())),
            Step::Post(12, 1, 1, 0, Ok(())),
        ],
    );
    play(
        &rt,
        &mut second,
        &[
            Step::Post(3, 2, 1, 0, Ok(())),
            Step::Post(12, 2, 1, 0, Ok(())),
        ],
    );
    let mut bridge = Bridge {
        first,
        second,
        split: 8,
    };
    play(
        &rt,
        &mut bridge,
        &[
            Step::Waiting(4),
            Step::Post(3, 5, 1, 0, Ok(())),
            Step::Post(12, 5, 1, 0, Ok(())),
            Step::Take(3, 1, Ok(Some((2, 0)))),
            Step::Take(3, 1, Ok(Some((1, 0)))),
            Step::Take(3, 1, Ok(Some((5, 0)))),
            Step::Take(3, 1, Ok(None)),
            Step::Take(12, 1, Ok(Some((1, 0)))),
            Step::Take(12, 1, Ok(Some((5, 0)))),
            Step::Take(12, 1, Ok(Some((2, 0)))),
            Step::Take(12, 1, Ok(None)),
            Step::Waiting(0),
        ],
    );
}

// Processors 1 and 2 in a line, 3 and 4 in boxes, the others in another line.
#[test]
fn bridge_of_a_bridge(rt: HostRuntime) {
    let inner = Bridge {
        first: Boxes::new(),
        second: Line::new(),
        split: 4,
    };
    let mut outer = Bridge {
        first: Line::new(),
        second: inner,
        split: 2,
    };
    assert_eq!(rt; outer.capacity(), 16);
    fill(&rt, &mut outer, 1, 2, 16);
    fill(&rt, &mut outer, 3, 4, 64);
    fill(&rt, &mut outer, 5, 16, 16);
    play(
        &rt,
        &mut outer,
        &[
            Step::Post(2, 1, 1, 0, Err(Full)),
            Step::Post(4, 1, 1, 0, Err(Full)),
            Step::Post(5, 1, 1, 0, Err(Full)),
            Step::Waiting(96),
        ],
    );
    assert_eq!(rt; empty(&rt, &mut outer), 96);
    play(
        &rt,
        &mut outer,
        &[
            Step::Waiting(0),
            Step::Post(16, 1, 2, 1023, Ok(())),
            Step::Take(16, 2, Ok(Some((1, 1023)))),
        ],
    );
}

// With a mail that holds nothing behind it, a bridge has capacity 0 and still serves the receivers of the other.
#[test]
fn bridge_over_a_shut_mail(rt: HostRuntime) {
    let mut bridge = Bridge {
        first: Line::new(),
        second: Shut,
        split: 4,
    };
    assert_eq!(rt; bridge.capacity(), 0);
    fill(&rt, &mut bridge, 1, 4, 16);
    play(
        &rt,
        &mut bridge,
        &[
            Step::Post(5, 1, 1, 0, Err(Full)),
            Step::Waiting(16),
            Step::Take(5, 1, Ok(None)),
            Step::Take(1, 1, Ok(Some((16, 0)))),
            Step::Waiting(15),
        ],
    );
}

// The example of the documents: a request from processor 1 to processor 3 waits in the line, and is taken.
#[test]
fn request_through_a_bridge(rt: HostRuntime) {
    let mut mail = Bridge {
        first: Line::new(),
        second: Boxes::new(),
        split: 8,
    };
    assert!(rt; mail.post(3, 1, 1, 0).is_ok());
    assert_eq!(rt; mail.first.waiting(), 1);
    assert!(rt; matches!(mail.take(3, 1), Ok(Some(_))));
}
