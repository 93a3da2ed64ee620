// Each mail filled to its last place, refused, and emptied.
use crate::Shut;
use crate::steps::{Step, empty, fill, play};
use boxes::Boxes;
use bridge::Bridge;
use line::Line;
use mail::Mail;
use mail::MailRefusal::{Full, OutOfRange};
use std::process::Abort;

// Fills the mail, sees it refuse a message to anyone, takes one out, puts one in, and empties it.
fn fills_and_empties<M: Mail>(rt: &impl Abort, mail: &mut M, places: u16) {
    assert_eq!(rt; mail.capacity(), places);
    fill(rt, mail, 1, 16, places);
    play(
        rt,
        mail,
        &[
            Step::Post(1, 16, 1, 0, Err(Full)),
            Step::Post(16, 1, 2, 0, Err(Full)),
            Step::Waiting(places),
        ],
    );
    assert!(rt; matches!(mail.take(1, 1), Ok(Some(_))));
    play(
        rt,
        mail,
        &[
            Step::Post(9, 9, 2, 9, Ok(())),
            Step::Post(9, 9, 2, 9, Err(Full)),
            Step::Waiting(places),
        ],
    );
    assert_eq!(rt; empty(rt, mail), places);
    play(
        rt,
        mail,
        &[
            Step::Waiting(0),
            Step::Take(1, 1, Ok(None)),
            Step::Take(16, 2, Ok(None)),
        ],
    );
}

#[test]
fn line_holds_sixteen(rt: HostRuntime) {
    fills_and_empties(&rt, &mut Line::new(), 16);
}

#[test]
fn boxes_hold_sixty_four(rt: HostRuntime) {
    let mut boxes = Boxes::new();
    fills_and_empties(&rt, &mut boxes, 64);
    fill(&rt, &mut boxes, 7, 7, 64);
    play(&rt, &mut boxes, &[Step::Post(8, 1, 1, 0, Err(Full))]);
    assert_eq!(rt; empty(&rt, &mut boxes), 64);
}

#[test]
fn bridge_holds_both(rt: HostRuntime) {
    let mut bridge = Bridge {
        first: Line::new(),
        second: Boxes::new(),
        split: 8,
    };
    assert_eq!(rt; bridge.capacity(), 16);
    fill(&rt, &mut bridge, 1, 8, 16);
    play(&rt, &mut bridge, &[Step::Post(8, 1, 1, 0, Err(Full))]);
    fill(&rt, &mut bridge, 9, 16, 64);
    play(
        &rt,
        &mut bridge,
        &[
            Step::Post(9, 1, 1, 0, Err(Full)),
            Step::Post(1, 1, 1, 0, Err(Full)),
            Step::Waiting(80),
        ],
    );
    assert_eq!(rt; empty(&rt, &mut bridge), 80);
    assert_eq!(rt; bridge.waiting(), 0);
}

#[test]
fn shut_holds_nothing(rt: HostRuntime) {
    let mut shut = Shut;
    assert_eq!(rt; shut.capacity(), 0);
    play(
        &rt,
        &mut shut,
        &[
            Step::Post(1, 2, 1, 0, Err(Full)),
            Step::Post(1, 17, 1, 0, Err(OutOfRange)),
            Step::Waiting(0),
            Step::Take(1, 1, Ok(None)),
            Step::Take(1, 3, Err(OutOfRange)),
        ],
    );
}
