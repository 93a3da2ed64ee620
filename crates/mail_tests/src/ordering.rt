// Which message each mail takes.
use crate::Shut;
use crate::steps::{Step, play};
use boxes::Boxes;
use bridge::Bridge;
use line::Line;
use mail::{Class, MailRefusal, Message, post_and_take_back};

// Three requests and two replies to processor 2, with a request to processor 3 among them.
const POSTS: [Step; 6] = [
    Step::Post(2, 4, 1, 0, Ok(())),
    Step::Post(2, 5, 2, 31, Ok(())),
    Step::Post(3, 6, 1, 0, Ok(())),
    Step::Post(2, 7, 1, 0, Ok(())),
    Step::Post(2, 8, 2, 65535, Ok(())),
    Step::Post(2, 9, 1, 0, Ok(())),
];

#[test]
fn line_takes_the_oldest(rt: HostRuntime) {
    let mut line = Line::new();
    play(&rt, &mut line, &POSTS);
    play(
        &rt,
        &mut line,
        &[
            Step::Take(2, 1, Ok(Some((4, 0)))),
            Step::Take(2, 2, Ok(Some((5, 31)))),
            Step::Take(2, 1, Ok(Some((7, 0)))),
            Step::Take(3, 2, Ok(None)),
            Step::Take(3, 1, Ok(Some((6, 0)))),
            Step::Take(2, 1, Ok(Some((9, 0)))),
            Step::Take(2, 1, Ok(None)),
            Step::Take(2, 2, Ok(Some((8, 65535)))),
            Step::Waiting(0),
        ],
    );
}

#[test]
fn boxes_take_the_newest(rt: HostRuntime) {
    let mut boxes = Boxes::new();
    play(&rt, &mut boxes, &POSTS);
    play(
        &rt,
        &mut boxes,
        &[
            Step::Take(2, 1, Ok(Some((9, 0)))),
            Step::Take(2, 2, Ok(Some((8, 65535)))),
            Step::Take(2, 1, Ok(Some((7, 0)))),
            Step::Take(3, 2, Ok(None)),
            Step::Take(3, 1, Ok(Some((6, 0)))),
            Step::Take(2, 1, Ok(Some((4, 0)))),
            Step::Take(2, 1, Ok(None)),
            Step::Take(2, 2, Ok(Some((5, 31)))),
            Step::Waiting(0),
        ],
    );
}

// Two messages alike in everything are two messages.
const TWINS: [Step; 6] = [
    Step::Post(2, 4, 1, 7, Ok(())),
    Step::Post(2, 4, 1, 7, Ok(())),
    Step::Waiting(2),
    Step::Take(2, 1, Ok(Some((4, 7)))),
    Step::Take(2, 1, Ok(Some((4, 7)))),
    Step::Take(2, 1, Ok(None)),
];

#[test]
fn twins_are_two(rt: HostRuntime) {
    play(&rt, &mut Line::new(), &TWINS);
    play(&rt, &mut Boxes::new(), &TWINS);
    play(
        &rt,
        &mut Bridge {
            first: Line::new(),
            second: Boxes::new(),
            split: 1,
        },
        &TWINS,
    );
}

#[test]
fn posted_and_taken_back(rt: HostRuntime) {
    let mut line = Line::new();
    let mut boxes = Boxes::new();
    play(&rt, &mut line, &POSTS);
    play(&rt, &mut boxes, &POSTS);
    let waited = Message {
        receiver: 2,
        sender: 5,
        class: Class::Reply,
        node: 31,
    };
    let posted = Message {
        receiver: 2,
        sender: 1,
        class: Class::Reply,
        node: 77,
    };
    assert_eq!(rt; post_and_take_back(&mut line, 2, 1, 2, 77), Ok(waited));
    play(
        &rt,
        &mut line,
        &[
            Step::Take(2, 2, Ok(Some((8, 65535)))),
            Step::Take(2, 2, Ok(Some((1, 77)))),
            Step::Waiting(4),
        ],
    );
    assert_eq!(rt; post_and_take_back(&mut boxes, 2, 1, 2, 77), Ok(posted));
    assert_eq!(rt;
        post_and_take_back(&mut line, 0, 1, 2, 77),
        Err(MailRefusal::OutOfRange)
    );
    assert_eq!(rt;
        post_and_take_back(&mut Shut, 2, 1, 2, 77),
        Err(MailRefusal::Full)
    );
}
