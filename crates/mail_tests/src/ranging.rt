// Numbers out of range: refused before anything else, with a refusal of their own.
use crate::steps::{Step, empty, fill, play};
use boxes::Boxes;
use bridge::Bridge;
use line::Line;
use mail::MailRefusal::{Full, OutOfRange};
use mail::{BLANK, Class, Mail, Message};
use std::process::Abort;

const OUTSIDE: [Step; 14] = [
    Step::Post(0, 1, 1, 0, Err(OutOfRange)),
    Step::Post(17, 1, 1, 0, Err(OutOfRange)),
    Step::Post(255, 1, 1, 0, Err(OutOfRange)),
    Step::Post(1, 0, 1, 0, Err(OutOfRange)),
    Step::Post(1, 17, 1, 0, Err(OutOfRange)),
    Step::Post(1, 255, 1, 0, Err(OutOfRange)),
    Step::Post(1, 1, 0, 0, Err(OutOfRange)),
    Step::Post(1, 1, 3, 0, Err(OutOfRange)),
    Step::Post(0, 0, 0, 0, Err(OutOfRange)),
    Step::Take(0, 1, Err(OutOfRange)),
    Step::Take(17, 1, Err(OutOfRange)),
    Step::Take(255, 2, Err(OutOfRange)),
    Step::Take(1, 0, Err(OutOfRange)),
    Step::Take(1, 3, Err(OutOfRange)),
];

// Refused when nothing waits and when no place is left, and nothing is altered.
fn refuses_outside<M: Mail>(rt: &impl Abort, mail: &mut M, places: u16) {
    play(rt, mail, &OUTSIDE);
    play(rt, mail, &[Step::Waiting(0)]);
    fill(rt, mail, 1, 1, places);
    play(rt, mail, &OUTSIDE);
    play(
        rt,
        mail,
        &[Step::Waiting(places), Step::Post(1, 1, 1, 0, Err(Full))],
    );
    assert_eq!(rt; empty(rt, mail), places);
}

#[test]
fn every_mail_refuses_outside(rt: HostRuntime) {
    refuses_outside(&rt, &mut Line::new(), 16);
    refuses_outside(&rt, &mut Boxes::new(), 64);
    refuses_outside(
        &rt,
        &mut Bridge {
            first: Boxes::new(),
            second: Line::new(),
            split: 1,
        },
        64,
    );
    refuses_outside(
        &rt,
        &mut Bridge {
            first: Boxes::new(),
            second: Line::new(),
            split: 0,
        },
        16,
    );
}

#[test]
fn refusals_have_their_numbers(rt: HostRuntime) {
    assert_eq!(rt; Full.number(), 17);
    assert_eq!(rt; OutOfRange.number(), 18);
}

// A request of nobody to nobody, with node 0.
#[test]
fn the_default_message_is_blank(rt: HostRuntime) {
    let blank = Message {
        receiver: 0,
        sender: 0,
        class: Class::Request,
        node: 0,
    };
    assert_eq!(rt; BLANK, blank);
    assert_eq!(rt; Message::default(), blank);
}
