// Calls of a mail with the answers that they must have.
use mail::{Mail, MailRefusal};
use std::process::Abort;

#[derive(Clone, Copy)]
pub enum Step {
    // A post of receiver, sender, class and node, and its answer.
    Post(u8, u8, u8, u16, Result<(), MailRefusal>),
    // A take for a receiver and a class, and its answer: a message by its sender and its node.
    Take(u8, u8, Result<Option<(u8, u16)>, MailRefusal>),
    // How many wait.
    Waiting(u16),
}

// Makes the calls in turn and checks each answer.
pub fn play<M: Mail>(rt: &impl Abort, mail: &mut M, steps: &[Step]) {
    for step in steps {
        match *step {
            Step::Post(receiver, sender, class, node, answer) => {
                assert_eq!(rt; mail.post(receiver, sender, class, node), answer)
            }
            Step::Take(receiver, class, answer) => {
                let taken = mail.take(receiver, class);
                if let Ok(Some(message)) = taken {
                    assert!(rt; message.is_for(receiver, class));
                }
                let found = taken.map(|found| found.map(|message| (message.sender, message.node)));
                assert_eq!(rt; found, answer)
            }
            Step::Waiting(count) => assert_eq!(rt; mail.waiting(), count),
        }
    }
}

// Posts `count` messages to the receivers `low` to `high` in turn; each must be accepted.
// Requests and replies alternate, and after every sixteen the turn shifts, so that a receiver gets both.
pub fn fill<M: Mail>(rt: &impl Abort, mail: &mut M, low: u8, high: u8, count: u16) {
    let before = mail.waiting();
    for (k, receiver) in (0..count).zip((low..=high).cycle()) {
        // 1 or 2, in turn, and the other way round in every second sixteen.
        let class = ((k / 16 % 2 + k % 2) % 2) as u8 + 1;
        assert_eq!(rt; mail.post(receiver, 16, class, k), Ok(()));
        assert_eq!(rt; mail.waiting(), before.saturating_add(k).saturating_add(1));
    }
}

// Takes for every receiver and class until there is nothing, and answers how many were taken.
pub fn empty<M: Mail>(rt: &impl Abort, mail: &mut M) -> u16 {
    let mut taken: u16 = 0;
    for receiver in 1..=16u8 {
        for class in 1..=2u8 {
            // More than any mail here holds for one receiver and class.
            for _ in 0..80u8 {
                match mail.take(receiver, class) {
                    Ok(Some(message)) => assert!(rt; message.is_for(receiver, class)),
                    Ok(None) => break,
                    Err(_) => assert!(rt; false),
                }
                taken = taken.saturating_add(1);
            }
        }
    }
    taken
}
