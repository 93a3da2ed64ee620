// What waits in a mail.
ghost use Rattle.std.specs.Prelude.{◌≡◌};
ghost use Rattle.mail.specs.Messages.{class_number, classed, wanted, composed, processor_checked};

use crate::refusal::MailRefusal;

// The processors are numbered from 1 to this.
pub const PROCESSORS: u8 = 16;

#[derive(Clone, Copy, Debug, Default, PartialEq, Eq)]
pub enum Class {
    // Asks the receiver for work.
    #[default]
    Request = 1,
    // Answers a request.
    Reply = 2,
}

impl Class {
    // 1 for a request, 2 for a reply.
    pub fn number(self) -> u8
        ensures { result ≡ class_number self }
    {
        self as u8
    }
}

// The class of a number, refused if it has none.
impl TryFrom<u8> for Class {
    type Error = MailRefusal;

    ghost try_from_gives = { λ number answer. answer ≡ classed number };

    fn try_from(number: u8) -> Result<Class, MailRefusal> {
        match number {
            1 => Ok(Class::Request),
            2 => Ok(Class::Reply),
            _ => Err(MailRefusal::OutOfRange),
        }
    }
}

#[derive(Clone, Copy, Debug, Default, PartialEq, Eq)]
pub struct Message {
    // Whom it is for and who sent it: processors, from 1 to 16 wherever a message waits.
    pub receiver: u8,
    pub sender: u8,
    pub class: Class,
    pub node: u16,
}

// The default message, where a constant needs one: it is for nobody.
pub const BLANK: Message = Message {
    receiver: 0,
    sender: 0,
    class: Class::Request,
    node: 0,
};

impl Message {
    // The message of these numbers, refused if one is out of range.
    pub fn new(receiver: u8, sender: u8, class: u8, node: u16) -> Result<Message, MailRefusal>
        ensures { result ≡ composed receiver sender class node }
    {
        check_processor(receiver)?;
        check_processor(sender)?;
        let class = Class::try_from(class)?;
        Ok(Message {
            receiver,
            sender,
            class,
            node,
        })
    }

    // Whether a take for this receiver and class may answer it.
    pub fn is_for(self, receiver: u8, class: u8) -> bool
        ensures { result ≡ wanted receiver class self }
    {
        self.receiver == receiver && self.class.number() == class
    }
}

// Refuses a number that is no processor's.
pub(crate) fn check_processor(number: u8) -> Result<(), MailRefusal>
    ensures { result ≡ processor_checked number }
{
    match number {
        1..=PROCESSORS => Ok(()),
        _ => Err(MailRefusal::OutOfRange),
    }
}
