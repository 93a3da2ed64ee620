// What a take asks for.
ghost use Rattle.std.specs.Prelude.{◌≡◌, true};
ghost use Rattle.mail.specs.Messages.{is_processor, class_number, wanted};

use crate::message::{Class, Message, check_processor};
use crate::refusal::MailRefusal;

// Leave to take a message for this receiver, of this class.
#[derive(Clone, Copy, Debug, PartialEq, Eq)]
pub struct Asked {
    pub receiver: u8,
    pub class: Class,
    pub ghost processor: { is_processor receiver ≡ true },
}

impl Asked {
    ghost use Rattle.mail.specs.Asked.{Asks};

    // Refused if a number is out of range.
    pub fn new(receiver: u8, class: u8) -> Result<Asked, MailRefusal>
        ensures { Asks receiver class result }
    {
        check_processor(receiver)?;
        let class = Class::try_from(class)?;
        Ok(Asked { receiver, class })
    }

    // Whether it may be answered by this message.
    pub fn takes(self, message: Message) -> bool
        ensures { result ≡ wanted self.receiver (class_number self.class) message }
    {
        message.receiver == self.receiver && message.class == self.class
    }
}
