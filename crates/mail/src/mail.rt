// A mail, for code that does not care which one it is.
ghost use Rattle.std.specs.Prelude.{◌≡◌, min, length};
ghost use Rattle.mail.specs.Meaning.{Meaning, Lawful};
ghost use Rattle.mail.specs.Messages.{message, sendable, askable};
ghost use Rattle.mail.specs.Mails.{post_answer, Posted, take_answer, Taken};

use crate::message::Message;
use crate::refusal::MailRefusal;

pub trait Mail {
    // What waits, the capacity, and the two answers that are the mail's own choice.
    ghost meaning: { Self → Meaning };

    // While fewer messages wait than this, no post is refused for want of room.
    fn capacity(&self) -> u16
        ensures { result ≡ (meaning self.now).capacity };

    // How many messages wait in all, or 65,535 if more do.
    fn waiting(&self) -> u16
        ensures { result ≡ min (length (meaning self.now).waits) 65535 };

    // Adds the message, or is refused and alters nothing: for a number out of range, or where the mail refuses it.
    fn post(&mut self, receiver: u8, sender: u8, class: u8, node: u16) -> Result<(), MailRefusal>
        ensures answer { result ≡ post_answer (sendable receiver sender class) ((meaning self.old).refuses (message receiver sender class node)) }
        ensures effect { Posted meaning (message receiver sender class node) self.old self.new result };

    // Removes and answers a message of that receiver and class, none exactly when none waits; refused for a number out of range.
    fn take(&mut self, receiver: u8, class: u8) -> Result<Option<Message>, MailRefusal>
        ensures answer { result ≡ take_answer (askable receiver class) ((meaning self.old).picks receiver class) }
        ensures effect { Taken meaning self.old self.new result };

    // What every mail obeys.
    ghost lawful: { (mail : Self) → Lawful (meaning mail) };
}
