// A mail of capacity 0 that refuses every message: the laws of a mail allow it.
ghost use Rattle.std.specs.Prelude.{true, [], None};
ghost use Rattle.std.proofs.Common.{rules};

use mail::{Asked, Mail, MailRefusal, Message};

#[derive(Drop)]
pub struct Shut;

impl Mail for Shut {
    ghost meaning = { λ _. record { waits = []; capacity = 0; refuses = λ _. true; picks = λ _ _. None } };

    ghost lawful = { Prim.search rules };

    fn capacity(&self) -> u16 {
        0
    }

    fn waiting(&self) -> u16 {
        0
    }

    fn post(&mut self, receiver: u8, sender: u8, class: u8, node: u16) -> Result<(), MailRefusal> {
        Message::new(receiver, sender, class, node)?;
        Err(MailRefusal::Full)
    }

    fn take(&mut self, receiver: u8, class: u8) -> Result<Option<Message>, MailRefusal> {
        Asked::new(receiver, class)?;
        Ok(None)
    }
}
