// What one record holds.
ghost use Rattle.std.specs.Prelude.{◌≡◌, true, Some};
ghost use Rattle.mail.specs.Messages.{addressed};
ghost use Rattle.boxes.specs.Inner.{is_asked_for};

use mail::{Asked, BLANK, Message};
use std::marker::Model;

// A message, if the record holds one. It takes no more than a message does, where an `Option` of one has two bytes for its tag.
#[derive(Clone, Copy)]
pub(super) struct Record {
    // That message, or one for receiver 0 where the record is free.
    message: Message,
}

impl Model for Record {
    ghost use Rattle.std.specs.Prelude.{◌≡◌, Option, unwrap_or};
    ghost use Rattle.std.proofs.Common.{arith};
    ghost use Rattle.std.proofs.lemmas.Bool.Decides.{nat_tests};
    ghost use Rattle.mail.specs.declared.message.Message.{Message as Mailed};
    ghost use Rattle.boxes.specs.Stored.{blank, content_of};

    ghost Value = { Option Mailed };

    ghost view = { λ a. content_of a.message };

    ghost invariant = { λ a. a.message.receiver ≡ 0 → a.message ≡ blank };

    ghost inverse = { λ content. record { message = unwrap_or content blank } };

    ghost inverse_ok = { λ a h. Prim.grind (arith, nat_tests) };
}

impl Record {
    // A record that holds no message.
    pub(super) const FREE: Record = Record { message: BLANK };

    // A record that holds the message.
    pub(super) fn holding(message: Message) -> Record
        requires { addressed message ≡ true }
        ensures { result ≡ Some message }
    {
        Record { message }
    }

    // The message that it holds.
    pub(super) fn message(self) -> Option<Message>
        ensures { result ≡ self }
    {
        match self.message.receiver {
            0 => None,
            _ => Some(self.message),
        }
    }

    // Whether it holds a message that is asked for. A free one doesn't: no processor is numbered 0.
    pub(super) fn answers(self, asked: Asked) -> bool
        ensures { result ≡ is_asked_for asked self }
    {
        asked.takes(self.message)
    }
}
