// Sixteen places in a row, oldest first.
ghost use Rattle.std.specs.Prelude.{◌≡◌, ◌<◌, [], ◌∷◌, ◌++◌, length, remove, slice_index_or};
ghost use Rattle.std.specs.List.{AllPass, position};
ghost use Rattle.mail.specs.Messages.{addressed, message, sendable, askable, class_number, wanted};

use arrayvec::ArrayVec;
use mail::{Asked, Mail, MailRefusal, Message};

// How many messages may wait.
const PLACES: usize = 16;

// The messages that wait, oldest first, with receiver and sender in range.
#[derive(Drop)]
pub struct Line {
    waiting: ArrayVec<Message, PLACES>,
    ghost ranged: { AllPass addressed waiting.items },
}

impl Line {
    ghost use Rattle.line.specs.Lines.{row};

    // A line in which nothing waits.
    pub fn new() -> Line
        ensures { row result ≡ [] }
    {
        Line {
            waiting: ArrayVec::new(),
        }
    }

    // The place of the oldest message that is asked for.
    fn find(&self, asked: Asked) -> Option<usize>
        ensures { result ≡ position (wanted asked.receiver (class_number asked.class)) (row self.now) }
    {
        self.waiting
            .iter()
            .position(|message| asked.takes(*message))
    }

    // Takes out the message at place `i`: those after it move up by one place.
    #[tactic(auto, using(crate::proofs::Rows::removed_from))]
    fn close(&mut self, i: usize) -> Message
        requires { i < length (row self.old) }
        ensures message { result ≡ slice_index_or (row self.old) i result }
        ensures row { row self.new ≡ remove (row self.old) i }
    {
        self.waiting.remove(i)
    }
}

impl Mail for Line {
    ghost use Rattle.std.proofs.Common.{arith};
    ghost use Rattle.std.proofs.lemmas.Bool.{lt-leb};
    ghost use Rattle.std.proofs.lemmas.List.Elements.{recursion_from_All};
    ghost use Rattle.mail.specs.Collections.{first};
    ghost use Rattle.mail.specs.Mails.{post_answer, Posted, take_answer, Taken};
    ghost use Rattle.mail.proofs.Collections.{first-pickable};
    ghost use Rattle.line.specs.Lines.{row, is_full, line_meaning, after_post, after_take};

    ghost meaning = { line_meaning };

    ghost lawful = { λ line. record {
      bounded = omega arith;
      ranged = recursion_from_All _ (row line) line.ranged;
      accepts = λ m h. lt-leb 16 (length (row line)) h;
      choice = λ receiver class. first-pickable (row line) receiver class;
    } };

    fn capacity(&self) -> u16 {
        PLACES as u16
    }

    fn waiting(&self) -> u16 {
        self.waiting.len() as u16
    }

    // An accepted message stands last. A post is refused for want of room exactly when sixteen wait.
    fn post(&mut self, receiver: u8, sender: u8, class: u8, node: u16) -> Result<(), MailRefusal>
        ensures effect { Posted line_meaning (message receiver sender class node) self.old self.new result }
        ensures full { result ≡ post_answer (sendable receiver sender class) (is_full (row self.old)) }
        ensures order { row self.new ≡ after_post (sendable receiver sender class) (message receiver sender class node) (row self.old) }
    {
        let message = Message::new(receiver, sender, class, node)?;
        self.waiting
            .try_push(message)
            .map_err(|_| MailRefusal::Full)
    }

    // The oldest such message; the others keep their order.
    #[inline]
    fn take(&mut self, receiver: u8, class: u8) -> Result<Option<Message>, MailRefusal>
        ensures effect { Taken line_meaning self.old self.new result }
        ensures oldest { result ≡ take_answer (askable receiver class) (first (wanted receiver class) (row self.old)) }
        ensures order { row self.new ≡ after_take (askable receiver class) (wanted receiver class) (row self.old) }
    {
        let asked = Asked::new(receiver, class)?;
        let Some(i) = self.find(asked) else {
            return Ok(None);
        };
        Ok(Some(self.close(i)))
    }
}
