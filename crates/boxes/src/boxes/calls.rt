// The boxes are a mail.
ghost use Rattle.std.specs.Prelude.{◌≡◌, ℕ, ◌+◌, ◌≤◌, [], length, nat_le};
ghost use Rattle.mail.specs.Collections.{first};
ghost use Rattle.mail.specs.Messages.{message, sendable, askable, wanted};
ghost use Rattle.mail.specs.Mails.{post_answer, Posted, take_answer, Taken};
ghost use Rattle.boxes.specs.Chains.{chain_of};
ghost use Rattle.boxes.specs.Meaning.{box, pile, boxes_meaning, box_posted, box_taken};
ghost use Rattle.boxes.specs.Inner.{before, sought};
ghost use Rattle.std.proofs.Common.{arith};
ghost use Rattle.std.proofs.lemmas.Bool.{lt-leb};
ghost use Rattle.mail.proofs.Collections.{first-pickable};
ghost use Rattle.std.proofs.lemmas.List.Elements.{recursion_from_All};

use crate::boxes::Boxes;
use crate::boxes::pool::{Cell, Pool, RECORDS};
use mail::{Asked, Mail, MailRefusal, Message};

impl Boxes {
    // Boxes in which nothing waits.
    pub fn new() -> Boxes
        ensures { pile result ≡ [] }
    {
        Boxes { pool: Pool::new() }
    }

    // Whether sixty-four wait.
    fn is_full(&self) -> bool
        ensures { result ≡ nat_le 64 (length (pile self.now)) }
    {
        self.pool.count as usize >= RECORDS
    }

    // The cell before the newest message that is asked for.
    fn find(&self, asked: Asked) -> Option<Cell>
        ensures { result ≡ before (sought self.now.pool asked) (64 + asked.receiver) (chain_of self.now.pool asked.receiver) }
    {
        let mut cell = Cell::head(asked.receiver);
        while let Some(at) = self.pool.after(cell) {
            if self.pool.holds(at, asked) {
                return Some(cell);
            }
            cell = Cell::from(at);
        }
        None
    }
}

impl Mail for Boxes {
    ghost meaning = { boxes_meaning };

    ghost lawful = { λ mail.
        record {
          bounded = omega arith;
          ranged = recursion_from_All _ (pile mail) mail.sent;
          accepts = λ m h. lt-leb 64 (length (pile mail)) h;
          choice = first-pickable (pile mail);
        } };

    fn capacity(&self) -> u16 {
        RECORDS as u16
    }

    fn waiting(&self) -> u16 {
        self.pool.count as u16
    }

    // An accepted message comes to the front of its receiver's box. A post is refused for want of room exactly when sixty-four wait.
    fn post(&mut self, receiver: u8, sender: u8, class: u8, node: u16) -> Result<(), MailRefusal>
        ensures effect { Posted boxes_meaning (message receiver sender class node) self.old self.new result }
        ensures full { result ≡ post_answer (sendable receiver sender class) (nat_le 64 (length (pile self.old))) }
        ensures order { (q : ℕ) → 1 ≤ q → q ≤ 16 → box self.new q ≡ box_posted result (message receiver sender class node) q (box self.old q) }
    {
        let message = Message::new(receiver, sender, class, node)?;
        if self.is_full() {
            return Err(MailRefusal::Full);
        }
        self.pool.put(message);
        Ok(())
    }

    // The newest such message in the receiver's box; the others keep their order.
    fn take(&mut self, receiver: u8, class: u8) -> Result<Option<Message>, MailRefusal>
        ensures answer { result ≡ take_answer (askable receiver class) ((boxes_meaning self.old).picks receiver class) }
        ensures effect { Taken boxes_meaning self.old self.new result }
        ensures newest { result ≡ take_answer (askable receiver class) (first (wanted receiver class) (box self.old receiver)) }
        ensures order { (q : ℕ) → 1 ≤ q → q ≤ 16 → box self.new q ≡ box_taken result receiver class q (box self.old q) }
    {
        let asked = Asked::new(receiver, class)?;
        let Some(cell) = self.find(asked) else {
            return Ok(None);
        };
        Ok(self.pool.remove(cell))
    }
}
