// Two mails as one: a post goes to the receiver's own mail, a take looks in the other one first.
ghost use Rattle.std.specs.Prelude.{◌≡◌, false, is_some, cond, nat_le};
ghost use Rattle.std.proofs.Common.{length-append, arith};
ghost use Rattle.std.specs.Option.{option_or};
ghost use Rattle.mail.specs.Messages.{message, sendable, askable};
ghost use Rattle.mail.specs.Mails.{post_answer, Posted, take_answer, Taken};
ghost use Rattle.bridge.specs.Bridges.{bridge_meaning, Routed, TakenFrom};
ghost use Rattle.std.proofs.ByRecursion.{All-append};
ghost use Rattle.std.proofs.lemmas.Bool.{cond_both};
ghost use Rattle.mail.proofs.Joined.{pickable-sided};

use mail::{Mail, MailRefusal, Message};

// What is posted to a receiver up to `split` goes to the first mail, all else to the second.
#[derive(Drop)]
pub struct Bridge<F, S> {
    pub first: F,
    pub second: S,
    pub split: u8,
}

// Takes what the other mail picks for the receiver, or else what the receiver's own does.
fn take_through<X: Mail, Y: Mail>(
    other: &mut X,
    own: &mut Y,
    receiver: u8,
    class: u8,
) -> Result<Option<Message>, MailRefusal>
    ensures answer { result ≡ take_answer (askable receiver class) (option_or ((X.Mail.meaning other.old).picks receiver class) ((Y.Mail.meaning own.old).picks receiver class)) }
    ensures through { cond (is_some ((X.Mail.meaning other.old).picks receiver class)) (Taken X.Mail.meaning other.old other.new result × (own.new ≡ own.old)) (Taken Y.Mail.meaning own.old own.new result × (other.new ≡ other.old)) }
{
    match other.take(receiver, class)? {
        Some(message) => Ok(Some(message)),
        None => own.take(receiver, class),
    }
}

impl<F: Mail, S: Mail> Bridge<F, S> {
    // Whether the first mail is the receiver's own.
    fn first_owns(&self, receiver: u8) -> bool
        ensures { result ≡ nat_le receiver self.now.split }
    {
        receiver <= self.split
    }
}

impl<F: Mail, S: Mail> Mail for Bridge<F, S> {
    ghost meaning = { bridge_meaning F.Mail.meaning S.Mail.meaning };

    ghost lawful = { λ b.
        let f = F.Mail.lawful b.first in
        let s = S.Mail.lawful b.second in
        let xs = (F.Mail.meaning b.first).waits in
        let ys = (S.Mail.meaning b.second).waits in
        let both = length-append xs ys in
        record {
          bounded = omega arith;
          ranged = All-append _ xs ys f.ranged s.ranged;
          accepts = λ m h. cond_both (nat_le m.receiver b.split) _ _ (λ refused. refused ≡ false)
              (λ _. f.accepts m (omega arith))
              (λ _. s.accepts m (omega arith));
          choice = λ q k. pickable-sided (nat_le q b.split) xs ys q k _ _ (f.choice q k) (s.choice q k);
        } };

    fn capacity(&self) -> u16 {
        self.first.capacity().min(self.second.capacity())
    }

    fn waiting(&self) -> u16 {
        self.first.waiting().saturating_add(self.second.waiting())
    }

    // To the receiver's own mail; refused exactly when that mail refuses.
    #[tactic(auto, using(crate::proofs::Parts::posted_to))]
    fn post(&mut self, receiver: u8, sender: u8, class: u8, node: u16) -> Result<(), MailRefusal>
        ensures answer { result ≡ post_answer (sendable receiver sender class) ((bridge_meaning F.Mail.meaning S.Mail.meaning self.old).refuses (message receiver sender class node)) }
        ensures effect { Posted (bridge_meaning F.Mail.meaning S.Mail.meaning) (message receiver sender class node) self.old self.new result }
        ensures routed { Routed F.Mail.meaning S.Mail.meaning (message receiver sender class node) self.old self.new result }
    {
        if self.first_owns(receiver) {
            self.first.post(receiver, sender, class, node)
        } else {
            self.second.post(receiver, sender, class, node)
        }
    }

    // What the other mail picks, or else what the receiver's own does.
    fn take(&mut self, receiver: u8, class: u8) -> Result<Option<Message>, MailRefusal>
        ensures answer { result ≡ take_answer (askable receiver class) ((bridge_meaning F.Mail.meaning S.Mail.meaning self.old).picks receiver class) }
        ensures effect { Taken (bridge_meaning F.Mail.meaning S.Mail.meaning) self.old self.new result }
        ensures from { TakenFrom F.Mail.meaning S.Mail.meaning receiver class self.old self.new result }
    {
        if self.first_owns(receiver) {
            take_through(&mut self.second, &mut self.first, receiver, class)
        } else {
            take_through(&mut self.first, &mut self.second, receiver, class)
        }
    }
}
