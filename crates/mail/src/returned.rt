// A client of any mail.
ghost use Rattle.mail.specs.Returned.{Returned};

use crate::mail::Mail;
use crate::message::Message;
use crate::refusal::MailRefusal;

// Posts a message and takes one of the same receiver and class: that message, or one that waited before it.
pub fn post_and_take_back<M: Mail>(
    mail: &mut M,
    receiver: u8,
    sender: u8,
    class: u8,
    node: u16,
) -> Result<Message, MailRefusal>
    ensures { Returned M.meaning receiver sender class node mail.old mail.new result }
{
    mail.post(receiver, sender, class, node)?;
    Ok(mail.take(receiver, class)?.unwrap())
}
