// Mails: where messages between processors wait until they are taken.
#![tactic(auto)]

mod asked;
mod mail;
mod message;
mod refusal;
mod returned;

pub use asked::Asked;
pub use mail::Mail;
pub use message::{BLANK, Class, Message, PROCESSORS};
pub use refusal::MailRefusal;
pub use returned::post_and_take_back;
