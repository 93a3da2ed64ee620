ghost use Rattle.std.specs.Prelude.{◌≡◌};
ghost use Rattle.mail.specs.Refusals.{refusal_number};

// Why a mail refuses a post or a take.
#[derive(Clone, Copy, Debug, PartialEq, Eq)]
pub enum MailRefusal {
    // The mail has no place for the message.
    Full = 17,
    // The receiver or the sender is no processor, or the class is none.
    OutOfRange = 18,
}

impl MailRefusal {
    // The number of the cause, 17 or 18.
    pub fn number(self) -> u8
        ensures { result ≡ refusal_number self }
    {
        self as u8
    }
}
