ghost use Rattle.std.specs.Prelude.{◌≡◌, Some};
ghost use Rattle.layout.specs.Refusals.{number, place};
ghost use Rattle.layout.specs.Texts.{in_words, refusal_text};

use std::fmt;

// Why a job file is refused.
#[derive(Clone, Copy, Debug, PartialEq, Eq)]
pub enum LoadRefusal {
    // The header, or the length of the file, is wrong.
    Size,
    // The link of this record (0: of the header) leads nowhere, or to a record that was reached before.
    Link(u16),
    // The record of this node has bad content.
    Content(u16),
    // This fork names a node that it may not name, or no fork names this node.
    Naming(u16),
}

impl LoadRefusal {
    // The number of the cause, from 1 to 4.
    pub fn number(self) -> u8
        ensures { result ≡ number self }
    {
        match self {
            LoadRefusal::Size => 1,
            LoadRefusal::Link(_) => 2,
            LoadRefusal::Content(_) => 3,
            LoadRefusal::Naming(_) => 4,
        }
    }

    // The record or node at fault; 0 for the header and for the size.
    pub fn place(self) -> u16
        ensures { result ≡ place self }
    {
        match self {
            LoadRefusal::Size => 0,
            LoadRefusal::Link(p) | LoadRefusal::Content(p) | LoadRefusal::Naming(p) => p,
        }
    }

    // The reason in words.
    fn in_words(self) -> &'static str
        ensures { result.now ≡ in_words self }
    {
        match self {
            LoadRefusal::Size => "the header or the length of the job file is wrong",
            LoadRefusal::Link(_) =>
                "the link of this record (0: of the header) leads nowhere, or back",
            LoadRefusal::Content(_) => "the record of this node has bad content",
            LoadRefusal::Naming(_) =>
                "this fork names a node that it may not name, or no fork names this node",
        }
    }
}

// The line that says why: number, place and reason.
impl fmt::Display for LoadRefusal {
    ghost output = { λ x. Some (refusal_text x) };

    fn fmt<W: fmt::Write>(&self, f: &mut fmt::Formatter<W>) -> fmt::Result {
        let number = self.number();
        let place = self.place();
        let reason = self.in_words();
        write!(f, "refused {number} at {place}: {reason}")
    }
}
