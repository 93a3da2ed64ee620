// A number of things, as `3 nodes`; one of them takes the singular, `1 node`.
ghost use Rattle.std.specs.Prelude.{Some};
ghost use Rattle.render.specs.Words.{counted};

use std::fmt;

#[derive(Clone, Copy, Debug, PartialEq, Eq)]
pub struct Counted<'a> {
    pub count: usize,
    pub noun: &'a str,
}

impl<'a> fmt::Display for Counted<'a> {
    ghost output = { λ x. Some (counted x.count x.noun.now) };

    fn fmt<W: fmt::Write>(&self, f: &mut fmt::Formatter<W>) -> fmt::Result {
        let Counted { count, noun } = *self;
        if count == 1 {
            write!(f, "{count} {noun}")
        } else {
            write!(f, "{count} {noun}s")
        }
    }
}
