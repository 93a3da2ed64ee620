// Sixty-four records, chained by links.
ghost use Rattle.std.specs.Prelude.{◌≡◌, ◌+◌, ◌-◌, ◌<◌, ◌≤◌, true, Some, None};
ghost use Rattle.mail.specs.Messages.{addressed};
ghost use Rattle.boxes.specs.Chains.{next};
ghost use Rattle.boxes.specs.Inner.{first_link, fresh, sought, held_next, moved_next};

use crate::boxes::records::Record;
use mail::{Asked, Message, PROCESSORS};
use std::marker::Model;
use std::{array, mem};

// How many messages may wait.
pub(super) const RECORDS: usize = 64;

// A cell holds a link. The cells are one for each record, one for the free chain and one for each receiver's.
const CELLS: usize = RECORDS + 1 + PROCESSORS as usize;

// A number below N: which record, or which cell.
#[derive(Clone, Copy)]
pub(super) struct Below<const N: usize> {
    index: u8,
}

impl<const N: usize> Model for Below<N> {
    ghost use Rattle.std.specs.Prelude.{ℕ, ◌<◌};

    ghost Value = { ℕ };

    ghost view = { λ below. below.index };

    ghost invariant = { λ below. below.index < N };

    ghost inverse = { λ n. record { index = n } };
}

pub(super) type Place = Below<RECORDS>;

pub(super) type Cell = Below<CELLS>;

impl Cell {
    // Where the free chain begins.
    const FREE: Cell = Cell { index: 64 };

    // Where the chain of receiver q begins.
    pub(super) fn head(q: u8) -> Cell
        requires { q ≤ 16 }
        ensures { result ≡ 64 + q }
    {
        Cell { index: 64 + q }
    }
}

// The cell of that record.
impl From<Place> for Cell {
    ghost from_gives = { λ place cell. cell ≡ place };

    fn from(place: Place) -> Cell {
        Cell { index: place.index }
    }
}

// The place that comes next, if one does. It is one byte, where an `Option` of a place has a second for its tag.
#[derive(Clone, Copy)]
struct Link {
    // That place, or RECORDS where the chain ends.
    index: u8,
}

impl Model for Link {
    ghost use Rattle.std.specs.Prelude.{ℕ, ◌≤◌, Option, unwrap_or};
    ghost use Rattle.std.proofs.Common.{arith};
    ghost use Rattle.std.proofs.lemmas.Bool.Decides.{nat_tests};
    ghost use Rattle.boxes.specs.Stored.{link_of};

    ghost Value = { Option ℕ };

    ghost view = { λ link. link_of link.index };

    ghost invariant = { λ link. link.index ≤ 64 };

    ghost inverse = { λ next. record { index = unwrap_or next 64 } };

    ghost inverse_ok = { λ link h. Prim.grind (arith, nat_tests) };
}

impl Link {
    // No place comes next.
    const END: Link = Link { index: 64 };

    // The place comes next.
    fn to(place: Place) -> Link
        ensures { result ≡ Some place }
    {
        Link { index: place.index }
    }

    // Which place does.
    fn place(self) -> Option<Place>
        ensures { result ≡ self }
    {
        if (self.index as usize) < RECORDS {
            Some(Place { index: self.index })
        } else {
            None
        }
    }
}

#[derive(Drop)]
pub(super) struct Pool {
    // A free record holds no message.
    records: [Record; RECORDS],
    // The record after each record, then the first of the free chain and of each receiver's.
    links: [Link; CELLS],
    // How many messages wait.
    pub(super) count: u8,
}

impl Pool {
    // A pool in which every record is free, and leads to the next.
    pub(super) fn new() -> Pool
        ensures { result ≡ fresh }
    {
        Pool {
            records: [Record::FREE; RECORDS],
            links: array::from_fn(new_link),
            count: 0,
        }
    }

    // The record after the cell.
    pub(super) fn after(&self, cell: Cell) -> Option<Place>
        ensures { result ≡ next self.now.links cell }
    {
        self.links[cell.index as usize].place()
    }

    // Whether the record holds a message that is asked for.
    pub(super) fn holds(&self, at: Place, asked: Asked) -> bool
        ensures { result ≡ sought self.now asked at }
    {
        self.records[at.index as usize].answers(asked)
    }

    // Puts the message into a free record, at the front of its receiver's chain.
    pub(super) fn put(&mut self, message: Message)
        requires between { addressed message ≡ true }
        requires room { self.old.count < 64 }
        ensures { self.new ≡ moved_next self.old 64 (64 + message.receiver) (Some message) (self.old.count + 1) }
    {
        self.count += 1;
        self.relink(
            Cell::FREE,
            Cell::head(message.receiver),
            Record::holding(message),
        );
    }

    // Frees the record after the cell, and answers its message.
    pub(super) fn remove(&mut self, cell: Cell) -> Option<Message>
        requires { 0 < self.old.count }
        ensures message { result ≡ held_next self.old cell }
        ensures after { self.new ≡ moved_next self.old cell 64 None (self.old.count - 1) }
    {
        let message = self.relink(cell, Cell::FREE, Record::FREE);
        self.count -= 1;
        message
    }

    // Moves the record after `cell` behind the cell `head`, exchanges its content, and answers its message.
    fn relink(&mut self, cell: Cell, head: Cell, content: Record) -> Option<Message>
        ensures message { result ≡ held_next self.old cell }
        ensures after { self.new ≡ moved_next self.old cell head content self.old.count }
    {
        let link = self.links[cell.index as usize];
        let at = link.place()?;
        // The record first: what a search has read of it is not read again once links are written.
        let before = mem::replace(&mut self.records[at.index as usize], content);
        self.links[cell.index as usize] = self.links[at.index as usize];
        self.links[at.index as usize] = self.links[head.index as usize];
        self.links[head.index as usize] = link;
        before.message()
    }
}

// The link of a cell while every record is free: each record leads to the next, and the free chain begins with the first.
fn new_link(cell: usize) -> Link
    ensures { result ≡ first_link cell }
{
    match cell {
        0..63 => Link::to(Place {
            index: cell as u8 + 1,
        }),
        RECORDS => Link::to(Place { index: 0 }),
        _ => Link::END,
    }
}
