// Rows of items in order.
ghost use Rattle.std.specs.Prelude.{◌≡◌, ◌<◌, ◌≤◌, [], ◌∷◌, ◌++◌, length, replicate, IfOk, vec_capacity};
ghost use Rattle.layout.specs.Shape.{nth};

use std::alloc::{AllocError, Global};

// A row has at most so many items.
pub(crate) const MOST_ITEMS: usize = 1024;

// At most 1024 items. The room for them is taken when the row is made, so filling it asks for no memory.
#[derive(Drop)]
pub(crate) struct Row<T> {
    pub(crate) items: Vec<T>,
    ghost few: { length items.items ≤ 1024 },
    ghost room: { 1024 ≤ vec_capacity items },
}

impl<T: Copy> Row<T> {
    ghost use Rattle.job.specs.Rows.{items_of};

    pub(crate) fn new(heap: Global) -> Result<Row<T>, AllocError>
        ensures { IfOk result (λ r. items_of r ≡ []) }
    {
        let items = Vec::with_capacity(heap, MOST_ITEMS)?;
        Ok(Row { items })
    }

    pub(crate) fn clear(&mut self)
        ensures { items_of self.new ≡ [] }
    {
        self.items.clear();
    }

    pub(crate) fn push(&mut self, item: T)
        requires { length (items_of self.old) < 1024 }
        ensures { items_of self.new ≡ items_of self.old ++ item ∷ [] }
    {
        self.items.push_reserved(item);
    }

    // Holds `n` times the same item.
    pub(crate) fn fill(&mut self, n: usize, item: T)
        requires { n ≤ 1024 }
        ensures { items_of self.new ≡ replicate n item }
    {
        self.items.clear();
        // The room is there, so this cannot fail.
        let _ = self.items.resize(n, item);
    }

    // Item `c`, counted from 1.
    pub(crate) fn item(&self, c: u16) -> Option<T>
        ensures { result ≡ nth (items_of self.now) c }
    {
        item(&self.items, c)
    }
}

// Item `c`, counted from 1.
pub(crate) fn item<T: Copy>(items: &[T], c: u16) -> Option<T>
    ensures { result ≡ nth items.now c }
{
    items.get(usize::from(c).checked_sub(1)?).copied()
}
