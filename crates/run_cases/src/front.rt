// Fixed arrays of which the front is lent.
ghost use Rattle.std.specs.Prelude.{◌≡◌, ◌<◌, ◌≤◌, [], ◌∷◌, ◌++◌, min, take, slice_set};

// An array, of which the first `length` items are lent. What stands behind them is kept.
#[derive(Drop)]
pub struct Front<T, const N: usize> {
    items: [T; N],
    length: usize,
    ghost within: { length ≤ N },
}

impl<T: Copy, const N: usize> Front<T, N> {
    // Nothing lent so far.
    pub(crate) fn new(blank: T) -> Self
        ensures { result.length ≡ 0 }
    {
        Front {
            items: [blank; N],
            length: 0,
        }
    }

    // All of it lent.
    pub(crate) fn all(items: [T; N]) -> Self
        ensures items { result.items ≡ items }
        ensures length { result.length ≡ N }
    {
        Front { items, length: N }
    }

    pub(crate) fn as_slice(&self) -> &[T]
        ensures { result.now ≡ take self.now.length self.now.items }
    {
        &self.items[..self.length]
    }

    // Lends so many items, or all.
    pub(crate) fn lend(&mut self, n: usize)
        ensures items { self.new.items ≡ self.old.items }
        ensures length { self.new.length ≡ min n N }
    {
        self.length = n.min(N);
    }

    // Another item at a place, lent or behind.
    pub(crate) fn set(&mut self, at: usize, item: T)
        requires { at < N }
        ensures items { self.new.items ≡ slice_set self.old.items at item }
        ensures length { self.new.length ≡ self.old.length }
    {
        self.items[at] = item;
    }

    // Lends an item more, while there is room.
    pub(crate) fn push(&mut self, item: T)
        ensures room { self.old.length < N → take self.new.length self.new.items ≡ take self.old.length self.old.items ++ item ∷ [] }
        ensures full { N ≤ self.old.length → self.new ≡ self.old }
    {
        let at = self.length;
        if at < N {
            self.items[at] = item;
            self.length = at + 1;
        }
    }
}
