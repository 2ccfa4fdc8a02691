ghost use Rattle.std.specs.Prelude.{◌≡◌, ℕ, ◌+◌, ◌<◌, ◌≤◌, length, IfSome, IfNone, OnSome, Some, slice_get, slice_set};

// First in, first out, over a lent slice, as libraries use no heap. What was taken out stays readable in its place.
#[derive(Drop)]
pub(crate) struct Worklist<'a, V> {
    pub(crate) items: &'a mut [V],
    pub(crate) head: usize,
    pub(crate) tail: usize,
    ghost ordered: { head ≤ tail },
    ghost within: { tail ≤ length items.now },
}

impl<'a, V: Copy> Worklist<'a, V> {
    pub(crate) fn push(&mut self, item: V)
        requires { self.old.tail < length self.old.items.now }
        ensures items { self.new.items.now ≡ slice_set self.old.items.now self.old.tail item }
        ensures tail { self.new.tail ≡ self.old.tail + 1 }
        ensures head { self.new.head ≡ self.old.head }
        ensures lent { self.new.items.ghost_name ≡ self.old.items.ghost_name }
    {
        self.items[self.tail] = item;
        self.tail += 1;
    }

    // The index of the next item, where one is left.
    pub(crate) fn next(&mut self) -> Option<usize>
        ensures items { self.new.items.now ≡ self.old.items.now }
        ensures tail { self.new.tail ≡ self.old.tail }
        ensures lent { self.new.items.ghost_name ≡ self.old.items.ghost_name }
        ensures next { IfSome result (λ index. index ≡ self.old.head) }
        ensures left { OnSome result (self.old.head < self.old.tail) }
        ensures taken { OnSome result (self.new.head ≡ self.old.head + 1) }
        ensures none { IfNone result (self.old.head ≡ self.old.tail) }
        ensures still { IfNone result (self.new.head ≡ self.old.head) }
    {
        if self.head < self.tail {
            let index = self.head;
            self.head += 1;
            Some(index)
        } else {
            None
        }
    }

    pub(crate) fn get(&self, index: usize) -> V
        requires { index < self.now.tail }
        ensures { slice_get self.now.items.now index ≡ Some result }
    {
        let items: &[V] = &*self.items;
        items[index]
    }

    pub(crate) fn len(&self) -> usize
        ensures { result ≡ self.now.tail }
    {
        self.tail
    }
}
