// A list over a lent slice: as many items as the slice has room for, one behind the other.
ghost use Rattle.std.specs.Prelude.{◌≡◌, ℕ, ◌+◌, ◌<◌, ◌≤◌, length, nat_le, slice_set, MatchResult};

// There is no room for one more item. A pile that is full says so by a type of its own crate.
#[derive(Clone, Copy, Debug, PartialEq, Eq)]
pub struct Full;

// A length beside a slice, and no `Vec`: a section has no heap, and writes into a buffer that it is lent.
// The slice is the caller's again when the list ends; what stands behind the last item is never touched.
#[derive(Drop)]
pub struct Bounded<'a, T> {
    items: &'a mut [T],
    len: usize,
    ghost within: { len ≤ length items.now },
}

impl<'a, T: Copy> Bounded<'a, T> {
    pub fn new(items: &'a mut [T]) -> Bounded<'a, T>
        ensures same { result.items.now ≡ items.old }
        ensures lender { result.items.ghost_name ≡ items.entry.ghost_name }
        ensures none { result.len ≡ 0 }
    {
        Bounded { items, len: 0 }
    }

    pub fn len(&self) -> usize
        ensures { result ≡ self.now.len }
    {
        self.len
    }

    pub fn is_full(&self) -> bool
        ensures { result ≡ nat_le (length self.now.items.now) self.now.len }
    {
        self.items.len() <= self.len
    }

    // Puts x behind the last item; a full list stays as it is.
    pub fn push(&mut self, x: T) -> Result<(), Full>
        ensures pushed { MatchResult result
            (λ _. (self.old.len < length self.old.items.now)
            × (self.new.items.now ≡ slice_set self.old.items.now self.old.len x)
            × (self.new.len ≡ self.old.len + 1))
            (λ _. (length self.old.items.now ≤ self.old.len)
            × (self.new.items.now ≡ self.old.items.now)
            × (self.new.len ≡ self.old.len)) }
        ensures lender { self.new.items.ghost_name ≡ self.old.items.ghost_name }
    {
        if self.is_full() {
            return Err(Full);
        }
        self.items[self.len] = x;
        self.len += 1;
        Ok(())
    }
}
