// A bounded list: it appends, reads, cuts back and counts.
ghost use Rattle.std.specs.Prelude.{◌≡◌, [], ◌∷◌, ◌++◌, length, take, drop, if◌then◌else◌, nat_lt};
ghost use Rattle.std.specs.List.{slice_get};
ghost use Rattle.bounded.specs.Lists.{held, spare, room};

// The list is the first `len` slots, or all of them where `len` is more. Any slots and any `len`
// make a list, so a list that was put aside goes on with the `len` that it had.
// Kept as slots with a length: the memory is the caller's, and lists of the standard library own theirs.
#[derive(Drop)]
pub struct Bounded<'a, T> {
    pub slots: &'a mut [T],
    pub len: usize,
}

impl<'a, T: Copy> Bounded<'a, T> {
    // The empty list over these slots.
    pub fn new(slots: &'a mut [T]) -> Bounded<'a, T>
        ensures items { held result ≡ [] }
        ensures rest { spare result ≡ slots.old }
        ensures lender { result.slots.ghost_name ≡ slots.entry.ghost_name }
    {
        Bounded { slots, len: 0 }
    }

    // How many elements the list has.
    pub fn count(&self) -> usize
        ensures { result ≡ length (held self.now) }
    {
        self.len.min(self.slots.len())
    }

    // The element at `index`.
    pub fn get(&self, index: usize) -> Option<T>
        ensures { result ≡ slice_get (held self.now) index }
    {
        self.slots[..self.count()].get(index).copied()
    }

    // Puts `x` at the end where there is room, and says whether there was.
    pub fn append(&mut self, x: T) -> bool
        ensures value { result ≡ nat_lt (length (held self.old)) (room self.old) }
        ensures items { held self.new ≡ (if result then held self.old ++ x ∷ [] else held self.old) }
        ensures rest { spare self.new ≡ (if result then drop 1 (spare self.old) else spare self.old) }
        ensures size { room self.new ≡ room self.old }
        ensures lender { self.new.slots.ghost_name ≡ self.old.slots.ghost_name }
    {
        if self.len < self.slots.len() {
            self.slots[self.len] = x;
            self.len += 1;
            true
        } else {
            false
        }
    }

    // Keeps the first `n` elements; a list that has no more stays as it is.
    pub fn cut_back(&mut self, n: usize)
        ensures items { held self.new ≡ take n (held self.old) }
        ensures memory { self.new.slots.now ≡ self.old.slots.now }
        ensures lender { self.new.slots.ghost_name ≡ self.old.slots.ghost_name }
    {
        self.len = self.len.min(n);
    }
}

#[cfg(test)]
mod tests {
    use super::*;

    #[test]
    fn appends_until_full(rt: HostRuntime) {
        let mut slots = [0u16; 2];
        let mut list = Bounded::new(&mut slots);
        assert_eq!(rt; list.count(), 0);
        assert!(rt; list.append(7));
        assert!(rt; list.append(9));
        assert!(rt; !list.append(11), "there is no third slot");
        assert_eq!(rt; list.count(), 2);
        assert_eq!(rt; list.get(1), Some(9));
        assert_eq!(rt; list.get(2), None);
    }

    #[test]
    fn cuts_back_and_goes_on(rt: HostRuntime) {
        let mut slots = [1u16, 2, 3, 4];
        let mut list = Bounded {
            slots: &mut slots,
            len: 3,
        };
        list.cut_back(5);
        assert_eq!(rt;
            list.count(),
            3,
            "a list of three has no fifth element to cut"
        );
        list.cut_back(1);
        assert!(rt; list.append(8));
        assert_eq!(rt; list.get(1), Some(8));
        assert_eq!(rt; slots, [1, 8, 3, 4], "the lender sees one slot changed");
    }
}
