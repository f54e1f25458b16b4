ghost use Rattle.std.specs.Prelude.{◌≡◌, [], ◌∷◌, ◌++◌, length, is_ok, if◌then◌else◌, nat_lt};
ghost use Rattle.tray.specs.Items.{items, places, element, without};

use super::{Full, Tray};

// In every promise `items` is the list, and `places` how many it can hold at most. The clause
// `named` says that the tray still lies in the slice that its owner lent.
impl<'a, T: Copy> Tray<'a, T> {
    // An empty tray over the slots.
    pub fn new(slots: &'a mut [T]) -> Tray<'a, T>
        ensures list { items result ≡ [] }
        ensures room { places result ≡ length slots.old }
        ensures named { result.slots.ghost_name ≡ slots.entry.ghost_name }
    {
        Tray { slots, len: 0 }
    }

    // How many elements there are.
    pub fn len(&self) -> usize
        ensures { result ≡ length (items self.now) }
    {
        self.as_slice().len()
    }

    // How many there can be at most.
    pub fn places(&self) -> usize
        ensures { result ≡ places self.now }
    {
        self.slots.len()
    }

    // The elements in order.
    pub fn as_slice(&self) -> &[T]
        ensures { result.now ≡ items self.now }
    {
        &self.slots[..self.len]
    }

    // The element at a place, counted from 1.
    pub fn at(&self, place: usize) -> Option<T>
        ensures { result ≡ element (items self.now) place }
    {
        // Place 0 wraps to an index that no slice has.
        self.as_slice().get(place.wrapping_sub(1)).copied()
    }

    // Puts an element at the end; a full tray stays as it is.
    pub fn put(&mut self, x: T) -> Result<(), Full>
        ensures test { is_ok result ≡ nat_lt (length (items self.old)) (places self.old) }
        ensures list { items self.new ≡ (if is_ok result then items self.old ++ x ∷ [] else items self.old) }
        ensures room { places self.new ≡ places self.old }
        ensures named { self.new.slots.ghost_name ≡ self.old.slots.ghost_name }
    {
        if self.len >= self.places() {
            return Err(Full);
        }
        self.slots[self.len] = x;
        self.len += 1;
        Ok(())
    }

    // Takes out the element at a place, counted from 1; later elements move down by one.
    #[tactic(auto, using(crate::proofs::Places::moved_by, crate::proofs::Places::element_within))]
    pub fn take_out(&mut self, place: usize) -> Option<T>
        ensures value { result ≡ element (items self.old) place }
        ensures list { items self.new ≡ without (items self.old) place }
        ensures room { places self.new ≡ places self.old }
        ensures named { self.new.slots.ghost_name ≡ self.old.slots.ghost_name }
    {
        let x = self.at(place)?;
        self.slots.copy_within(place..self.len, place - 1);
        self.len -= 1;
        Some(x)
    }
}
