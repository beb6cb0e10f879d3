// A list that lies at the start of a lent table.
#![tactic(auto)]

ghost use Rattle.std.specs.Prelude.{◌≡◌, ◌^◌, ◌<◌, ◌≤◌, not, [], length};
ghost use Rattle.std.specs.List.{slice_get};
ghost use Rattle.slice_vec.specs.Tables.{table, room, listed, put, has_place, pushed_at, pushed, popped};

use std::marker::Model;

// At most `CAP` items, in the first places of the table; the other places keep what they held.
#[derive(Drop)]
pub struct SliceVec<'a, T: Copy, const CAP: usize> {
    count: usize,
    places: &'a mut [T],
}

impl<'a, T: Copy, const CAP: usize> Model for SliceVec<'a, T, CAP> {
    ghost use Rattle.std.specs.Prelude.{◌^◌, ◌<◌, ◌≤◌, min, length};
    ghost use Rattle.slice_vec.specs.Tables.{Table, table};

    ghost Value = { Table T };

    ghost view = { λ v. table v.count v.places.now };

    ghost invariant = { λ v. v.count ≤ min CAP (length v.places.now) };
}

impl<'a, T: Copy, const CAP: usize> SliceVec<'a, T, CAP> {
    // No items, over a table that is left as it is.
    pub fn new(places: &'a mut [T]) -> SliceVec<'a, T, CAP>
        ensures { result ≡ table 0 places.old }
    {
        SliceVec { count: 0, places }
    }

    // The items. The clause `within`, here and below, hands the invariant to callers, who see the table alone.
    pub fn as_slice(&self) -> &[T]
        ensures items { result.now ≡ listed CAP self.now }
        ensures within { self.now.count ≤ room CAP self.now }
    {
        &self.places[..self.count]
    }

    // Whether no place is free.
    pub fn is_full(&self) -> bool
        ensures full { result ≡ not (has_place CAP self.now) }
        ensures within { self.now.count ≤ room CAP self.now }
    {
        self.count >= CAP || self.count >= self.places.len()
    }

    // Puts an item last and gives its place; `None`, with nothing changed, where no place is free.
    pub fn push(&mut self, item: T) -> Option<usize>
        ensures place { result ≡ pushed_at CAP self.old }
        ensures left { self.new ≡ pushed CAP item self.old }
        ensures within { self.old.count ≤ room CAP self.old }
        ensures long { length self.old.places < 2 ^ 64 }
    {
        let place = self.count;
        // Not by `is_full`: through it the proof of `left` was tried, and did not close.
        if place >= CAP || place >= self.places.len() {
            return None;
        }
        self.places[place] = item;
        self.count += 1;
        Some(place)
    }

    // Takes the item at a place out, each later one moving down; `None`, with nothing changed, where there is none.
    pub fn pop_at(&mut self, at: usize) -> Option<T>
        ensures item { result ≡ slice_get (listed CAP self.old) at }
        ensures left { self.new ≡ popped CAP at self.old }
        ensures within { self.old.count ≤ room CAP self.old }
    {
        if at >= self.count {
            return None;
        }
        let item = self.places[at];
        self.places.copy_within(at + 1..self.count, at);
        self.count -= 1;
        Some(item)
    }

    // Takes all items out.
    pub fn clear(&mut self)
        ensures { self.new ≡ put [] self.old }
    {
        self.count = 0;
    }

    // The whole table, as it is now.
    pub fn into_places(self) -> &'a mut [T]
        ensures { result.now ≡ self.entry.places }
    {
        let SliceVec { places, .. } = self;
        places
    }
}
