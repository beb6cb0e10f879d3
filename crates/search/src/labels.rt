// The labels of a search, made one after another in a lent table.
ghost use Rattle.std.specs.Prelude.{◌≡◌, [], ◌∷◌, ◌++◌, length, nat_le};
ghost use Rattle.search.specs.Labels.{held, Stores};

use crate::answer::SearchFault;
use crate::label::{Label, Labels};

impl<'a, S: Copy> Labels<'a, S> {
    pub fn new(places: &'a mut [Label<S>]) -> Labels<'a, S>
        ensures lent { result.places.ghost_name ≡ places.entry.ghost_name }
        ensures count { result.count ≡ 0 }
        ensures places { result.places.now ≡ places.old }
    {
        Labels { count: 0, places }
    }

    pub fn as_slice(&self) -> &[Label<S>]
        ensures { result.now ≡ held self.now }
    {
        &self.places[..self.count]
    }

    fn is_full(&self) -> bool
        ensures { result ≡ nat_le (length self.now.places.now) self.now.count }
    {
        self.count >= self.places.len()
    }

    pub fn push(&mut self, label: Label<S>) -> Result<(), SearchFault>
        ensures { Stores (held self.old ++ label ∷ []) self.old result self.new }
    {
        if self.is_full() {
            return Err(SearchFault::Full);
        }
        self.places[self.count] = label;
        self.count += 1;
        Ok(())
    }
}
