// What a kind of limit is, for every kind alike.
ghost use Rattle.std.specs.Prelude.{◌≡◌};
ghost use Rattle.kinds.specs.Kinds.{Model, Laws, along};

// A kind of limit. A value of it holds what a booking asks; a use is what a link takes of it, and a state
// is what a route has taken so far.
pub trait Kind: Copy {
    type State: Copy;

    type Use: Copy;

    // What the functions below compute.
    ghost model: { Model Self Self.State Self.Use };

    fn start(&self) -> Self::State
        ensures { result ≡ model.start self.now };

    fn extend(&self, state: &Self::State, taken: &Self::Use) -> Self::State
        ensures { result ≡ model.extended self.now state.now taken.now };

    fn within(&self, state: &Self::State) -> bool
        ensures { result ≡ model.within self.now state.now };

    fn covers(&self, a: &Self::State, b: &Self::State) -> bool
        ensures { result ≡ model.covers self.now a.now b.now };

    fn figure(&self, state: &Self::State) -> u32
        ensures { result ≡ model.figure self.now state.now };

    ghost laws: { Laws model };
}

// The state of a list of uses: the start state extended over them in order.
pub fn state_along<K: Kind>(kind: &K, uses: &[K::Use]) -> K::State
    ensures { result ≡ along K.Kind.model kind.now uses.now }
{
    uses.iter()
        .fold(kind.start(), |state, taken| kind.extend(&state, taken))
}
