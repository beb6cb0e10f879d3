// Where a piece of the text ends.
ghost use Rattle.std.specs.Prelude.{◌≡◌, ◌<◌, ◌≤◌, ◌==◌, [], ◌∷◌, length, drop, position};
ghost use Rattle.std.specs.List.{between};
ghost use Rattle.reader.specs.Split.{split, split_some};

// The index of the first `byte`.
fn find(bytes: &[u8], byte: u8) -> Option<usize>
    ensures { result ≡ position (λ b. b == byte) bytes.now }
{
    bytes.iter().position(|b| *b == byte)
}

// The bytes before the first `byte`, and those after it, if it is there.
#[tactic(auto, using(std::proofs::lemmas::List::take_rest, crate::proofs::Splits::split_some, crate::proofs::Splits::split_none))]
pub fn cut(bytes: &[u8], byte: u8) -> (&[u8], Option<&[u8]>)
    ensures parted { split byte ([] ∷ []) bytes.now ≡ result.0.now ∷ split_some byte result.1 }
{
    match find(bytes, byte) {
        Some(end) => (&bytes[..end], Some(&bytes[end + 1..])),
        None => (bytes, None),
    }
}

// Where the piece at `place` ends, and where the next one begins.
pub fn ends(text: &[u8], place: usize, byte: u8) -> (usize, usize)
    requires { place < length text.now }
    ensures end { (place ≤ result.0) × (result.0 ≤ result.1) }
    ensures next { (place < result.1) × (result.1 ≤ length text.now) }
    ensures parted { split byte [] (drop place text.now) ≡ between place result.0 text.now ∷ split byte [] (drop result.1 text.now) }
{
    match find(&text[place..], byte) {
        Some(length) => (place + length, place + length + 1),
        None => (text.len(), text.len()),
    }
}
