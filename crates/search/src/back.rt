// The way back from a label to label 0.
ghost use Rattle.std.specs.Prelude.{◌≡◌, ◌≤◌, ◌++◌, map, length, drop, if◌then◌else◌, Some, None, nat_le, slice_index};
ghost use Rattle.search.specs.Routes.{way, route_of};

use crate::label::Label;

// How many links the way back from label `n` has; 0 if there is no such label.
fn hops_at<S: Copy>(labels: &[Label<S>], n: usize) -> u16
    ensures { result ≡ slice_index (map (λ l. l.hops) labels.now) n }
{
    labels.get(n).map_or(0, |label| label.hops)
}

// Where label `n` came from, and over which link; 0 and 0 if there is no such label.
fn origin<S: Copy>(labels: &[Label<S>], n: usize) -> (usize, u16)
    ensures from { result.0 ≡ slice_index (map (λ l. l.from) labels.now) n }
    ensures link { result.1 ≡ slice_index (map (λ l. l.link) labels.now) n }
{
    labels
        .get(n)
        .map_or((0, 0), |label| (label.from, label.link))
}

// Writes the links back from label `n`, `hops` of them, from the start of the places on.
#[tactic(auto, using(crate::proofs::Fields::way_step))]
fn write_back<S: Copy>(labels: &[Label<S>], n: usize, hops: usize, places: &mut [u16])
    requires { hops ≤ length places.old }
    ensures { places.new ≡ way hops labels.now n ++ drop hops places.old }
{
    let mut at = n;
    // By index, as no proof knows what `iter_mut().rev()` wrote.
    for place in (0..hops).rev() {
        let (from, link) = origin(labels, at);
        places[place] = link;
        at = from;
    }
}

// Writes the links of the route to label `n`, in order, from the start of the places on, and gives their count;
// `None`, with nothing written, where the places are too few. A label that is not there has no links.
#[tactic(auto, using(crate::proofs::Fields::length_route))]
pub fn route_to<S: Copy>(labels: &[Label<S>], n: usize, places: &mut [u16]) -> Option<u16>
    ensures count { result ≡ (if nat_le (length (route_of labels.now n)) (length places.old) then Some (length (route_of labels.now n)) else None) }
    ensures links { places.new ≡ (if nat_le (length (route_of labels.now n)) (length places.old) then route_of labels.now n ++ drop (length (route_of labels.now n)) places.old else places.old) }
{
    let hops = hops_at(labels, n);
    if usize::from(hops) > places.len() {
        return None;
    }
    write_back(labels, n, usize::from(hops), places);
    Some(hops)
}
