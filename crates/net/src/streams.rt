// The streams of a book: whose number, which links, how much load.
ghost use Rattle.std.specs.Prelude.{◌≡◌, ◌≤◌, ◌==◌, length, if◌then◌else◌, position};
ghost use Rattle.slice_vec.specs.Tables.{stored};
ghost use Rattle.net.specs.Tables.{has, route, load, flags_for, is_open_to};

use crate::types::Stream;
use search::Link;

// The place of the first stream that bears the number.
pub fn place_of(streams: &[Stream], number: u16) -> Option<usize>
    ensures { result ≡ position (λ s. s.number == number) streams.now }
{
    streams.iter().position(|stream| stream.number == number)
}

impl Stream {
    // The numbers of its links, in order.
    pub(crate) fn route(&self) -> &[u16]
        ensures { result.now ≡ route self.now }
    {
        &self.links[..usize::from(self.hops).min(16)]
    }

    // What it loads a link with.
    fn share(&self, link: u16) -> u32
        ensures { result ≡ (if has link (route self.now) then self.now.rate else 0) }
    {
        if self.route().contains(&link) {
            self.rate
        } else {
            0
        }
    }
}

// The sum of the rates of the streams whose route has the link. The bound is a `requires` here and where this is called, as the
// `sum` of a chain takes it from one.
pub fn load_of(streams: &[Stream], link: u16) -> u64
    requires { length streams.now ≤ 64 }
    ensures { result ≡ load streams.now link }
{
    streams
        .iter()
        .map(|stream| u64::from(stream.share(link)))
        .sum()
}

// Sets a flag for each link that has room for the rate.
pub fn mark_open<U: Copy>(links: &[Link<U>], streams: &[Stream], rate: u32, flags: &mut [bool])
    requires long { length links.now ≤ length flags.old }
    requires few_links { length links.now ≤ 512 }
    requires few_streams { length streams.now ≤ 64 }
    ensures { flags.new ≡ stored (flags_for (load streams.now) rate links.now) flags.old }
{
    // By index, since no proof knows what `iter_mut().zip(..)` wrote, and `array::from_fn` would ask each of 512 places for
    // its link. There are at most 512 links, so a number has 16 bits.
    for (i, link) in links.iter().enumerate() {
        flags[i] = has_room(link.capacity, load_of(streams, i as u16), rate);
    }
}

fn has_room(capacity: u32, load: u64, rate: u32) -> bool
    ensures { result ≡ is_open_to capacity load rate }
{
    load.saturating_add(u64::from(rate)) <= u64::from(capacity)
}
