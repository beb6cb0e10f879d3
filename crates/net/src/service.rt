// The calls of a net in service.
ghost use Rattle.std.specs.Prelude.{◌≡◌, ℕ, ◌≤◌, min, true, List, [], ◌∷◌, length};
ghost use Rattle.search.specs.Answers.{answer as search_answer, told as search_told_of};
ghost use Rattle.search.specs.Routes.{route_of};
ghost use Rattle.search.specs.Rule.{made};
ghost use Rattle.slice_vec.specs.Tables.{table, room, listed, put, stored};
ghost use Rattle.net.specs.Calls.{numbers_of, release_told, release_left, show_told, show_list, show_told_of, show_list_of, show_answer, shown, recorded_as, written, load_told, book_told_by, book_left, labels_left};
ghost use Rattle.net.specs.Questions.{told, no_values, one_value, three_values, unless, book_refusal, route_refusal, query};
ghost use Rattle.net.specs.Ledger.{Site, after};
ghost use Rattle.net.specs.Matching.{Matches, Shows, laid, served, Steps, StepsWhere};
ghost use Rattle.net.specs.Tables.{load};
ghost use Rattle.net.specs.declared.types.Call.{Call};
ghost use Rattle.net.specs.declared.types.Call.TheVariants.{Book as BookCall, Release, Show, Load, Close};

use crate::streams::{load_of, mark_open, place_of};
use crate::types::{Book, Laying, NetFault, Request, Service, Stream};
use kinds::Kind;
use search::{Found, Label, Link, Query, SearchFault, route_to, search};
use slice_vec::SliceVec;

impl<'a> Book<'a> {
    // A book without streams over a lent table.
    pub fn new(streams: &'a mut [Stream]) -> Book<'a>
        ensures { result.streams ≡ table 0 streams.old }
    {
        Book {
            streams: SliceVec::new(streams),
        }
    }

    // What the standing streams load a link with.
    fn load_on(&self, link: u16) -> u64
        ensures { result ≡ load (listed 64 self.now.streams) link }
    {
        load_of(self.streams.as_slice(), link)
    }
}

// Writes the links of a stream into the list, if it is as long as the route.
fn write_links(stream: &Stream, places: &mut [u16]) -> Option<(u32, u32, u16)>
    ensures answer { show_answer result ≡ show_told_of (stream.now ∷ []) (length places.old) }
    ensures list { places.new ≡ show_list_of (stream.now ∷ []) places.old }
{
    let route = stream.route();
    if places.len() < route.len() {
        return None;
    }
    places[..route.len()].copy_from_slice(route);
    Some((stream.figure, stream.rate, stream.hops))
}

// Puts the questions of a booking that come before the search.
fn check_request(nodes: u16, book: &Book, request: &Request) -> Result<(), NetFault>
    ensures { told no_values result ≡ unless (book_refusal nodes (room 64 book.now.streams) (numbers_of (listed 64 book.now.streams)) request.now) [] }
{
    if request.stream == 0 {
        return Err(NetFault::StreamZero);
    }
    if place_of(book.streams.as_slice(), request.stream).is_some() {
        return Err(NetFault::StreamTaken);
    }
    if book.streams.is_full() {
        return Err(NetFault::BookFull);
    }
    check_route(nodes, request)
}

// Puts the questions on the route and the rate.
fn check_route(nodes: u16, request: &Request) -> Result<(), NetFault>
    ensures { told no_values result ≡ unless (route_refusal nodes request.now) [] }
{
    if request.source >= nodes {
        return Err(NetFault::Source);
    }
    if request.target >= nodes {
        return Err(NetFault::Target);
    }
    if request.source == request.target {
        return Err(NetFault::StreamEnds);
    }
    if request.rate == 0 {
        return Err(NetFault::Rate);
    }
    if request.hop_limit < 1 || request.hop_limit > 16 {
        return Err(NetFault::HopLimit);
    }
    Ok(())
}

// Searches the links that are open to the booking. The kind and the request come with a call and the labels are lent to the
// net: they make no value of their own.
fn find_route<K: Kind>(
    kind: &K,
    links: &[Link<K::Use>],
    streams: &[Stream],
    request: &Request,
    labels: &mut [Label<K::State>],
) -> Result<Found, SearchFault>
    requires few_links { length links.now ≤ 512 }
    requires few_streams { length streams.now ≤ 64 }
    ensures answer { search_told_of result ≡ search_answer K.Kind.model (query links.now (load streams.now) kind.now request.now) (length labels.old) }
    ensures table { labels.new ≡ stored (made K.Kind.model (query links.now (load streams.now) kind.now request.now)) labels.old }
{
    // A flag for each link that a net can have, on the stack: nothing is allocated.
    let mut flags = [false; 512];
    mark_open(links, streams, request.rate, &mut flags);
    let query = Query {
        kind,
        links,
        flags: &flags[..links.len()],
        source: request.source,
        target: request.target,
        hop_limit: request.hop_limit,
    };
    search(&query, labels)
}

// The record of a stream that was found a route.
fn record_of<S: Copy>(request: &Request, found: &Found, labels: &[Label<S>]) -> Stream
    ensures { result ≡ recorded_as request.now found.now.figure found.now.hops (written (route_of labels.now found.now.label)) }
{
    let mut links = [0; 16];
    let _ = route_to(labels, found.label, &mut links);
    Stream {
        number: request.stream,
        rate: request.rate,
        figure: found.figure,
        hops: found.hops,
        links,
    }
}

impl<'a, K: Kind> Service<'a, K> {
    // Searches the links of the net, beside the streams of the book.
    fn find(
        &self,
        book: &Book,
        kind: &K,
        request: &Request,
        labels: &mut [Label<K::State>],
    ) -> Result<Found, SearchFault>
        ensures answer { search_told_of result ≡ search_answer K.Kind.model (query (listed 512 self.now.links) (load (listed 64 book.now.streams)) kind.now request.now) (length labels.old) }
        ensures table { labels.new ≡ stored (made K.Kind.model (query (listed 512 self.now.links) (load (listed 64 book.now.streams)) kind.now request.now)) labels.old }
    {
        find_route(
            kind,
            self.links.as_slice(),
            book.streams.as_slice(),
            request,
            labels,
        )
    }

    pub fn book(
        &self,
        book: &mut Book,
        kind: &K,
        request: &Request,
        labels: &mut [Label<K::State>],
    ) -> Result<(u32, u16, u64), NetFault>
        ensures answer { told three_values result ≡ book_told_by K.Kind.model self.now.nodes self.now.links book.old.streams kind.now request.now (length labels.old) }
        ensures left { book.new.streams ≡ book_left K.Kind.model self.now.nodes self.now.links book.old.streams kind.now request.now (length labels.old) }
        ensures labels { labels.new ≡ labels_left K.Kind.model self.now.nodes self.now.links book.old.streams kind.now request.now labels.old }
        ensures ledger { (places : ℕ) → StepsWhere (λ site. length labels.old ≡ min places site.label_places) K.Kind.model (BookCall request.now kind.now places) (told three_values result) (served self.now.nodes self.now.links book.old.streams) (served self.now.nodes self.now.links book.new.streams) }
    {
        check_request(self.nodes, book, request)?;
        let found = self.find(book, kind, request, labels)?;
        // A place is free: it was asked for.
        let _ = book.streams.push(record_of(request, &found, labels));
        // A count has 64 bits here; there is no `From` between the two types.
        Ok((found.figure, found.hops, found.count as u64))
    }

    pub fn show(
        &self,
        book: &Book,
        stream: u16,
        places: &mut [u16],
    ) -> Result<(u32, u32, u16), NetFault>
        ensures answer { told three_values result ≡ show_told book.now.streams stream places.old }
        ensures list { places.new ≡ show_list book.now.streams stream places.old }
        ensures ledger { 16 ≤ length places.old → Steps K.Kind.model (Show stream) (shown (told three_values result) places.new) (served self.now.nodes self.now.links book.now.streams) (served self.now.nodes self.now.links book.now.streams) }
        ensures within { (site : Site) (calls : List (Call K K.Use)) → Matches site (after K.Kind.model site calls) true self.now.nodes self.now.links book.now.streams → Shows K.Kind.model site calls stream (length places.old) (shown (told three_values result) places.new) self.now.nodes self.now.links book.now.streams }
    {
        let streams = book.streams.as_slice();
        let at = place_of(streams, stream).ok_or(NetFault::NoStream)?;
        write_links(&streams[at], places).ok_or(NetFault::ListShort)
    }

    pub fn release(&self, book: &mut Book, stream: u16) -> Result<(), NetFault>
        ensures answer { told no_values result ≡ release_told book.old.streams stream }
        ensures left { book.new.streams ≡ release_left book.old.streams stream }
        ensures ledger { Steps K.Kind.model (Release stream) (told no_values result) (served self.now.nodes self.now.links book.old.streams) (served self.now.nodes self.now.links book.new.streams) }
    {
        let at = place_of(book.streams.as_slice(), stream).ok_or(NetFault::NoStream)?;
        let _ = book.streams.pop_at(at);
        Ok(())
    }

    pub fn load(&self, book: &Book, link: u16) -> Result<u64, NetFault>
        ensures answer { told one_value result ≡ load_told self.now.links book.now.streams link }
        ensures ledger { Steps K.Kind.model (Load link) (told one_value result) (served self.now.nodes self.now.links book.now.streams) (served self.now.nodes self.now.links book.now.streams) }
    {
        if usize::from(link) >= self.links.as_slice().len() {
            return Err(NetFault::NoLink);
        }
        Ok(book.load_on(link))
    }

    // Ends every stream, and gives a net being laid again and how many there were.
    pub fn close(self, book: &mut Book) -> (Laying<'a, K>, usize)
        ensures nodes { result.0.nodes ≡ self.entry.nodes }
        ensures table { result.0.links ≡ self.entry.links }
        ensures ended { result.1 ≡ length (listed 64 book.old.streams) }
        ensures left { book.new.streams ≡ put [] book.old.streams }
        ensures ledger { Steps K.Kind.model Close (0, result.1 ∷ []) (served self.entry.nodes self.entry.links book.old.streams) (laid result.0.nodes result.0.links book.new.streams) }
    {
        let ended = book.streams.as_slice().len();
        book.streams.clear();
        let Service { nodes, links } = self;
        (Laying { nodes, links }, ended)
    }
}
