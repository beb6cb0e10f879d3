// A list of calls, performed one after another on a net and a book that are made new.
ghost use Rattle.std.specs.Prelude.{◌≡◌, ◌≤◌, [], length, IfOk, vec_len, vec_capacity, MatchResult};
ghost use Rattle.net.specs.Labels.{LabelsFollow, labels_after};
ghost use Rattle.net.specs.Laws.{LawsOfRun, ChosenInRun};
ghost use Rattle.net.specs.Ledger.{Site, begun};
ghost use Rattle.net.specs.Matching.{Matches, State, laid, served, Steps, StepsWhere};
ghost use Rattle.net.specs.Performed.{told_of, is_serving, nodes_of, links_of, state_of, Sofar, Ran, site_of};
ghost use Rattle.net.specs.Questions.{told, no_values};
ghost use Rattle.net.specs.declared.types.Call.TheVariants.{Book as BookCall, Show};
ghost use Rattle.net.specs.declared.types.Stream.{Stream};
ghost use Rattle.slice_vec.specs.Tables.{Table};

use crate::types::{
    Answer, Book, Call, Laying, Links, Net, NetFault, Refusal, Request, Service, Shift, Stream,
};
use kinds::Kind;
use search::{Label, Link};
use std::alloc::{AllocError, Global};

// The answer to a call that has no values.
fn done(res: Result<(), NetFault>) -> Result<Answer, Refusal>
    ensures { told_of result ≡ told no_values res }
{
    res?;
    Ok(Answer::Done)
}

// A call on a net being laid.
fn lay<'a, K: Kind>(
    mut net: Laying<'a, K>,
    call: &Call<K, K::Use>,
) -> (Net<'a, K>, Result<Answer, Refusal>)
    ensures { (b : Table Stream) → Steps K.Kind.model call.now (told_of result.1) (laid net.entry.nodes net.entry.links b) (state_of result.0 b) }
{
    match call {
        Call::Add(link) => {
            let answer = net.add(*link).map(Answer::Added);
            (Net::Laid(net), answer.map_err(Refusal::Fault))
        }
        Call::Withdraw(link) => {
            let answer = done(net.withdraw(*link));
            (Net::Laid(net), answer)
        }
        Call::Open => (Net::Serving(net.open()), Ok(Answer::Done)),
        _ => (Net::Laid(net), Err(Refusal::NotTaken)),
    }
}

// What follows lends the book and the labels, which the caller of `perform` owns: they make no value of their own, and that
// the label table stays as long as it was is said of two states, so that no type can hold it, and the site is
// any that matches.
// A booking with at most so many places of the label table.
fn book_within<K: Kind>(
    net: &Service<K>,
    book: &mut Book,
    labels: &mut [Label<K::State>],
    request: &Request,
    kind: &K,
    places: usize,
) -> Result<Answer, Refusal>
    ensures ledger { StepsWhere (λ site. site.label_places ≡ length labels.old) K.Kind.model (BookCall request.now kind.now places) (told_of result) (served net.now.nodes net.now.links book.old.streams) (served net.now.nodes net.now.links book.new.streams) }
    ensures room { length labels.new ≡ length labels.old }
    ensures labels { LabelsFollow K.Kind.model (BookCall request.now kind.now places) (served net.now.nodes net.now.links book.old.streams) labels.old labels.new }
{
    let places = places.min(labels.len());
    let (figure, hops, count) = net.book(book, kind, request, &mut labels[..places])?;
    Ok(Answer::Booked(figure, hops, count))
}

// The record of a stream, with all its links.
fn show_whole<K: Kind>(net: &Service<K>, book: &Book, stream: u16) -> Result<Answer, Refusal>
    ensures { Steps K.Kind.model (Show stream) (told_of result) (served net.now.nodes net.now.links book.now.streams) (served net.now.nodes net.now.links book.now.streams) }
{
    let mut links = [0; 16];
    let (figure, rate, hops) = net.show(book, stream, &mut links)?;
    Ok(Answer::Shown {
        figure,
        rate,
        hops,
        links,
    })
}

// A call on a net in service.
fn serve<'a, K: Kind>(
    net: Service<'a, K>,
    book: &mut Book,
    labels: &mut [Label<K::State>],
    call: &Call<K, K::Use>,
) -> (Net<'a, K>, Result<Answer, Refusal>)
    ensures ledger { StepsWhere (λ site. site.label_places ≡ length labels.old) K.Kind.model call.now (told_of result.1) (served net.entry.nodes net.entry.links book.old.streams) (state_of result.0 book.new.streams) }
    ensures room { length labels.new ≡ length labels.old }
    ensures labels { LabelsFollow K.Kind.model call.now (served net.entry.nodes net.entry.links book.old.streams) labels.old labels.new }
{
    match call {
        Call::Book {
            request,
            kind,
            places,
        } => {
            let answer = book_within(&net, book, labels, request, kind, *places);
            (Net::Serving(net), answer)
        }
        Call::Release(stream) => {
            let answer = done(net.release(book, *stream));
            (Net::Serving(net), answer)
        }
        Call::Show(stream) => {
            let answer = show_whole(&net, book, *stream);
            (Net::Serving(net), answer)
        }
        Call::Load(link) => {
            let answer = net.load(book, *link).map(Answer::Loaded);
            (Net::Serving(net), answer.map_err(Refusal::Fault))
        }
        Call::Close => {
            let (laid, ended) = net.close(book);
            (Net::Laid(laid), Ok(Answer::Ended(ended)))
        }
        _ => (Net::Serving(net), Err(Refusal::NotTaken)),
    }
}

// A call on a net in either state.
fn step<'a, K: Kind>(
    net: Net<'a, K>,
    book: &mut Book,
    labels: &mut [Label<K::State>],
    call: &Call<K, K::Use>,
) -> (Net<'a, K>, Result<Answer, Refusal>)
    ensures ledger { StepsWhere (λ site. site.label_places ≡ length labels.old) K.Kind.model call.now (told_of result.1) (state_of net.entry book.old.streams) (state_of result.0 book.new.streams) }
    ensures room { length labels.new ≡ length labels.old }
    ensures labels { LabelsFollow K.Kind.model call.now (state_of net.entry book.old.streams) labels.old labels.new }
{
    match net {
        Net::Laid(laid) => lay(laid, call),
        Net::Serving(serving) => serve(serving, book, labels, call),
    }
}

impl<'a, K: Kind> Net<'a, K> {
    // Whether it is in service, and its links.
    fn into_parts(self) -> (bool, Links<'a, K::Use>)
        ensures serving { result.0 ≡ is_serving self.entry }
        ensures links { result.1 ≡ links_of self.entry }
    {
        match self {
            Net::Laid(Laying { links, .. }) => (false, links),
            Net::Serving(Service { links, .. }) => (true, links),
        }
    }
}

// The calls in order; the answers have room for theirs.
fn run<'a, K: Kind>(
    mut net: Net<'a, K>,
    book: &mut Book,
    labels: &mut [Label<K::State>],
    calls: &[Call<K, K::Use>],
    answers: &mut Vec<Result<Answer, Refusal>>,
) -> Net<'a, K>
    requires none { answers.old.items ≡ [] }
    requires empty { vec_len answers.old ≡ 0 }
    requires enough { length calls.now ≤ vec_capacity answers.old }
    ensures ran { (site : Site) → Matches {K = K} site begun (is_serving net.entry) (nodes_of net.entry) (links_of net.entry) book.old.streams → site.label_places ≡ length labels.old → Sofar K.Kind.model site calls.now result book.new.streams answers.new.items }
    ensures room { length labels.new ≡ length labels.old }
    ensures labels { (site : Site) → Matches {K = K} site begun (is_serving net.entry) (nodes_of net.entry) (links_of net.entry) book.old.streams → site.label_places ≡ length labels.old → labels.new ≡ labels_after K.Kind.model site begun calls.now labels.old }
{
    for call in calls {
        let (next, answer) = step(net, book, labels, call);
        net = next;
        answers.push_reserved(answer);
    }
    net
}

// Performs the calls, in order, on a net and a book made new together. The labels are a place to work in. The only
// refusal is that there is no memory for the answers; no call is then performed.
pub fn perform<'a, 'b, K: Kind>(
    heap: Global,
    nodes: u16,
    links: &'a mut [Link<K::Use>],
    streams: &'b mut [Stream],
    labels: &mut [Label<K::State>],
    calls: &[Call<K, K::Use>],
) -> Result<Shift<'a, 'b, K::Use>, AllocError>
    ensures ran { IfOk result (λ s. Ran K.Kind.model (site_of nodes (length links.old) (length streams.old) (length labels.old)) calls.now s.serving s.links s.streams s.answers.items) }
    ensures laws { LawsOfRun K.Kind.model (site_of nodes (length links.old) (length streams.old) (length labels.old)) calls.now }
    ensures chosen { ChosenInRun K.Kind.model (site_of nodes (length links.old) (length streams.old) (length labels.old)) calls.now }
    ensures room { length labels.new ≡ length labels.old }
    ensures labels { MatchResult result (λ _. labels.new ≡ labels_after K.Kind.model (site_of nodes (length links.old) (length streams.old) (length labels.old)) begun calls.now labels.old) (λ _. labels.new ≡ labels.old) }
{
    let mut answers = Vec::with_capacity(heap, calls.len())?;
    let mut book = Book::new(streams);
    let net = run(
        Net::Laid(Laying::new(nodes, links)),
        &mut book,
        labels,
        calls,
        &mut answers,
    );
    let Book { streams } = book;
    let (serving, links) = net.into_parts();
    Ok(Shift {
        serving,
        links,
        streams,
        answers,
    })
}
