// A net being laid, a net in service, the book, and what they answer.
ghost use Rattle.std.specs.Prelude.{◌≡◌};
ghost use Rattle.net.specs.declared.types.NetFault.TheVariants.{Search};
ghost use Rattle.net.specs.declared.types.Refusal.TheVariants.{Fault};

use kinds::Kind;
use search::{Link, SearchFault};
use slice_vec::SliceVec;

// The links of a net, in order of number: at most 512, in a lent table.
pub type Links<'a, U> = SliceVec<'a, Link<U>, 512>;

// The records of the standing streams, in order of booking: at most 64, in a lent table.
pub type Streams<'a> = SliceVec<'a, Stream, 64>;

// A net being laid: links may be added and withdrawn.
#[derive(Drop)]
pub struct Laying<'a, K: Kind> {
    pub(crate) nodes: u16,
    pub(crate) links: Links<'a, K::Use>,
}

// A net in service: streams may be booked and released. It has the fields of a net being laid, and is a type of its own,
// so that each takes only its own calls.
#[derive(Drop)]
pub struct Service<'a, K: Kind> {
    pub(crate) nodes: u16,
    pub(crate) links: Links<'a, K::Use>,
}

// A stream in the book: its number, rate, figure and hops, and the numbers of its links in order, unused places 0. Its
// sixteen places for links lie in it: the book's table is lent, and nothing is allocated.
#[derive(Clone, Copy)]
pub struct Stream {
    pub number: u16,
    pub rate: u32,
    pub figure: u32,
    pub hops: u16,
    pub links: [u16; 16],
}

// The standing streams.
#[derive(Drop)]
pub struct Book<'a> {
    pub(crate) streams: Streams<'a>,
}

// What a booking asks, beside the kind's values.
#[derive(Clone, Copy)]
pub struct Request {
    pub stream: u16,
    pub source: u16,
    pub target: u16,
    pub rate: u32,
    pub hop_limit: u16,
}

#[derive(Clone, Copy, Debug, PartialEq, Eq)]
pub enum NetFault {
    NodeCount,
    Tail,
    Head,
    LinkEnds,
    LinksFull,
    NoLink,
    StreamZero,
    StreamTaken,
    BookFull,
    Source,
    Target,
    StreamEnds,
    Rate,
    HopLimit,
    Search(SearchFault),
    NoStream,
    ListShort,
}

// The conversions are by hand: clauses name the fault that a `?` makes.
impl From<SearchFault> for NetFault {
    ghost from_gives = { λ f r. r ≡ Search f };

    fn from(fault: SearchFault) -> NetFault {
        NetFault::Search(fault)
    }
}

// A call on a net and its book. A booking says how many places of the label table it may use.
#[derive(Drop)]
pub enum Call<K: Copy, U: Copy> {
    Add(Link<U>),
    Withdraw(u16),
    Open,
    Book {
        request: Request,
        kind: K,
        places: usize,
    },
    Release(u16),
    Show(u16),
    Load(u16),
    Close,
}

// A net, being laid or in service.
#[derive(Drop)]
pub enum Net<'a, K: Kind> {
    Laid(Laying<'a, K>),
    Serving(Service<'a, K>),
}

// The answer to a call that was not refused. A shown route lies at the start of its sixteen places: what the answers
// take is reserved before the first call.
#[derive(Clone, Copy, Debug)]
pub enum Answer {
    Done,
    Added(u16),
    Booked(u32, u16, u64),
    Shown {
        figure: u32,
        rate: u32,
        hops: u16,
        links: [u16; 16],
    },
    Loaded(u64),
    Ended(usize),
}

// Why a call was refused.
#[derive(Clone, Copy, Debug, PartialEq, Eq)]
pub enum Refusal {
    Fault(NetFault),
    // The net's state does not take the call.
    NotTaken,
}

// By hand, as the one above.
impl From<NetFault> for Refusal {
    ghost from_gives = { λ f r. r ≡ Fault f };

    fn from(fault: NetFault) -> Refusal {
        Refusal::Fault(fault)
    }
}

// What a list of calls leaves: whether the net is in service, its links, the records of the book, and what the calls
// got, in order. The state is a flag, and no net stands here, so that a caller reads both lists
// and gets their tables back.
#[derive(Drop)]
pub struct Shift<'a, 'b, U: Copy> {
    pub serving: bool,
    pub links: Links<'a, U>,
    pub streams: Streams<'b>,
    pub answers: Vec<Result<Answer, Refusal>>,
}
