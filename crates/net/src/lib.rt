// A net of links, the book of its streams, and the calls on both.
#![tactic(auto)]

mod fault;
mod laying;
mod service;
mod shift;
mod streams;
mod types;

pub use shift::perform;
pub use types::{
    Answer, Book, Call, Laying, Links, NetFault, Refusal, Request, Service, Shift, Stream, Streams,
};
