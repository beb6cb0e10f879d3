// The label search: the cheapest route within limits over the open links of a net.
#![tactic(auto)]

mod answer;
mod back;
mod best;
mod label;
mod labels;
mod query;
mod rounds;
mod route;

pub use answer::{Found, SearchFault};
pub use back::route_to;
pub use label::{Label, Link};
pub use query::Query;
pub use route::search;
