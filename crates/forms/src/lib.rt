// The forms of order lines: what each line of an order file asks, or why it is refused.
#![tactic(auto)]

mod calls;
mod fault;
mod fields;
mod nets;
mod order;
mod site;

pub use calls::{LABEL_PLACES, read_line};
pub use fault::LineFault;
pub use nets::{NetOrder, SiteName, read_net};
pub use site::SiteKind;
