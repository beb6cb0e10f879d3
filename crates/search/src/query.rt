// What a search is asked.
use crate::label::Link;
use kinds::Kind;
use std::marker::Model;

// The links and their flags lie side by side: a flag is worked out once for each link, and a link is tried for each label.
// The kind's values, the links, a flag for each that says whether it is open, the two ends, and how many links a
// route may have.
#[derive(Drop)]
pub struct Query<'a, K: Kind> {
    pub kind: &'a K,
    pub links: &'a [Link<K::Use>],
    pub flags: &'a [bool],
    pub source: u16,
    pub target: u16,
    pub hop_limit: u16,
}

impl<'a, K: Kind> Model for Query<'a, K> {
    ghost use Rattle.search.specs.Rule.{Query as Asked, asked};

    ghost Value = { Asked K K.Use };

    ghost view = { λ q. asked q.kind.now q.links.now q.flags.now q.source q.target q.hop_limit };
}
