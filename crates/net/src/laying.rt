// The calls of a net being laid.
ghost use Rattle.std.specs.Prelude.{◌≡◌, []};
ghost use Rattle.slice_vec.specs.Tables.{Table, table};
ghost use Rattle.net.specs.Questions.{told, no_values, one_value, unless, node_count, check_refusal, ends_refusal};
ghost use Rattle.net.specs.Calls.{add_told, add_left, withdraw_told, withdraw_left};
ghost use Rattle.net.specs.Matching.{laid, served, Steps};
ghost use Rattle.net.specs.declared.types.Call.TheVariants.{Add, Withdraw, Open};
ghost use Rattle.net.specs.declared.types.Stream.{Stream};

use crate::types::{Laying, NetFault, Service};
use kinds::Kind;
use search::Link;
use slice_vec::SliceVec;

// Puts the questions on a link's ends.
fn check_ends<U: Copy>(nodes: u16, link: &Link<U>) -> Result<(), NetFault>
    ensures { told no_values result ≡ unless (ends_refusal nodes link.now) [] }
{
    if link.tail >= nodes {
        return Err(NetFault::Tail);
    }
    if link.head >= nodes {
        return Err(NetFault::Head);
    }
    if link.tail == link.head {
        return Err(NetFault::LinkEnds);
    }
    Ok(())
}

impl<'a, K: Kind> Laying<'a, K> {
    // A net without links over a lent table; a node count outside 2 to 128 makes a net of no nodes.
    pub fn new(nodes: u16, links: &'a mut [Link<K::Use>]) -> Laying<'a, K>
        ensures nodes { result.nodes ≡ node_count nodes }
        ensures table { result.links ≡ table 0 links.old }
    {
        let nodes = if nodes >= 2 && nodes <= 128 { nodes } else { 0 };
        Laying {
            nodes,
            links: SliceVec::new(links),
        }
    }

    pub fn check(&self) -> Result<(), NetFault>
        ensures { told no_values result ≡ unless (check_refusal self.now.nodes) [] }
    {
        if self.nodes < 2 || self.nodes > 128 {
            return Err(NetFault::NodeCount);
        }
        Ok(())
    }

    // Adds a link and gives its number.
    pub fn add(&mut self, link: Link<K::Use>) -> Result<u16, NetFault>
        ensures answer { told one_value result ≡ add_told self.old.nodes self.old.links link }
        ensures left { self.new.links ≡ add_left self.old.nodes self.old.links link }
        ensures nodes { self.new.nodes ≡ self.old.nodes }
        ensures ledger { (b : Table Stream) → Steps K.Kind.model (Add link) (told one_value result) (laid self.old.nodes self.old.links b) (laid self.new.nodes self.new.links b) }
    {
        check_ends(self.nodes, &link)?;
        let number = self.links.push(link).ok_or(NetFault::LinksFull)?;
        // It is below 512, which is proved; a `try_from` would add a fault that cannot be.
        Ok(number as u16)
    }

    // Takes a link out; each later one moves down a place.
    pub fn withdraw(&mut self, link: u16) -> Result<(), NetFault>
        ensures answer { told no_values result ≡ withdraw_told self.old.links link }
        ensures left { self.new.links ≡ withdraw_left self.old.links link }
        ensures nodes { self.new.nodes ≡ self.old.nodes }
        ensures ledger { (b : Table Stream) → Steps K.Kind.model (Withdraw link) (told no_values result) (laid self.old.nodes self.old.links b) (laid self.new.nodes self.new.links b) }
    {
        self.links
            .pop_at(usize::from(link))
            .ok_or(NetFault::NoLink)?;
        Ok(())
    }

    pub fn open(self) -> Service<'a, K>
        ensures nodes { result.nodes ≡ self.entry.nodes }
        ensures table { result.links ≡ self.entry.links }
        ensures ledger { (b : Table Stream) → Steps K.Kind.model Open (0, []) (laid self.entry.nodes self.entry.links b) (served result.nodes result.links b) }
    {
        let Laying { nodes, links } = self;
        Service { nodes, links }
    }
}
