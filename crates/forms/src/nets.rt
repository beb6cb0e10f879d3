// The order that makes a net.
ghost use Rattle.std.specs.Prelude.{◌≡◌, ◌≤◌, [], IfOk, slice_index};
ghost use Rattle.reader.specs.Steps.{SameLine, fields_left};
ghost use Rattle.forms.specs.Faults.{read_as};
ghost use Rattle.forms.specs.Nets.{site_name, net_of, net_read, net_fields, net_line};

use crate::fault::LineFault;
use crate::fields::TOP16;
use crate::order::{Order, first_order};
use kinds::Budget;
use net::Laying;
use reader::{NumbersFault, Reader};

#[derive(Clone, Copy, Debug, PartialEq, Eq)]
pub enum SiteName {
    Plain,
    Gated,
}

// A net to be made: for what kind of site, and of how many nodes.
#[derive(Clone, Copy, Debug, PartialEq, Eq)]
pub struct NetOrder {
    pub site: SiteName,
    pub nodes: u16,
}

impl SiteName {
    fn of(word: &[u8]) -> Option<SiteName>
        ensures { result ≡ site_name word.now }
    {
        match word {
            b"plain" => Some(SiteName::Plain),
            b"gated" => Some(SiteName::Gated),
            _ => None,
        }
    }
}

// The net, if its node count passes the check, which asks nothing of the kind.
fn checked_net(site: SiteName, nodes: u16) -> Result<NetOrder, LineFault>
    ensures { read_as result ≡ net_of site nodes }
{
    Laying::<Budget>::new(nodes, &mut []).check()?;
    Ok(NetOrder { site, nodes })
}

// The faults in their order, which is one for name and count, so that no `map_err` on either tells it. The node count has 16
// bits, which is proved.
fn net_by(
    name: Option<SiteName>,
    nodes: Result<[u32; 1], NumbersFault>,
) -> Result<NetOrder, LineFault>
    requires { IfOk nodes (λ ns. slice_index ns 0 ≤ 65535) }
    ensures { read_as result ≡ net_read name nodes }
{
    match (name, nodes) {
        (_, Err(NumbersFault::Missing(_) | NumbersFault::Surplus)) => Err(LineFault::FieldCount),
        (None, _) => Err(LineFault::BadField(2)),
        (Some(_), Err(NumbersFault::Bad(_))) => Err(LineFault::BadField(3)),
        (Some(site), Ok(found)) => checked_net(site, found[0] as u16),
    }
}

fn read_net_fields(reader: &mut Reader<'_>) -> Result<NetOrder, LineFault>
    ensures told { read_as result ≡ net_fields (fields_left reader.old) }
    ensures line { SameLine reader.old reader.new }
{
    let name = SiteName::of(reader.next_bytes());
    net_by(name, reader.next_numbers([TOP16]))
}

// What a line asks while no net exists.
pub fn read_net(reader: &mut Reader<'_>) -> Result<NetOrder, LineFault>
    ensures told { read_as result ≡ net_line (fields_left reader.old) }
    ensures line { SameLine reader.old reader.new }
{
    match first_order(reader)? {
        Order::Net => read_net_fields(reader),
        Order::Lay(_) | Order::Serve(_) => Err(LineFault::NotAllowed),
    }
}
