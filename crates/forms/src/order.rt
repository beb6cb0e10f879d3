// The word that a line begins with.
ghost use Rattle.std.specs.Prelude.{◌≡◌};
ghost use Rattle.reader.specs.Split.{first_of, after_first};
ghost use Rattle.reader.specs.Steps.{SameLine, fields_left};
ghost use Rattle.forms.specs.Faults.{read_as};
ghost use Rattle.forms.specs.Orders.{order_of};

use crate::fault::LineFault;
use reader::Reader;

// The orders of a net that is being laid.
#[derive(Clone, Copy, Debug, PartialEq, Eq)]
pub enum LayOrder {
    Link,
    Withdraw,
    Open,
}

// The orders of a net in service.
#[derive(Clone, Copy, Debug, PartialEq, Eq)]
pub enum ServeOrder {
    Book,
    Release,
    Show,
    Load,
    Close,
}

#[derive(Clone, Copy, Debug, PartialEq, Eq)]
pub enum Order {
    Net,
    Lay(LayOrder),
    Serve(ServeOrder),
}

impl TryFrom<&[u8]> for Order {
    type Error = LineFault;

    ghost try_from_gives = { λ word r. read_as r ≡ order_of word.now };

    fn try_from(word: &[u8]) -> Result<Order, LineFault> {
        match word {
            b"net" => Ok(Order::Net),
            b"link" => Ok(Order::Lay(LayOrder::Link)),
            b"withdraw" => Ok(Order::Lay(LayOrder::Withdraw)),
            b"open" => Ok(Order::Lay(LayOrder::Open)),
            b"book" => Ok(Order::Serve(ServeOrder::Book)),
            b"release" => Ok(Order::Serve(ServeOrder::Release)),
            b"show" => Ok(Order::Serve(ServeOrder::Show)),
            b"load" => Ok(Order::Serve(ServeOrder::Load)),
            b"close" => Ok(Order::Serve(ServeOrder::Close)),
            _ => Err(LineFault::UnknownOrder),
        }
    }
}

pub fn first_order(reader: &mut Reader<'_>) -> Result<Order, LineFault>
    ensures value { read_as result ≡ order_of (first_of (fields_left reader.old)) }
    ensures rest { fields_left reader.new ≡ after_first (fields_left reader.old) }
    ensures line { SameLine reader.old reader.new }
{
    Order::try_from(reader.next_bytes())
}
