// The call that a line makes on a site whose net exists.
ghost use Rattle.std.specs.Prelude.{◌≡◌};
ghost use Rattle.reader.specs.Steps.{SameLine, fields_left};
ghost use Rattle.forms.specs.Faults.{read_as};
ghost use Rattle.forms.specs.Forms.{call_of, line_call};
ghost use Rattle.forms.specs.declared.order.Order.TheVariants.{Lay, Serve};

use crate::fault::LineFault;
use crate::fields::{nothing, number};
use crate::order::{LayOrder, Order, ServeOrder, first_order};
use crate::site::SiteKind;
use net::Call;
use reader::Reader;

// How many labels a booking may make.
pub const LABEL_PLACES: usize = 512;

// The call of an order on a net that is being laid, from the fields after it.
fn read_laying<K: SiteKind>(
    reader: &mut Reader<'_>,
    order: LayOrder,
) -> Result<Call<K, K::Use>, LineFault>
    ensures told { read_as result ≡ call_of K.SiteKind.form (Lay order) (fields_left reader.old) }
    ensures line { SameLine reader.old reader.new }
{
    match order {
        LayOrder::Link => Ok(Call::Add(K::read_link(reader)?)),
        LayOrder::Withdraw => Ok(Call::Withdraw(number(reader)?)),
        LayOrder::Open => {
            nothing(reader)?;
            Ok(Call::Open)
        }
    }
}

// The call of an order on a net in service, from the fields after it.
fn read_serving<K: SiteKind>(
    reader: &mut Reader<'_>,
    order: ServeOrder,
) -> Result<Call<K, K::Use>, LineFault>
    ensures told { read_as result ≡ call_of K.SiteKind.form (Serve order) (fields_left reader.old) }
    ensures line { SameLine reader.old reader.new }
{
    match order {
        ServeOrder::Book => {
            let (request, kind) = K::read_booking(reader)?;
            Ok(Call::Book {
                request,
                kind,
                places: LABEL_PLACES,
            })
        }
        ServeOrder::Release => Ok(Call::Release(number(reader)?)),
        ServeOrder::Show => Ok(Call::Show(number(reader)?)),
        ServeOrder::Load => Ok(Call::Load(number(reader)?)),
        ServeOrder::Close => {
            nothing(reader)?;
            Ok(Call::Close)
        }
    }
}

// What a line asks of a net that is in service or being laid. The state is a bool, as a run of calls and its ledger have it.
pub fn read_line<K: SiteKind>(
    reader: &mut Reader<'_>,
    serving: bool,
) -> Result<Call<K, K::Use>, LineFault>
    ensures told { read_as result ≡ line_call K.SiteKind.form serving (fields_left reader.old) }
    ensures line { SameLine reader.old reader.new }
{
    match first_order(reader)? {
        Order::Lay(order) if !serving => read_laying(reader, order),
        Order::Serve(order) if serving => read_serving(reader, order),
        _ => Err(LineFault::NotAllowed),
    }
}
