// The two kinds of site: what the lines of each tell of a link and of a booking.
ghost use Rattle.std.specs.Prelude.{◌≡◌, ◌≤◌, slice_index};
ghost use Rattle.reader.specs.Steps.{SameLine, fields_left};
ghost use Rattle.forms.specs.Faults.{read_as};
ghost use Rattle.forms.specs.Forms.{Form, plain_form, gated_form, link_line, booking_line};
ghost use Rattle.forms.specs.Values.{budget_use, clock_use, clock_of, budget_of, linked, request_of};

use crate::fault::LineFault;
use crate::fields::{TOP16, TOP32, numbers};
use kinds::{Budget, BudgetUse, Clock, ClockUse, DuctUse, Ducts, Kind, Pair, PairUse};
use net::Request;
use reader::Reader;
use search::Link;

// A kind of limit whose links and bookings stand in order files.
pub trait SiteKind: Kind {
    ghost form: { Form Self Self.Use };

    fn read_link(reader: &mut Reader<'_>) -> Result<Link<Self::Use>, LineFault>
        ensures told { read_as result ≡ link_line form (fields_left reader.old) }
        ensures line { SameLine reader.old reader.new };

    fn read_booking(reader: &mut Reader<'_>) -> Result<(Request, Self), LineFault>
        ensures told { read_as result ≡ booking_line form (fields_left reader.old) }
        ensures line { SameLine reader.old reader.new };

    // Values that fill a table before it is used. A method, since `Default` for kinds and uses would ask more of them.
    fn blank() -> (Self, Self::Use);
}

// The casts below lose nothing, which is proved; a `try_from` would add a fault that no line can have. Each bound is a
// `requires` of what is made of the number, as it is a fact of one number and of no type.
fn budget_use(nominal: u32, extra: u32) -> BudgetUse
    requires nominal { nominal ≤ 65535 }
    requires extra { extra ≤ 65535 }
    ensures { result ≡ budget_use nominal extra }
{
    BudgetUse {
        nominal: nominal as u16,
        extra: extra as u16,
    }
}

fn clock_use(travel: u32, opens: u32, closes: u32) -> ClockUse
    requires travel { travel ≤ 65535 }
    requires opens { opens ≤ 65535 }
    requires closes { closes ≤ 65535 }
    ensures { result ≡ clock_use travel opens closes }
{
    ClockUse {
        travel: travel as u16,
        opens: opens as u16,
        closes: closes as u16,
    }
}

fn clock(start: u32) -> Clock
    requires { start ≤ 65535 }
    ensures { result ≡ clock_of start }
{
    Clock {
        start: start as u16,
    }
}

fn budget(allowance: u32, limit: u32) -> Result<Budget, LineFault>
    requires { allowance ≤ 65535 }
    ensures { read_as result ≡ budget_of allowance limit }
{
    Ok(Budget::new(allowance as u16, limit)?)
}

// What a booking asks on every site.
fn request<const N: usize>(found: [u32; N]) -> Request
    requires wide { 5 ≤ N }
    requires stream { slice_index found 0 ≤ 65535 }
    requires source { slice_index found 1 ≤ 65535 }
    requires target { slice_index found 2 ≤ 65535 }
    requires hop_limit { slice_index found 4 ≤ 65535 }
    ensures { result ≡ request_of found.entry }
{
    Request {
        stream: found[0] as u16,
        source: found[1] as u16,
        target: found[2] as u16,
        rate: found[3],
        hop_limit: found[4] as u16,
    }
}

// What a link is told on every site, and what it takes on this one.
fn link<U: Copy, const N: usize>(found: [u32; N], taken: U) -> Link<U>
    requires wide { 3 ≤ N }
    requires tail { slice_index found 0 ≤ 65535 }
    requires head { slice_index found 1 ≤ 65535 }
    ensures { result ≡ linked found.entry taken }
{
    Link {
        tail: found[0] as u16,
        head: found[1] as u16,
        capacity: found[2],
        taken,
    }
}

// The two sites tell different fields, and no const argument can be the sum of two: what a pair tells is not made of what its
// parts tell. What both tell is `link`, `request` and `budget`.
impl SiteKind for Pair<Budget, Budget> {
    ghost form = { plain_form };

    fn read_link(
        reader: &mut Reader<'_>,
    ) -> Result<Link<PairUse<BudgetUse, BudgetUse>>, LineFault> {
        let found = numbers(reader, [TOP16, TOP16, TOP32, TOP16, TOP16, TOP16, TOP16])?;
        let [.., price, price_extra, delay, delay_extra] = found;
        let taken = PairUse {
            first: budget_use(price, price_extra),
            second: budget_use(delay, delay_extra),
        };
        Ok(link(found, taken))
    }

    fn read_booking(reader: &mut Reader<'_>) -> Result<(Request, Pair<Budget, Budget>), LineFault> {
        let found = numbers(
            reader,
            [TOP16, TOP16, TOP16, TOP32, TOP16, TOP16, TOP16, TOP32],
        )?;
        let [.., price_allowance, delay_allowance, delay_limit] = found;
        let first = budget(price_allowance, TOP32)?;
        let second = budget(delay_allowance, delay_limit)?;
        let kind = Pair { first, second };
        Ok((request(found), kind))
    }

    fn blank() -> (Pair<Budget, Budget>, PairUse<BudgetUse, BudgetUse>) {
        let unlimited = Budget {
            allowance: 0,
            limit: TOP32,
        };
        let free = budget_use(0, 0);
        (
            Pair {
                first: unlimited,
                second: unlimited,
            },
            PairUse {
                first: free,
                second: free,
            },
        )
    }
}

impl SiteKind for Pair<Budget, Pair<Clock, Ducts>> {
    ghost form = { gated_form };

    fn read_link(
        reader: &mut Reader<'_>,
    ) -> Result<Link<PairUse<BudgetUse, PairUse<ClockUse, DuctUse>>>, LineFault> {
        let found = numbers(
            reader,
            [
                TOP16, TOP16, TOP32, TOP16, TOP16, TOP16, TOP16, TOP16, TOP16,
            ],
        )?;
        let [.., price, price_extra, travel, opens, closes, duct] = found;
        let taken = PairUse {
            first: budget_use(price, price_extra),
            second: PairUse {
                first: clock_use(travel, opens, closes),
                second: DuctUse { duct: duct as u16 },
            },
        };
        Ok(link(found, taken))
    }

    fn read_booking(
        reader: &mut Reader<'_>,
    ) -> Result<(Request, Pair<Budget, Pair<Clock, Ducts>>), LineFault> {
        let found = numbers(reader, [TOP16, TOP16, TOP16, TOP32, TOP16, TOP16, TOP16])?;
        let [.., price_allowance, start] = found;
        let kind = Pair {
            first: budget(price_allowance, TOP32)?,
            second: Pair {
                first: clock(start),
                second: Ducts {},
            },
        };
        Ok((request(found), kind))
    }

    fn blank() -> (
        Pair<Budget, Pair<Clock, Ducts>>,
        PairUse<BudgetUse, PairUse<ClockUse, DuctUse>>,
    ) {
        (
            Pair {
                first: Budget {
                    allowance: 0,
                    limit: TOP32,
                },
                second: Pair {
                    first: clock(0),
                    second: Ducts {},
                },
            },
            PairUse {
                first: budget_use(0, 0),
                second: PairUse {
                    first: clock_use(0, 0, 0),
                    second: DuctUse { duct: 0 },
                },
            },
        )
    }
}
