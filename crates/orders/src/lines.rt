// The lines of a site whose net exists, read into calls and refusals.
ghost use Rattle.std.specs.Prelude.{◌≡◌, ◌+◌, false, [], ◌∷◌, ◌++◌, map, IfOk, OnOk};
ghost use Rattle.reader.specs.Steps.{lines_left, line_number};
ghost use Rattle.forms.specs.Faults.{read_as};
ghost use Rattle.orders.specs.Passes.{entry_of, refusal_in, serving_by, call_in, reads, calls_in, entries};

use forms::{LineFault, SiteKind, read_line};
use net::Call;
use reader::Reader;
use std::alloc::{AllocError, Global};

// A line that was read: its number, and why it is refused; a line that is not makes the next call.
#[derive(Drop)]
pub struct Line {
    pub number: usize,
    pub refusal: Option<LineFault>,
}

// What the lines of a site ask. The calls lie apart from the lines, since they are performed as one slice.
#[derive(Drop)]
pub struct Orders<K: Copy, U: Copy> {
    pub calls: Vec<Call<K, U>>,
    pub lines: Vec<Line>,
}

// Whether the net is in service after a line: a bool, as a run of calls and its ledger have it.
fn state_by<K: Copy, U: Copy>(read: &Result<Call<K, U>, LineFault>, serving: bool) -> bool
    ensures { result ≡ serving_by (read_as read.now) serving }
{
    match read {
        Ok(Call::Open) => true,
        Ok(Call::Close) => false,
        _ => serving,
    }
}

impl<K: Copy, U: Copy> Orders<K, U> {
    fn new(heap: Global) -> Orders<K, U>
        ensures calls { result.calls.items ≡ [] }
        ensures lines { result.lines.items ≡ [] }
    {
        Orders {
            calls: Vec::new(heap),
            lines: Vec::new(heap),
        }
    }

    // One line more.
    fn note(&mut self, number: usize, read: Result<Call<K, U>, LineFault>) -> Result<(), AllocError>
        ensures calls { OnOk result (self.new.calls.items ≡ self.old.calls.items ++ call_in (read_as read)) }
        ensures lines { OnOk result (map entry_of self.new.lines.items ≡ map entry_of self.old.lines.items ++ (number, refusal_in (read_as read)) ∷ []) }
    {
        // A call goes to the calls, and only a refusal stays with its line.
        let refusal = match read {
            Ok(call) => {
                self.calls.push(call)?;
                None
            }
            Err(fault) => Some(fault),
        };
        self.lines.push(Line { number, refusal })?;
        Ok(())
    }
}

// What the lines ask that are left.
pub fn read_orders<K: SiteKind>(
    heap: Global,
    reader: &mut Reader<'_>,
) -> Result<Orders<K, K::Use>, AllocError>
    ensures calls { IfOk result (λ o. o.calls.items ≡ calls_in (reads K.SiteKind.form false (lines_left reader.old))) }
    ensures lines { IfOk result (λ o. map entry_of o.lines.items ≡ entries (line_number reader.old + 1) (reads K.SiteKind.form false (lines_left reader.old))) }
{
    let mut orders = Orders::new(heap);
    let mut serving = false;
    while let Some(number) = reader.next_line() {
        let read = read_line::<K>(reader, serving);
        serving = state_by(&read, serving);
        orders.note(number, read)?;
    }
    Ok(orders)
}
