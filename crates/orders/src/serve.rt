// A site whose net exists: its lines to calls, the calls performed, their answers to lines.
ghost use Rattle.std.specs.Prelude.{◌≡◌, ◌+◌, [], map, IfOk, string_bytes, OnOk};
ghost use Rattle.std.specs.Slice.Iter.{iter_rest};
ghost use Rattle.net.specs.Laws.{PromiseOfRun};
ghost use Rattle.net.specs.Ledger.{answers, begun};
ghost use Rattle.net.specs.Performed.{told_of};
ghost use Rattle.reader.specs.Laws.{with_feeds};
ghost use Rattle.reader.specs.Steps.{lines_left, line_number};
ghost use Rattle.orders.specs.Desk.{supplied};
ghost use Rattle.orders.specs.Lines.{Written, numbered};
ghost use Rattle.orders.specs.Passes.{entry_of, entry_text, told_left, entry_texts};
ghost use Rattle.orders.specs.Runs.{site_replies, site_calls};

use crate::lines::{Line, read_orders};
use crate::write::{write_answer, write_fault};
use forms::{LABEL_PLACES, SiteKind};
use kinds::Kind;
use net::{Answer, Call, Refusal, Shift, Stream, perform};
use reader::Reader;
use search::{Label, Link};
use std::alloc::{AllocError, Global};
use std::slice::Iter;

const LINK_PLACES: usize = 512;

const STREAM_PLACES: usize = 64;

// Writes the answer to a line: a line that is not refused takes that to the next call.
fn write_line(
    out: &mut String,
    line: &Line,
    answers: &mut Iter<'_, Result<Answer, Refusal>>,
) -> Result<(), AllocError>
    ensures written { Written (string_bytes out.old) (entry_text (entry_of line.now) (map told_of (iter_rest answers.old))) result (string_bytes out.new) }
    ensures left { map told_of (iter_rest answers.new) ≡ told_left (entry_of line.now) (map told_of (iter_rest answers.old)) }
{
    if let Some(fault) = &line.refusal {
        return write_fault(out, line.number, fault);
    }
    match answers.next() {
        Some(answer) => write_answer(out, line.number, answer),
        None => Ok(()),
    }
}

// Writes the answers to the lines.
fn write_lines(
    out: &mut String,
    lines: &[Line],
    answers: &[Result<Answer, Refusal>],
) -> Result<(), AllocError>
    ensures { Written (string_bytes out.old) (entry_texts (map entry_of lines.now) (map told_of answers.now)) result (string_bytes out.new) }
{
    let mut answers = answers.iter();
    for line in lines {
        write_line(out, line, &mut answers)?;
    }
    Ok(())
}

// Performs the calls on the tables that every site has.
fn perform_all<K: SiteKind>(
    heap: Global,
    nodes: u16,
    calls: &[Call<K, K::Use>],
) -> Result<Vec<Result<Answer, Refusal>>, AllocError>
    ensures answered { IfOk result (λ v. map told_of v.items ≡ answers K.Kind.model (supplied nodes) begun calls.now) }
    ensures laws { OnOk result (PromiseOfRun K.Kind.model (supplied nodes) calls.now) }
{
    let (kind, taken) = K::blank();
    let link = Link {
        tail: 0,
        head: 0,
        capacity: 0,
        taken,
    };
    let stream = Stream {
        number: 0,
        rate: 0,
        figure: 0,
        hops: 0,
        links: [0; 16],
    };
    let label = Label {
        node: 0,
        hops: 0,
        state: kind.start(),
        from: 0,
        link: 0,
    };
    let mut links = vec![in heap; link; LINK_PLACES]?;
    let mut streams = vec![in heap; stream; STREAM_PLACES]?;
    let mut labels = vec![in heap; label; LABEL_PLACES]?;
    let Shift { answers, .. } = perform(heap, nodes, &mut links, &mut streams, &mut labels, calls)?;
    Ok(answers)
}

// Answers the lines that are left, on a net of so many nodes.
#[tactic(auto, using(crate::proofs::Sites::all_calls))]
pub fn serve<K: SiteKind>(
    heap: Global,
    reader: &mut Reader<'_>,
    nodes: u16,
    out: &mut String,
) -> Result<(), AllocError>
    ensures written { Written (string_bytes out.old) (with_feeds (numbered (line_number reader.old + 1) (site_replies K.Kind.model K.SiteKind.form (supplied nodes) [] (lines_left reader.old)))) result (string_bytes out.new) }
    ensures laws { OnOk result (PromiseOfRun K.Kind.model (supplied nodes) (site_calls K.Kind.model K.SiteKind.form (supplied nodes) [] (lines_left reader.old))) }
{
    let orders = read_orders::<K>(heap, reader)?;
    let answers = perform_all(heap, nodes, &orders.calls)?;
    write_lines(out, &orders.lines, &answers)
}
