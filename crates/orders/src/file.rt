// An order file: its bytes to the bytes of its answers.
ghost use Rattle.std.specs.Prelude.{◌≡◌, ◌≤◌, length, IfOk, string_bytes, OnOk};
ghost use Rattle.reader.specs.Steps.{lines_left, line_number};
ghost use Rattle.orders.specs.Desk.{new_net};
ghost use Rattle.orders.specs.Files.{most, answers_of, LawsOfFile};
ghost use Rattle.orders.specs.Finds.{NetFound, Served};

use crate::fault::AnswerFault;
use crate::serve::serve;
use crate::write::{write_fault, write_made};
use forms::{NetOrder, SiteName, read_net};
use kinds::{Budget, Clock, Ducts, Pair};
use reader::Reader;
use std::alloc::{AllocError, Global};

// The most bytes that a file may have.
const MOST: usize = 60_000;

// Answers the lines up to the one that makes a net.
fn find_net(reader: &mut Reader<'_>, out: &mut String) -> Result<Option<NetOrder>, AllocError>
    ensures { IfOk result (λ net. NetFound (line_number reader.old) (lines_left reader.old) (string_bytes out.old) net (line_number reader.new) (lines_left reader.new) (string_bytes out.new)) }
{
    while let Some(line) = reader.next_line() {
        match read_net(reader) {
            Ok(net) => {
                write_made(out, line)?;
                return Ok(Some(net));
            }
            Err(fault) => write_fault(out, line, &fault)?,
        }
    }
    Ok(None)
}

// Answers the lines after the one that made the net.
fn serve_site(
    heap: Global,
    reader: &mut Reader<'_>,
    net: NetOrder,
    out: &mut String,
) -> Result<(), AllocError>
    ensures { OnOk result (Served (new_net net.site net.nodes) (line_number reader.old) (lines_left reader.old) (string_bytes out.old) (string_bytes out.new)) }
{
    match net.site {
        SiteName::Plain => serve::<Pair<Budget, Budget>>(heap, reader, net.nodes, out),
        SiteName::Gated => serve::<Pair<Budget, Pair<Clock, Ducts>>>(heap, reader, net.nodes, out),
    }
}

fn answer_lines(heap: Global, text: &[u8]) -> Result<String, AllocError>
    requires { length text.now ≤ most }
    ensures answers { IfOk result (λ out. string_bytes out ≡ answers_of text.now) }
    ensures laws { OnOk result (LawsOfFile text.now) }
{
    let mut out = String::new(heap);
    let mut reader = Reader::new(text);
    if let Some(net) = find_net(&mut reader, &mut out)? {
        serve_site(heap, &mut reader, net, &mut out)?;
    }
    Ok(out)
}

// The answers to an order file. The only fault is that there is no memory.
pub fn answer_file(heap: Global, text: &[u8]) -> Result<String, AnswerFault>
    ensures answers { IfOk result (λ out. string_bytes out ≡ answers_of text.now) }
    ensures laws { OnOk result (LawsOfFile text.now) }
{
    if text.len() <= MOST {
        Ok(answer_lines(heap, text)?)
    } else {
        Ok(String::from_str(heap, "0,refused,20,0\n")?)
    }
}
