// Answer lines, written to a text: each function writes one kind of line whole, and says its bytes.
// The text and the line's number come from two places, and make no value of their own.
ghost use Rattle.std.specs.Prelude.{◌≡◌, [], ◌∷◌, ◌++◌, Some, take, string_bytes};
ghost use Rattle.net.specs.Performed.{told_of, values_of};
ghost use Rattle.forms.specs.Faults.{blame_of};
ghost use Rattle.orders.specs.Lines.{Written, listed, reply_line, accepted, refused};
ghost use Rattle.orders.specs.Runs.{reply_of};

use forms::LineFault;
use net::{Answer, Refusal};
use std::alloc::AllocError;
use std::fmt;

fn write_refusal(out: &mut String, line: usize, number: u16, field: usize) -> Result<(), AllocError>
    ensures { Written (string_bytes out.old) (reply_line line (refused number field) ++ 10 ∷ []) result (string_bytes out.new) }
{
    writeln!(out, "{line},refused,{number},{field}")
}

pub fn write_fault(out: &mut String, line: usize, fault: &LineFault) -> Result<(), AllocError>
    ensures { Written (string_bytes out.old) (reply_line line (refused (blame_of fault.now).0 (blame_of fault.now).1) ++ 10 ∷ []) result (string_bytes out.new) }
{
    write_refusal(out, line, fault.number(), fault.field())
}

// The answer to the order that made a net.
pub fn write_made(out: &mut String, line: usize) -> Result<(), AllocError>
    ensures { Written (string_bytes out.old) (reply_line line (accepted []) ++ 10 ∷ []) result (string_bytes out.new) }
{
    writeln!(out, "{line},ok")
}

// The links of a route, which lie at the start of the sixteen places that an answer has for them. A stream's record has its
// own `route`: one type for both would change two public formats.
fn route(links: &[u16; 16], hops: u16) -> &[u16]
    ensures { result.now ≡ take hops links.now }
{
    &links[0..usize::from(hops).min(16)]
}

// Numbers, each after a comma.
#[derive(Clone, Copy)]
struct Listed<'a>(&'a [u16]);

impl fmt::Display for Listed<'_> {
    ghost output = { λ l. Some (listed l.0.now) };

    fn fmt<W: fmt::Write>(&self, f: &mut fmt::Formatter<W>) -> fmt::Result {
        for number in self.0 {
            write!(f, ",{number}")?;
        }
        Ok(())
    }
}

// The values of an answer, each after a comma.
#[derive(Clone, Copy)]
struct Values<'a>(&'a Answer);

impl fmt::Display for Values<'_> {
    ghost output = { λ v. Some (listed (values_of v.0.now)) };

    fn fmt<W: fmt::Write>(&self, f: &mut fmt::Formatter<W>) -> fmt::Result {
        match self.0 {
            Answer::Added(number) => write!(f, ",{number}"),
            Answer::Booked(figure, hops, labels) => write!(f, ",{figure},{hops},{labels}"),
            Answer::Shown {
                figure,
                rate,
                hops,
                links,
            } => {
                let links = Listed(route(links, *hops));
                write!(f, ",{figure},{rate}{links}")
            }
            Answer::Loaded(load) => write!(f, ",{load}"),
            Answer::Ended(streams) => write!(f, ",{streams}"),
            Answer::Done => Ok(()),
        }
    }
}

fn write_accepted(out: &mut String, line: usize, answer: &Answer) -> Result<(), AllocError>
    ensures { Written (string_bytes out.old) (reply_line line (accepted (values_of answer.now)) ++ 10 ∷ []) result (string_bytes out.new) }
{
    let values = Values(answer);
    writeln!(out, "{line},ok{values}")
}

pub fn write_answer(
    out: &mut String,
    line: usize,
    answer: &Result<Answer, Refusal>,
) -> Result<(), AllocError>
    ensures { Written (string_bytes out.old) (reply_line line (reply_of (told_of answer.now)) ++ 10 ∷ []) result (string_bytes out.new) }
{
    match answer {
        Ok(answer) => write_accepted(out, line, answer),
        Err(refusal) => write_refusal(out, line, refusal.number(), 0),
    }
}
