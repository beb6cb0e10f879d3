// Reads the lines and fields of a text that is lent: each field is a part of the text.
#![tactic(auto)]

ghost use Rattle.std.specs.Prelude.{◌≤◌, length};

mod cut;
mod field;
mod line;
mod numbers;
mod steps;
#[cfg(test)]
mod tests;

pub use field::{Field, same};
pub use numbers::NumbersFault;

#[derive(Debug, Drop)]
pub struct Reader<'a> {
    text: &'a [u8],
    // Where the next line begins.
    place: usize,
    // What is left of the current line, while a field is.
    line: Option<&'a [u8]>,
    number: usize,
    ghost within: { place ≤ length text.now },
    ghost counted: { number ≤ place },
}
