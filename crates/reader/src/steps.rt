// Where a reader begins, and its step to the next line.
ghost use Rattle.std.specs.Prelude.{◌≡◌, []};
ghost use Rattle.reader.specs.Laws.{LinesLaw, FieldsLaw};
ghost use Rattle.reader.specs.Split.{lines};
ghost use Rattle.reader.specs.Steps.{lines_left, fields_left, line_number, NextLine};

use crate::Reader;
use crate::cut::ends;

impl<'a> Reader<'a> {
    #[tactic(auto, using(crate::proofs::Laws::lines_law, crate::proofs::Laws::fields_law))]
    pub fn new(text: &'a [u8]) -> Reader<'a>
        ensures lines { lines_left result ≡ lines text.now }
        ensures fields { fields_left result ≡ [] }
        ensures number { line_number result ≡ 0 }
        ensures lines_law { LinesLaw }
        ensures fields_law { FieldsLaw }
    {
        Reader {
            text,
            place: 0,
            line: None,
            number: 0,
        }
    }

    // The number of the next line, counted from 1. What is left of the current line is passed over.
    pub fn next_line(&mut self) -> Option<usize>
        ensures step { NextLine self.old result self.new }
    {
        if self.place >= self.text.len() {
            return None;
        }
        let (end, next) = ends(self.text, self.place, b'\n');
        self.line = Some(&self.text[self.place..end]);
        self.place = next;
        self.number += 1;
        Some(self.number)
    }
}
