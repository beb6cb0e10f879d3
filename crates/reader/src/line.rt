// The current line: its number, and its fields one after the other.
ghost use Rattle.std.specs.Prelude.{◌≡◌};
ghost use Rattle.reader.specs.Split.{first_of, after_first};
ghost use Rattle.reader.specs.Steps.{fields_left, line_number, SameLine, NextField};

use crate::cut::cut;
use crate::{Field, Reader};

impl<'a> Reader<'a> {
    // The number of the current line, counted from 1, and 0 before the first.
    pub fn line_number(&self) -> usize
        ensures { result ≡ line_number self.now }
    {
        self.number
    }

    // The next field of the current line.
    pub fn next_field(&mut self) -> Option<Field<'a>>
        ensures step { NextField self.old result self.new }
    {
        let (field, rest) = cut(self.line?, b',');
        self.line = rest;
        Some(Field::read(field))
    }

    // The bytes of the next field; none where no field is left.
    pub fn next_bytes(&mut self) -> &'a [u8]
        ensures value { result.now ≡ first_of (fields_left self.old) }
        ensures rest { fields_left self.new ≡ after_first (fields_left self.old) }
        ensures line { SameLine self.old self.new }
    {
        self.next_field().map_or(b"", Field::bytes)
    }
}
