// Texts that are read to their end, and fields at the edges of the rules.
use crate::{Field, NumbersFault, Reader};

fn first(text: &[u8]) -> Option<Field<'_>> {
    let mut reader = Reader::new(text);
    reader.next_line()?;
    reader.next_field()
}

// The first line as two numbers, of at most 9 and 99.
fn two(text: &[u8]) -> Result<[u32; 2], NumbersFault> {
    let mut reader = Reader::new(text);
    let _ = reader.next_line();
    reader.next_numbers([9, 99])
}

#[test]
fn numbers_of_a_line(rt: HostRuntime) {
    assert_eq!(rt; two(b"9,99\n1"), Ok([9, 99]));
    assert_eq!(rt; two(b"ten"), Err(NumbersFault::Missing(1)));
    assert_eq!(rt; two(b"10,x,1"), Err(NumbersFault::Surplus));
    assert_eq!(rt; two(b"10,x"), Err(NumbersFault::Bad(0)));
    assert_eq!(rt; two(b"9,100"), Err(NumbersFault::Bad(1)));
}

#[test]
fn numbers_and_words(rt: HostRuntime) {
    let numbers: [(&[u8], u32); 3] = [
        (b"65536", 65_536),
        (b"0000000042", 42),
        (b"4294967295", u32::MAX),
    ];
    for (digits, value) in numbers {
        assert_eq!(rt; first(digits), Some(Field::Number { digits, value }));
    }
    assert_eq!(rt; first(b"az"), Some(Field::Word(b"az")));
}

#[test]
fn bad_fields(rt: HostRuntime) {
    let bad: [&[u8]; 6] = [
        b"4294967296",
        b"00000000042",
        b"a1",
        b"aZ",
        b"\xc3\xa9",
        b"\0",
    ];
    for text in bad {
        assert_eq!(rt; first(text), Some(Field::Bad(text)));
    }
}

#[test]
fn no_lines(rt: HostRuntime) {
    let mut reader = Reader::new(b"");
    assert_eq!(rt; reader.next_field(), None);
    assert_eq!(rt; reader.next_line(), None);
}

#[test]
fn one_line_feed(rt: HostRuntime) {
    let mut reader = Reader::new(b"\n");
    assert_eq!(rt; reader.next_line(), Some(1));
    assert_eq!(rt; reader.next_field(), Some(Field::Bad(b"")));
    assert_eq!(rt; reader.next_field(), None);
    assert_eq!(rt; reader.next_line(), None);
}

#[test]
fn last_line_open(rt: HostRuntime) {
    let mut reader = Reader::new(b"a,b\nc\r\nd,");
    assert_eq!(rt; reader.next_line(), Some(1));
    assert_eq!(rt; reader.next_line(), Some(2));
    assert_eq!(rt; reader.next_field(), Some(Field::Bad(b"c\r")));
    assert_eq!(rt; reader.next_line(), Some(3));
    assert_eq!(rt; reader.next_field(), Some(Field::Word(b"d")));
    assert_eq!(rt; reader.next_field(), Some(Field::Bad(b"")));
    assert_eq!(rt; reader.next_field(), None);
    assert_eq!(rt; reader.next_line(), None);
}
