// A field of a line, and what its bytes are read as.
ghost use Rattle.std.specs.Prelude.{◌≡◌, ◌-◌, ◌≤◌, length, if◌then◌else◌, Some, None};
ghost use Rattle.std.specs.Char.{is_ascii_digit, is_ascii_lowercase};
ghost use Rattle.std.specs.List.{list_all};
ghost use Rattle.std.specs.Str.{bytes_eq};
ghost use Rattle.reader.specs.Reading.{decimal_of, is_word, number_of, reading, meaning, bytes_of};

#[derive(Clone, Copy, Debug, PartialEq, Eq)]
pub enum Field<'a> {
    Word(&'a [u8]),
    Number { digits: &'a [u8], value: u32 },
    Bad(&'a [u8]),
}

impl<'a> Field<'a> {
    pub(crate) fn read(bytes: &'a [u8]) -> Field<'a>
        ensures bytes { bytes_of result ≡ bytes.now }
        ensures reads { meaning result ≡ reading bytes.now }
    {
        if is_word(bytes) {
            return Field::Word(bytes);
        }
        match number(bytes) {
            Some(value) => Field::Number {
                digits: bytes,
                value,
            },
            None => Field::Bad(bytes),
        }
    }

    pub fn bytes(self) -> &'a [u8]
        ensures value { result.now ≡ bytes_of self.entry }
    {
        match self {
            Field::Word(bytes) | Field::Number { digits: bytes, .. } | Field::Bad(bytes) => bytes,
        }
    }
}

// Whether a text is the word. A `match` compares with words that it names; this is for a word that the caller holds, and
// stays because it is public.
pub fn same(text: &[u8], word: &[u8]) -> bool
    ensures { result ≡ bytes_eq text.now word.now }
{
    text == word
}

fn are_letters(bytes: &[u8]) -> bool
    ensures { result ≡ list_all is_ascii_lowercase bytes.now }
{
    bytes.iter().all(|b| b.is_ascii_lowercase())
}

fn is_word(bytes: &[u8]) -> bool
    ensures { result ≡ is_word bytes.now }
{
    !bytes.is_empty() && are_letters(bytes)
}

// The value of a digit.
fn digit(byte: u8) -> Option<u64>
    ensures { result ≡ (if is_ascii_digit byte then Some (byte - 48) else None) }
{
    if byte.is_ascii_digit() {
        Some(u64::from(byte - b'0'))
    } else {
        None
    }
}

// The value of at most ten digits. They are gone over once: a text for `parse` would have to be tested first.
fn decimal(bytes: &[u8]) -> Option<u64>
    ensures { length bytes.now ≤ 10 → result ≡ decimal_of bytes.now }
{
    bytes.iter().fold(Some(0_u64), |value, b| {
        Some(value?.wrapping_mul(10).wrapping_add(digit(*b)?))
    })
}

// The value of one to ten digits that fits 32 bits.
fn number(bytes: &[u8]) -> Option<u32>
    ensures { result ≡ number_of bytes.now }
{
    if bytes.is_empty() || bytes.len() > 10 {
        return None;
    }
    u32::try_from(decimal(bytes)?).ok()
}
