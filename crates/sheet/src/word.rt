// The words that a line can begin with.
ghost use Rattle.std.specs.Prelude.{◌≡◌};
ghost use Rattle.sheet.specs.Words.{word_of};

#[derive(Clone, Copy)]
pub enum Word {
    Budget,
    Gated,
    Link,
}

impl Word {
    pub fn read(text: &[u8]) -> Option<Word>
        ensures { result ≡ word_of text.now }
    {
        match text {
            b"budget" => Some(Word::Budget),
            b"gated" => Some(Word::Gated),
            b"link" => Some(Word::Link),
            _ => None,
        }
    }
}
