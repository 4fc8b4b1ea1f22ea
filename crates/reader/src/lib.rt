// A reader of the project's records: the kinds, the words and a position. Document 01, 'A reader of the project holds the kinds and the
// words'. It is the way to walk the records one by one: `new` stands at the first, `next` at the one after, and past the last of the
// `count` records it stays; `records::first_bad_from` walks so. Any kinds and words are taken: where one slice is longer, its rest is no
// record.
#![tactic(auto)]

ghost use Rattle.std.specs.Prelude.{◌≡◌, get_or};
ghost use Rattle.reader.specs.Move.{count, moved};

// The lent kinds and words, and the number of the record that the reader stands at.
// Kept: document 01 asks for a place that can be read again, so it is no `Iterator`, and `next` leaves it as it was.
#[derive(Clone, Copy)]
pub struct Reader<'a> {
    pub kinds: &'a [u8],
    pub words: &'a [u64],
    pub at: usize,
}

impl<'a> Reader<'a> {
    // A reader at the first record.
    pub fn new(kinds: &'a [u8], words: &'a [u64]) -> Reader<'a>
        ensures kinds { result.kinds ≡ kinds.entry }
        ensures words { result.words ≡ words.entry }
        ensures first { result.at ≡ 0 }
    {
        Reader {
            kinds,
            words,
            at: 0,
        }
    }

    // The kind of the record that the reader stands at, and 0 past the last kind.
    // Kept: no option, here and of the word, since each promises the number past the last record too.
    pub fn kind(self) -> u8
        ensures { result ≡ get_or self.entry.kinds.now self.entry.at 0 }
    {
        self.kinds.get(self.at).copied().unwrap_or(0)
    }

    // The word of the record that the reader stands at, and 0 past the last word.
    pub fn word(self) -> u64
        ensures { result ≡ get_or self.entry.words.now self.entry.at 0 }
    {
        self.words.get(self.at).copied().unwrap_or(0)
    }

    // How many records there are: where one slice is longer, its rest is no record.
    pub fn count(self) -> usize
        ensures { result ≡ count self.entry }
    {
        self.kinds.len().min(self.words.len())
    }

    // The reader at the next record.
    pub fn next(self) -> Reader<'a>
        ensures { result ≡ moved self.entry }
    {
        if self.at < self.count() {
            return Reader {
                at: self.at + 1,
                ..self
            };
        }
        self
    }
}
