// A lent text that is written from the front on.
ghost use Rattle.std.specs.Prelude.{◌≡◌, ◌++◌};
ghost use Rattle.listing.specs.Text.{decimal, line_feed};

use crate::LISTING_ROOM;
use itoa::Buffer;

// The text, and how much of it is written.
#[derive(Drop)]
pub(crate) struct Writer<'a> {
    text: &'a mut [u8; LISTING_ROOM],
    len: usize,
}

impl<'a> Writer<'a> {
    ghost use Rattle.listing.specs.Writer.{HasRoom, Writes};

    pub(crate) fn new(text: &'a mut [u8; LISTING_ROOM]) -> Writer<'a>
        ensures same_reference { result.text.ghost_name ≡ text.entry.ghost_name }
        ensures unchanged { result.text.now ≡ text.old }
        ensures empty { result.len ≡ 0 }
    {
        Writer { text, len: 0 }
    }

    // Ends the writing, and answers how much of the text is written.
    pub(crate) fn finish(self) -> usize
        ensures written { self.exit.0.now ≡ self.entry.text.now }
        ensures len { result ≡ self.entry.len }
    {
        self.len
    }

    fn put(&mut self, word: &[u8])
        requires { HasRoom self.old word.now }
        ensures { Writes self.old word.now self.new }
    {
        let end = self.len + word.len();
        // Lent whole first: no proof is made of a part of what a field points to.
        let text = &mut *self.text;
        text[self.len..end].copy_from_slice(word);
        self.len = end;
    }

    // A word, and a number in decimal after it.
    pub(crate) fn put_number(&mut self, word: &[u8], n: usize)
        requires { HasRoom self.old (word.now ++ decimal n) }
        ensures { Writes self.old (word.now ++ decimal n) self.new }
    {
        self.put(word);
        let mut digits = Buffer::new();
        self.put(digits.format(n).as_bytes());
    }

    // The same as a line.
    #[tactic(auto, unfolding(crate::specs::Text::line_feed, crate::specs::Text::ascii))]
    pub(crate) fn put_line(&mut self, word: &[u8], n: usize)
        requires { HasRoom self.old (word.now ++ decimal n ++ line_feed) }
        ensures { Writes self.old (word.now ++ decimal n ++ line_feed) self.new }
    {
        self.put_number(word, n);
        self.put(b"\n");
    }
}
