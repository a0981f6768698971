ghost use Rattle.std.specs.Prelude.{◌≡◌, drop, not, is_some, is_ok, slice_get, IfOk};
ghost use Rattle.std.specs.Option.{option_copied, option_map};
ghost use Rattle.std.specs.Result.{result_ok};
ghost use Rattle.cuwajimo.specs.Lines.{AreWords, texts, line_words};
ghost use Rattle.cuwajimo.specs.Readings.{BytesRead, NumbersRead, FileRead};
ghost use Rattle.cuwajimo.specs.Troubles.{Blamed};
ghost use Rattle.cuwajimo.specs.Words.{number_in};

use super::files::ImageFile;
use super::trouble::{Spot, Trouble};
use super::words::{Numeral, Word, add_hex};
use std::alloc::{AllocError, Global};

/// A line of the script: where it stands, its words, and what it says apart from its comment.
#[derive(Clone, Copy)]
pub struct Line<'a> {
    pub(super) spot: Spot,
    pub(super) words: &'a [&'a str],
    pub(super) text: &'a str,
}

/// The words of a text, without the white space that they stand apart by.
pub(super) fn split_words(heap: Global, text: &str) -> Result<Vec<&str>, AllocError>
    ensures { IfOk result (λ words. AreWords text.now (texts words.items)) }
{
    text.split_whitespace().collect(heap)
}

impl<'a> Line<'a> {
    /// The word after so many.
    fn nth(self, before: usize) -> Word<'a>
        ensures text { option_copied result.text ≡ slice_get (line_words self.entry) before }
        ensures spot { result.spot ≡ self.entry.spot }
    {
        Word {
            spot: self.spot,
            text: self.words.get(before).copied(),
        }
    }

    /// The words after so many.
    fn after(self, before: usize) -> &'a [&'a str]
        ensures { texts result.now ≡ drop before (line_words self.entry) }
    {
        self.words.get(before..).unwrap_or(&[])
    }

    /// The first word, which says what the line is.
    pub(super) fn first(self) -> Option<&'a str>
        ensures { option_copied result ≡ slice_get (line_words self.entry) 0 }
    {
        self.nth(0).text
    }

    /// The word after so many, which has to be there.
    pub(super) fn word(self, before: usize) -> Result<&'a str, Trouble>
        ensures value { option_copied (result_ok result) ≡ slice_get (line_words self.entry) before }
        ensures line { Blamed self.entry.spot.line result }
    {
        self.nth(before).required()
    }

    /// The word after so many, as a decimal number.
    pub(super) fn number<T: Numeral>(self, before: usize) -> Result<T, Trouble>
        ensures value { option_map T.number (result_ok result) ≡ number_in T.limit (slice_get (line_words self.entry) before) }
        ensures line { Blamed self.entry.spot.line result }
    {
        self.nth(before).number()
    }

    /// The word after so many, as the name of a file.
    pub(super) fn file(self, before: usize) -> Result<ImageFile, Trouble>
        ensures value { FileRead self.entry.spot.line (slice_get (line_words self.entry) before) result }
        ensures line { Blamed self.entry.spot.line result }
    {
        let path = String::from_str(self.spot.heap, self.word(before)?)?;
        Ok(ImageFile {
            line: self.spot.line,
            path,
        })
    }

    /// The decimal numbers that stand after so many words.
    pub(super) fn numbers<T: Numeral>(self, before: usize) -> Result<Vec<T>, Trouble>
        ensures value { NumbersRead T.number T.limit (drop before (line_words self.entry)) result }
        ensures line { Blamed self.entry.spot.line result }
    {
        let mut numbers = Vec::new(self.spot.heap);
        for text in self.after(before) {
            let word = Word {
                spot: self.spot,
                text: Some(*text),
            };
            numbers.push(word.number::<T>()?)?;
        }
        Ok(numbers)
    }

    /// The bytes that stand in hexadecimal digits after so many words.
    pub(super) fn hex(self, before: usize) -> Result<Vec<u8>, Trouble>
        ensures value { BytesRead (drop before (line_words self.entry)) result }
        ensures line { Blamed self.entry.spot.line result }
    {
        let mut bytes = Vec::new(self.spot.heap);
        for word in self.after(before) {
            add_hex(self.spot, &mut bytes, word)?;
        }
        Ok(bytes)
    }

    /// Nothing more may stand after so many words.
    pub(super) fn end(self, before: usize) -> Result<(), Trouble>
        ensures value { is_ok result ≡ not (is_some (slice_get (line_words self.entry) before)) }
        ensures line { Blamed self.entry.spot.line result }
    {
        self.nth(before).absent()
    }
}
