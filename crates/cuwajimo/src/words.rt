ghost use Rattle.std.specs.Prelude.{◌≡◌, ◌^◌, ℕ, List, Result, not, is_some, is_ok};
ghost use Rattle.std.specs.Option.{option_map};
ghost use Rattle.std.specs.Result.{result_ok};
ghost use Rattle.cuwajimo.specs.Numerals.{read_below};
ghost use Rattle.cuwajimo.specs.Troubles.{Blamed};
ghost use Rattle.cuwajimo.specs.Words.{number_below, number_in, hex_digit, HexAdded};

use super::trouble::{Spot, Trouble};
use std::num::ParseIntError;
use std::str::FromStr;

/// A number that a word may stand for, of the width that its field has.
pub(super) trait Numeral: FromStr<Err = ParseIntError> + Drop {
    // The number that a value is.
    ghost number: { Self → ℕ };

    // What each is below.
    ghost limit: { ℕ };

    /// What is said of a word that is no such number.
    const REFUSAL: &'static str;

    // A word is read as the decimal number that it writes, where that is below the limit.
    ghost reads: { (word : List ℕ) (r : _) → Self.FromStr.from_str_gives word r → option_map number (result_ok r) ≡ number_below limit word };
}

impl Numeral for u32 {
    ghost number = { λ n. n };

    ghost limit = { 4294967296 };

    const REFUSAL: &'static str = "not a number that fits:";

    ghost reads = { λ word r h. read_below 32 word r h.0 };
}

impl Numeral for u16 {
    ghost number = { λ n. n };

    ghost limit = { 65536 };

    const REFUSAL: &'static str = "not a number from 0 to 65535:";

    ghost reads = { λ word r h. read_below 16 word r h.0 };
}

impl Numeral for u8 {
    ghost number = { λ n. n };

    ghost limit = { 256 };

    const REFUSAL: &'static str = "not a number from 0 to 255:";

    ghost reads = { λ word r h. read_below 8 word r h.0 };
}

/// A word of a line, or the place where none stands, and the line.
#[derive(Clone, Copy)]
pub struct Word<'a> {
    pub(super) spot: Spot,
    pub(super) text: Option<&'a str>,
}

impl<'a> Word<'a> {
    /// The word, which has to be there.
    pub(super) fn required(self) -> Result<&'a str, Trouble>
        ensures value { option_map (λ x. x.now) (result_ok result) ≡ option_map (λ x. x.now) self.entry.text }
        ensures line { Blamed self.entry.spot.line result }
    {
        self.text
            .ok_or_else(|| self.spot.trouble("a word is missing"))
    }

    /// The word, which has to be a decimal number of its field's width.
    pub(super) fn number<T: Numeral>(self) -> Result<T, Trouble>
        ensures value { option_map T.number (result_ok result) ≡ number_in T.limit (option_map (λ x. x.now) self.entry.text) }
        ensures line { Blamed self.entry.spot.line result }
    {
        let word = self.required()?;
        word.parse::<T>()
            .map_err(|_| self.spot.about(T::REFUSAL, word))
    }

    /// No word may be there.
    pub(super) fn absent(self) -> Result<(), Trouble>
        ensures value { is_ok result ≡ not (is_some self.entry.text) }
        ensures line { Blamed self.entry.spot.line result }
    {
        match self.text {
            None => Ok(()),
            Some(word) => Err(self.spot.about("a word too many:", word)),
        }
    }
}

/// Whether a word is a number that fits: then an image is in memory, else it is in a file of that name.
pub(super) fn is_number(word: &str) -> bool
    ensures { result ≡ is_some (number_below (2 ^ 32) word.now) }
{
    word.parse::<u32>().is_ok()
}

/// What a hexadecimal digit stands for, or none.
fn digit(letter: u8) -> Option<u8>
    ensures { result ≡ hex_digit letter }
{
    let digit = char::from(letter).to_digit(16)?;
    Some(digit as u8)
}

/// Adds a word's bytes, two hexadecimal digits each.
pub(super) fn add_hex(spot: Spot, bytes: &mut Vec<u8>, word: &str) -> Result<(), Trouble>
    ensures value { HexAdded word.now bytes.old.items bytes.new.items result }
    ensures line { Blamed spot.line result }
{
    let mut high = None;
    for letter in word.as_bytes() {
        let Some(low) = digit(*letter) else {
            return Err(spot.about("not hexadecimal digits:", word));
        };
        match high {
            None => high = Some(low),
            Some(tens) => {
                bytes.push(16 * tens + low)?;
                high = None;
            }
        }
    }
    match high {
        None => Ok(()),
        Some(_) => Err(spot.about("an odd number of hexadecimal digits:", word)),
    }
}
