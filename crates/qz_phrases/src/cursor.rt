//! A place among the words, and the steps over one word.

ghost use Rattle.std.specs.Prelude.{◌≡◌, ℕ};
ghost use Rattle.qz_phrases.specs.Words.{first};
ghost use Rattle.qz_phrases.specs.Phrases.{one, name, number, literal};
ghost use Rattle.qz_phrases.specs.Reading.{upcoming, Reads};

use crate::words::{Mark, Sort, Spot, Word};
use qz_syntax::NameAt;
use std::alloc::{AllocError, AllocFailed, Global};

/// Why no phrase is read.
#[derive(Clone, Copy, Debug, PartialEq, Eq)]
pub enum Fault {
    /// No phrase begins with the words up to and with the next one.
    Parse,
    /// Only phrases with more levels begin so.
    Deep,
    /// Memory ran out.
    Memory,
}

impl From<AllocError> for Fault {
    ghost use Rattle.qz_phrases.specs.declared.cursor.Fault.TheVariants.{Memory};

    ghost from_gives = { λ _ fault. fault ≡ Memory };

    fn from(_: AllocError) -> Fault {
        Fault::Memory
    }
}

impl<T: Drop> From<AllocFailed<T>> for Fault {
    ghost use Rattle.qz_phrases.specs.declared.cursor.Fault.TheVariants.{Memory};

    ghost from_gives = { λ _ fault. fault ≡ Memory };

    fn from(_: AllocFailed<T>) -> Fault {
        Fault::Memory
    }
}

/// Words, and how many of them are read.
#[derive(Drop)]
pub struct Cursor<'a> {
    pub words: &'a [Spot],
    pub read: usize,
}

impl Cursor<'_> {
    /// What the grammar asks of the next word.
    pub fn peek(&self) -> Sort
        ensures { result ≡ first (upcoming self.now) }
    {
        if self.read >= self.words.len() {
            return Sort::End;
        }
        self.words[self.read].word.sort()
    }

    /// Goes past the next word, which is this mark, and gives its offset.
    pub fn pass(&mut self, mark: Mark) -> Result<u32, Fault>
        ensures { (room : ℕ) → Reads (λ _. one mark) room self.old self.new result }
    {
        if self.read >= self.words.len() {
            return Err(Fault::Parse);
        }
        let spot = &self.words[self.read];
        let at = spot.at;
        let Word::Mark(next) = &spot.word else {
            return Err(Fault::Parse);
        };
        if *next != mark {
            return Err(Fault::Parse);
        }
        self.read += 1;
        Ok(at)
    }

    /// Goes past the next word, which is a name.
    pub fn name(&mut self) -> Result<NameAt, Fault>
        ensures { (room : ℕ) → Reads (λ _. name) room self.old self.new result }
    {
        if self.read >= self.words.len() {
            return Err(Fault::Parse);
        }
        let spot = &self.words[self.read];
        match &spot.word {
            Word::Name(name) => {
                let name = name.clone()?;
                let at = spot.at;
                self.read += 1;
                Ok(NameAt { name, at })
            }
            _ => Err(Fault::Parse),
        }
    }

    /// Goes past the next word, which is a number, and gives it with its offset.
    pub fn number(&mut self) -> Result<(u128, u32), Fault>
        ensures { (room : ℕ) → Reads (λ _. number) room self.old self.new result }
    {
        if self.read >= self.words.len() {
            return Err(Fault::Parse);
        }
        let spot = &self.words[self.read];
        let at = spot.at;
        match &spot.word {
            Word::Number(value) => {
                let value = *value;
                self.read += 1;
                Ok((value, at))
            }
            _ => Err(Fault::Parse),
        }
    }

    /// Goes past the next word, which is a literal, and gives its width, its value and its offset.
    pub fn literal(&mut self) -> Result<(u128, u128, u32), Fault>
        ensures { (room : ℕ) → Reads (λ _. literal) room self.old self.new result }
    {
        if self.read >= self.words.len() {
            return Err(Fault::Parse);
        }
        let spot = &self.words[self.read];
        let at = spot.at;
        match &spot.word {
            Word::Literal(width, value) => {
                let (width, value) = (*width, *value);
                self.read += 1;
                Ok((width, value, at))
            }
            _ => Err(Fault::Parse),
        }
    }
}
