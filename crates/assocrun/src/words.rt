//! The words of a line.

ghost use Rattle.std.specs.Prelude.{◌≤◌, IfSome};

/// The words that are left of a line.
#[derive(Clone, Copy)]
pub(crate) struct Words<'a> {
    rest: &'a str,
}

impl<'a> Words<'a> {
    /// Those of a line, up to a `#`.
    pub fn new(line: &'a str) -> Words<'a> {
        let text = match line.split_once('#') {
            Some((text, _)) => text,
            None => line,
        };
        Words { rest: text.trim() }
    }

    /// Takes the next word.
    pub fn word(&mut self) -> Option<&'a str> {
        if self.rest.is_empty() {
            return None;
        }
        match self.rest.split_once(' ') {
            Some((word, rest)) => {
                self.rest = rest.trim_start();
                Some(word)
            }
            None => {
                let word = self.rest;
                self.rest = "";
                Some(word)
            }
        }
    }

    /// Whether no word is left.
    pub fn is_empty(&self) -> bool {
        self.rest.is_empty()
    }

    /// Takes the number of a stream.
    pub fn stream(&mut self) -> Option<u16> {
        Some(number_of(self.word()?, u16::MAX as u64)? as u16)
    }

    /// Takes a number of 32 bits.
    pub fn number(&mut self) -> Option<u32> {
        Some(number_of(self.word()?, u32::MAX as u64)? as u32)
    }

    /// Takes a moment, in microseconds; in nanoseconds it is returned.
    pub fn moment(&mut self) -> Option<u64> {
        nanoseconds(self.word()?)
    }
}

/// The nanoseconds of a number of microseconds.
pub(crate) fn nanoseconds(word: &str) -> Option<u64> {
    number_of(word, u64::MAX)?.checked_mul(1000)
}

/// The number that these decimal digits write, where it is at most this one.
pub(crate) fn number_of(word: &str, most: u64) -> Option<u64>
    ensures { IfSome result (λ n. n ≤ most) }
{
    if !word.bytes().all(|b| b.is_ascii_digit()) {
        return None;
    }
    let number = word.parse::<u64>().ok()?;
    if number > most {
        return None;
    }
    Some(number)
}
