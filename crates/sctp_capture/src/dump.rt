//! Dumps of several lines a packet, as text2pcap and xxd write them: a line has the offset of its first byte, and at most 256 bytes.

ghost use Rattle.std.specs.Prelude.{◌≡◌, ◌≤◌, ◌<◌, ◌+◌, ◌++◌, ◌↔◌, OnOk, IsTrue, length};
ghost use Rattle.sctp_capture.specs.Dump as dumps;

use crate::record::{MAX_LINE, is_blank};
use std::alloc::AllocError;

/// The most bytes of a dump's line.
pub const WIDTH: usize = 256;

/// The most digits of an offset, and one more.
const MANY_DIGITS: usize = 9;

/// How many characters are passed before an offset, and before the first byte.
const MAX_PASSED: usize = 16;

/// The byte in this place of a line, or a line feed, where the line has ended.
fn char_at(line: &[u8], at: usize) -> u8
    ensures { result ≡ dumps.char_at line.now at }
{
    if at < line.len() {
        return line[at];
    }
    b'\n'
}

/// Whether a byte is a hex digit.
pub fn is_digit(byte: u8) -> bool
    ensures { result ≡ dumps.is_digit byte }
{
    (byte >= b'0' && byte <= b'9')
        || (byte >= b'A' && byte <= b'F')
        || (byte >= b'a' && byte <= b'f')
}

/// The value of a hex digit.
fn value_of(digit: u8) -> u8
    ensures is { result ≡ dumps.value_of digit }
    ensures few { result < 16 }
{
    if digit <= b'9' {
        return digit.saturating_sub(b'0') % 16;
    }
    if digit <= b'F' {
        return (digit - 55) % 16;
    }
    digit.saturating_sub(87) % 16
}

/// Whether a word ends before this byte.
fn ends_word(byte: u8) -> bool
    ensures { result ≡ dumps.ends_word byte }
{
    byte == b'\n' || is_blank(byte)
}

/// Whether a byte stands here: two hex digits, behind which the word ends, or, where words have several bytes, may go on.
fn is_byte_at(is_joined: bool, line: &[u8], at: usize) -> bool
    requires { at < 5000 }
    ensures { result ≡ dumps.is_byte_at is_joined line.now at }
{
    let next = char_at(line, at + 2);
    is_digit(char_at(line, at))
        && is_digit(char_at(line, at + 1))
        && (ends_word(next) || (is_joined && is_digit(next)))
}

/// The byte that stands here.
fn byte_at(line: &[u8], at: usize) -> u8
    requires { at < 5000 }
    ensures { result ≡ dumps.byte_at line.now at }
{
    value_of(char_at(line, at)) * 16 + value_of(char_at(line, at + 1))
}

/// Where the next byte stands, behind so many: at once in a word that goes on, else behind one blank. Where words have one byte, it may also
/// stand behind two blanks, behind eight bytes.
fn next_at(is_joined: bool, taken: usize, line: &[u8], at: usize) -> usize
    requires { at < 5000 }
    ensures is { result ≡ dumps.next_at is_joined taken line.now at }
    ensures few { result ≤ at + 4 }
{
    if is_joined {
        return if is_digit(char_at(line, at + 2)) {
            at + 2
        } else {
            at + 3
        };
    }
    if taken == 8 && is_blank(char_at(line, at + 3)) {
        return at + 4;
    }
    at + 3
}

/// Appends the bytes that stand from here on, at most so many.
fn push_bytes(
    is_joined: bool,
    line: &[u8],
    at: usize,
    width: usize,
    said: &mut Vec<u8>,
) -> Result<(), AllocError>
    requires { (at < 100) × (width ≤ 256) }
    ensures { OnOk result
        (said.new.items ≡ said.old.items ++ dumps.bytes_at is_joined 0 width line.now at) }
{
    let mut place = at;
    for taken in 0..width {
        if !is_byte_at(is_joined, line, place) {
            return Ok(());
        }
        said.push(byte_at(line, place))?;
        place = next_at(is_joined, taken + 1, line, place);
    }
    Ok(())
}

/// Whether a byte is passed before an offset, and before the first byte of a line: a blank, a colon, or the mark of what mail forwards.
fn is_passed(byte: u8) -> bool
    ensures { result ≡ dumps.is_passed byte }
{
    byte == b':' || byte == b'>' || is_blank(byte)
}

/// The first place from here on whose byte is not passed; at most sixteen are.
#[tactic(auto, using(crate::proofs::Dumps::skip_ends, crate::proofs::Dumps::skip_goes, crate::proofs::Dumps::skip_full))]
fn skip_at(line: &[u8], at: usize) -> usize
    requires { at < 100 }
    ensures is { result ≡ dumps.skip_at 16 line.now at }
    ensures few { result ≤ at + 16 }
{
    for passed in 0..MAX_PASSED {
        if !is_passed(char_at(line, at + passed)) {
            return at + passed;
        }
    }
    at + MAX_PASSED
}

/// How many hex digits stand from here on; not more than nine are counted.
#[tactic(auto, using(crate::proofs::Dumps::digits_ends, crate::proofs::Dumps::digits_goes, crate::proofs::Dumps::digits_full))]
fn digits_at(line: &[u8], at: usize) -> usize
    requires { at < 100 }
    ensures is { result ≡ dumps.digits_at 9 line.now at }
    ensures few { result ≤ 9 }
{
    for count in 0..MANY_DIGITS {
        if !is_digit(char_at(line, at + count)) {
            return count;
        }
    }
    MANY_DIGITS
}

/// Whether so many hex digits say this number.
#[tactic(auto, using(crate::proofs::Dumps::says_ends, crate::proofs::Dumps::says_goes, crate::proofs::Dumps::says_full))]
fn says(digits: usize, line: &[u8], at: usize, number: usize) -> bool
    requires { (at < 100) × (digits ≤ 9) }
    ensures { result ≡ dumps.says digits line.now at number }
{
    let mut left = number;
    for behind in 0..digits {
        let digit = char_at(line, at + (digits - 1 - behind));
        if value_of(digit) as usize != left % 16 {
            return false;
        }
        left /= 16;
    }
    left == 0
}

/// Where the parts of a dump's line stand.
#[derive(Clone, Copy)]
pub struct Layout {
    /// Where its offset begins.
    pub start: usize,
    /// How many digits that has.
    pub digits: usize,
    /// Where its bytes begin.
    pub text: usize,
}

/// Where the parts of a dump's line stand, if it is one.
fn layout_of(line: &[u8]) -> Layout
    ensures is { result ≡ dumps.layout_of line.now }
    ensures start { result.start ≤ 16 }
    ensures digits { result.digits ≤ 9 }
    ensures text { result.text < 100 }
{
    let start = skip_at(line, 0);
    let digits = digits_at(line, start);
    Layout {
        start,
        digits,
        text: skip_at(line, start + digits),
    }
}

/// Whether an offset may have so many digits: more than two, and at most eight.
fn is_offset_size(digits: usize) -> bool
    ensures { result ≡ dumps.is_offset_size digits }
{
    digits >= 3 && digits <= 8
}

/// Whether an offset ends before this byte: a colon, a blank or the line's end.
fn ends_offset(byte: u8) -> bool
    ensures { result ≡ dumps.ends_offset byte }
{
    byte == b':' || ends_word(byte)
}

/// Whether a line begins with an offset.
fn has_offset(line: &[u8]) -> bool
    ensures { result ≡ dumps.has_offset line.now }
{
    let layout = layout_of(line);
    is_offset_size(layout.digits) && ends_offset(char_at(line, layout.start + layout.digits))
}

/// Whether the words of a line have several bytes: a colon stands behind its offset, and a third digit in the first word.
fn is_joined(line: &[u8]) -> bool
    ensures { result ≡ dumps.is_joined line.now }
{
    let layout = layout_of(line);
    char_at(line, layout.start + layout.digits) == b':' && is_digit(char_at(line, layout.text + 2))
}

/// Whether a byte stands behind a line's offset.
fn has_bytes(line: &[u8]) -> bool
    ensures { result ≡ dumps.has_bytes line.now }
{
    is_byte_at(is_joined(line), line, layout_of(line).text)
}

/// Whether the offset of a line is this number.
pub fn says_offset(line: &[u8], number: usize) -> bool
    ensures { result ≡ dumps.says_offset line.now number }
{
    let layout = layout_of(line);
    says(layout.digits, line, layout.start, number)
}

/// Whether a line begins a dump, if none goes on in it: it has an offset, and bytes behind that.
pub fn is_dump(line: &[u8]) -> bool
    ensures { result ≡ dumps.is_dump line.now }
{
    line.len() <= MAX_LINE && has_offset(line) && has_bytes(line)
}

/// Whether a dump goes on in a line: it has an offset other than 0, and bytes behind that, or nothing.
pub fn goes_on(line: &[u8]) -> bool
    ensures { result ≡ dumps.goes_on line.now }
{
    line.len() <= MAX_LINE
        && has_offset(line)
        && !says_offset(line, 0)
        && (has_bytes(line) || layout_of(line).text >= line.len())
}

/// Appends the bytes of a line, at most so many.
pub fn push_line(line: &[u8], width: usize, said: &mut Vec<u8>) -> Result<(), AllocError>
    requires { width ≤ 256 }
    ensures { OnOk result (said.new.items ≡ said.old.items ++ dumps.bytes_in width line.now) }
{
    push_bytes(is_joined(line), line, layout_of(line).text, width, said)
}
