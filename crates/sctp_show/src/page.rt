//! What is printed of a record, fact by fact, as text or as JSON.

ghost use Rattle.std.specs.Prelude.{◌≡◌, ◌<◌, ◌++◌, flat_map, OnOk};
ghost use Rattle.std.specs.String.{string_bytes};
ghost use Rattle.sctp_show.specs.declared.page.Form.TheVariants.{Json};
ghost use Rattle.sctp_show.specs.Page.{plain, escaped, led_text, number_text, row_text, truth_text, bytes_text, words_text};

use itoa::Buffer;
use std::alloc::{AllocError, Global};
use std::str;

/// In what form records are printed.
#[derive(Clone, Copy, PartialEq, Eq)]
pub enum Form {
    /// Lines for people.
    Text,
    /// A JSON object a line.
    Json,
}

/// What is printed so far.
#[derive(Drop)]
pub struct Page {
    pub form: Form,
    pub text: String,
}

/// A byte that is printable ASCII, or a question mark in its place.
fn plain_byte(byte: u8) -> u8
    ensures is { result ≡ plain byte }
    ensures ascii { result < 128 }
{
    if byte < 32 || byte > 126 {
        return b'?';
    }
    byte
}

/// Appends a byte of ASCII as it may stand between the quotes of JSON (RFC 8259 7).
fn push_escaped(text: &mut String, byte: u8) -> Result<(), AllocError>
    ensures { OnOk result (string_bytes text.new ≡ string_bytes text.old ++ escaped byte) }
{
    if byte == b'"' {
        return text.push_str("\\\"");
    }
    if byte == b'\\' {
        return text.push_str("\\\\");
    }
    text.push(char::from(plain_byte(byte)))
}

/// Appends words of ASCII as they may stand between the quotes of JSON.
fn push_words(text: &mut String, words: &str) -> Result<(), AllocError>
    ensures { OnOk result (string_bytes text.new
        ≡ string_bytes text.old ++ flat_map escaped words.now) }
{
    for byte in words.as_bytes() {
        push_escaped(text, *byte)?;
    }
    Ok(())
}

/// Appends texts, one behind the other.
pub fn put_all(text: &mut String, parts: &[&str]) -> Result<(), AllocError>
    ensures { OnOk result (string_bytes text.new
        ≡ string_bytes text.old ++ flat_map (λ part. part.now) parts.now) }
{
    for part in parts {
        text.push_str(part)?;
    }
    Ok(())
}

/// Appends lines, each behind four blanks.
fn put_indented(text: &mut String, lines: &str) -> Result<(), AllocError> {
    for line in lines.lines() {
        put_all(text, &["    ", line, "\n"])?;
    }
    Ok(())
}

/// Whether a character shows nothing, or changes the order in which others are shown: those of Unicode's categories Cf, Zl and Zp that
/// change how a line is read.
fn is_hidden(c: char) -> bool {
    matches!(
        c,
        '\u{ad}'
            | '\u{61c}'
            | '\u{180e}'
            | '\u{200b}'..='\u{200f}'
            | '\u{2028}'..='\u{202e}'
            | '\u{2060}'..='\u{206f}'
            | '\u{feff}'
            | '\u{fff9}'..='\u{fffb}'
    )
}

/// Appends a character as it may stand between quotes, on a terminal and in JSON.
fn put_char(text: &mut String, c: char) -> Result<(), AllocError> {
    if c == '"' || c == '\\' {
        text.push('\\')?;
        return text.push(c);
    }
    if c.is_control() || is_hidden(c) {
        return write!(text, "\\u{:04x}", c as u32);
    }
    text.push(c)
}

/// Appends bytes between quotes: their characters, or, where they are no UTF-8, their hex digits.
pub fn put_quoted(text: &mut String, bytes: &[u8]) -> Result<(), AllocError> {
    text.push('"')?;
    match str::from_utf8(bytes) {
        Ok(words) => {
            for c in words.chars() {
                put_char(text, c)?;
            }
        }
        Err(_) => {
            for byte in bytes {
                write!(text, "{byte:02x}")?;
            }
        }
    }
    text.push('"')
}

impl Page {
    /// Nothing is printed yet.
    pub fn new(alloc: Global, form: Form) -> Self {
        Page {
            form,
            text: String::new(alloc),
        }
    }

    /// Whether the page is text for people.
    pub fn is_text(&self) -> bool {
        self.form == Form::Text
    }

    /// What stands in text alone.
    pub fn in_text(&mut self, text: &str) -> Result<(), AllocError>
        ensures { self.new.form ≡ self.old.form }
    {
        match self.form {
            Form::Text => self.text.push_str(text),
            Form::Json => Ok(()),
        }
    }

    /// What stands in JSON alone.
    pub fn in_json(&mut self, text: &str) -> Result<(), AllocError>
        ensures { self.new.form ≡ self.old.form }
    {
        match self.form {
            Form::Text => Ok(()),
            Form::Json => self.text.push_str(text),
        }
    }

    /// What stands in a row: in text, each of its lines is indented.
    pub fn inner(&mut self, row: &Page) -> Result<(), AllocError>
        ensures form { self.new.form ≡ self.old.form }
        ensures json { self.old.form ≡ Json → OnOk result (string_bytes self.new.text
            ≡ string_bytes self.old.text ++ string_bytes row.now.text) }
    {
        if self.form == Form::Json {
            return self.text.push_str(&row.text);
        }
        put_indented(&mut self.text, &row.text)
    }

    /// A fact whose value stands as it is, behind what JSON begins it with.
    #[tactic(auto, unfolding(crate::specs::Page::led_text))]
    fn led(&mut self, lead: &str, label: &str, key: &str, value: &str) -> Result<(), AllocError>
        ensures form { self.new.form ≡ self.old.form }
        ensures text { OnOk result (string_bytes self.new.text
            ≡ string_bytes self.old.text
            ++ led_text self.old.form lead.now label.now key.now value.now) }
    {
        match self.form {
            Form::Text => put_all(&mut self.text, &["        ", label, ": ", value, "\n"]),
            Form::Json => put_all(&mut self.text, &[lead, key, "\":", value]),
        }
    }

    /// A fact that is a number.
    #[tactic(auto, unfolding(crate::specs::Page::number_text))]
    pub fn number(&mut self, label: &str, key: &str, value: u32) -> Result<(), AllocError>
        ensures form { self.new.form ≡ self.old.form }
        ensures text { OnOk result (string_bytes self.new.text
            ≡ string_bytes self.old.text ++ number_text self.old.form label.now key.now value) }
    {
        let mut buffer = Buffer::new();
        self.led(",\"", label, key, buffer.format(value))
    }

    /// The first fact of a row, a number.
    #[tactic(auto, unfolding(crate::specs::Page::row_text))]
    pub fn row(
        &mut self,
        is_first: bool,
        label: &str,
        key: &str,
        value: u32,
    ) -> Result<(), AllocError>
        ensures form { self.new.form ≡ self.old.form }
        ensures text { OnOk result (string_bytes self.new.text
            ≡ string_bytes self.old.text
            ++ row_text self.old.form is_first label.now key.now value) }
    {
        let mut buffer = Buffer::new();
        let lead = if is_first { "{\"" } else { ",{\"" };
        self.led(lead, label, key, buffer.format(value))
    }

    /// A fact that is a truth.
    #[tactic(auto, unfolding(crate::specs::Page::truth_text))]
    pub fn truth(&mut self, label: &str, key: &str, value: bool) -> Result<(), AllocError>
        ensures form { self.new.form ≡ self.old.form }
        ensures text { OnOk result (string_bytes self.new.text
            ≡ string_bytes self.old.text ++ truth_text self.old.form label.now key.now value) }
    {
        self.led(",\"", label, key, if value { "true" } else { "false" })
    }

    /// A fact that is bytes, as hex text.
    #[tactic(auto, unfolding(crate::specs::Page::bytes_text))]
    pub fn bytes(
        &mut self,
        alloc: Global,
        label: &str,
        key: &str,
        bytes: &[u8],
    ) -> Result<(), AllocError>
        ensures form { self.new.form ≡ self.old.form }
        ensures text { OnOk result (string_bytes self.new.text
            ≡ string_bytes self.old.text ++ bytes_text self.old.form label.now key.now bytes.now) }
    {
        let digits = hex::encode(alloc, bytes)?;
        let digits = digits.as_str();
        let mut buffer = Buffer::new();
        let count = buffer.format(bytes.len());
        match self.form {
            Form::Text => put_all(
                &mut self.text,
                &["        ", label, " (", count, " bytes): ", digits, "\n"],
            ),
            Form::Json => put_all(&mut self.text, &[",\"", key, "\":\"", digits, "\""]),
        }
    }

    /// A fact that is words of ASCII.
    #[tactic(auto, unfolding(crate::specs::Page::words_text))]
    pub fn words(&mut self, label: &str, key: &str, words: &str) -> Result<(), AllocError>
        ensures form { self.new.form ≡ self.old.form }
        ensures text { OnOk result (string_bytes self.new.text
            ≡ string_bytes self.old.text ++ words_text self.old.form label.now key.now words.now) }
    {
        match self.form {
            Form::Text => put_all(&mut self.text, &["        ", label, ": ", words, "\n"]),
            Form::Json => {
                put_all(&mut self.text, &[",\"", key, "\":\""])?;
                push_words(&mut self.text, words)?;
                self.text.push_str("\"")
            }
        }
    }
}
