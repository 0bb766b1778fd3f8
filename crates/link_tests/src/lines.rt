//! Lines that cannot be read, streams that fail, the fields of lines, and the longest fragment.

use crate::cases::play_case;
use linkscript::field::{FieldFault, field_bytes, field_text};
use linkscript::run::{RunFault, run_under};
use sctp_packets::checksum::Crc32c;
use std::alloc::{AllocError, Global};
use std::io::{self, ErrorKind, Read, Write};

/// Whether a script prints this, and ends so.
pub(crate) fn prints(
    alloc: Global,
    script: &[u8],
    printed: &[u8],
    status: Result<u8, RunFault>,
) -> bool {
    let mut input = script;
    let mut output = Vec::new(alloc);
    let ended = run_under(alloc, Crc32c, &mut input, &mut output);
    let same = ended == status && output.as_slice() == printed;
    drop(output);
    same
}

const FIRST_LINES: [&str; 18] = [
    "",
    "\n",
    "open 1\n",
    "link 10 3\n",
    "link 10 3 100 \n",
    "link 10 3 100 0 \n",
    "link 10 3 100 0 0\n",
    "link 10 3 100 -\n",
    "link 10 3 100 4294967296\n",
    "link 10 0 100 60\n",
    "link 10 0 100\n",
    "link 10 65520 100\n",
    "link 4294967296 3 100\n",
    "link 10 3 4294967296\n",
    " link 10 3 100\n",
    "link 10 3 100\r\n",
    "\u{feff}link 10 3 100\n",
    "link\t10 3 100\n",
];

fn is_no_first_line(alloc: Global, line: &str) -> bool {
    prints(alloc, line.as_bytes(), b"bad line 1\n", Ok(2))
}

/// Whether a script whose third line this is ends there.
fn ends_a_script(alloc: Global, line: &str) -> bool {
    let mut script = String::new(alloc);
    let _ = write!(script, "link 10 3 100\nopen 1\n{line}\nopen 1\n");
    let ends = prints(alloc, script.as_bytes(), b"opened\nbad line 3\n", Ok(2));
    drop(script);
    ends
}

const LINES: [&str; 50] = [
    "",
    " ",
    "open",
    "open ",
    " open 1",
    "open  1",
    "open 1 ",
    "open 1 1",
    "open 1\r",
    "open\t1",
    "open +5",
    "open -5",
    "open 1_0",
    "open 0x1",
    "open 65536",
    "open 99999999999999999999",
    "open \u{663}",
    "Open 1",
    "opened",
    "write 1 53",
    "write 1 53 ",
    "write 1 53 6",
    "write 1 53 6g",
    "write 1 53 61 62",
    "write 1 4294967296 61",
    "write 65536 53 61",
    "send",
    "send 18446744073709551616",
    "arrive",
    "arrive 0 0",
    "read",
    "mode 1 ordered reliable",
    "mode 1 ordered reliable 4294967296",
    "mode 1 ordered always 0",
    "mode 1 reliable 0",
    "mode 65536 ordered reliable 0",
    "start",
    "resend 4294967296",
    "ack -",
    "ack 4294967296",
    "acked",
    "expire",
    "tail -1",
    "late 18446744073709551616",
    "abandon 4294967296",
    "skip 11",
    "skip - 0",
    "skip 11 0,",
    "skip 11 0,-",
    "skip 11 0 1",
];

fn is_refused_as_input(alloc: Global, script: &[u8]) -> bool {
    prints(alloc, script, b"", Err(RunFault::Input))
}

const NO_UTF8: [&[u8]; 2] = [b"link 10 3 100\nopen 1\n\xff\n", b"bad\n\x80"];

/// Gives its bytes, and then fails.
#[derive(Drop)]
struct Broken<'a> {
    bytes: &'a [u8],
}

impl Read for Broken<'_> {
    fn read(&mut self, buf: &mut [u8]) -> io::Result<usize> {
        if self.bytes.is_empty() || buf.is_empty() {
            return Err(io::Error::from(ErrorKind::BrokenPipe));
        }
        buf[0] = self.bytes[0];
        self.bytes = &self.bytes[1..];
        Ok(1)
    }
}

/// Takes so many bytes, and then fails.
#[derive(Drop)]
struct Full {
    room: usize,
    taken: usize,
}

impl Write for Full {
    fn write(&mut self, buf: &[u8]) -> io::Result<usize> {
        let count = buf.len().min(self.room);
        if count == 0 {
            return Err(io::Error::from(ErrorKind::BrokenPipe));
        }
        self.room -= count;
        self.taken = self.taken.wrapping_add(count);
        Ok(count)
    }

    fn flush(&mut self) -> io::Result<()> {
        Ok(())
    }
}

/// Whether a script whose input fails behind these bytes ends so; what it prints is put to the output.
fn input_fails(alloc: Global, bytes: &[u8], output: &mut Vec<u8>) -> bool {
    let mut input = Broken { bytes };
    run_under(alloc, Crc32c, &mut input, output) == Err(RunFault::Input)
}

fn each_input_fails(alloc: Global, script: &[u8]) -> bool {
    let mut output = Vec::new(alloc);
    let mut well = true;
    for taken in 0..script.len() {
        well = well && input_fails(alloc, &script[..taken], &mut output);
    }
    well = well && output.is_empty();
    drop(output);
    well
}

/// Whether a script ends so where the output has this room, and all of it is filled.
fn fills(alloc: Global, script: &[u8], room: usize, due: Result<u8, RunFault>) -> bool {
    let mut input = script;
    let mut output = Full { room, taken: 0 };
    run_under(alloc, Crc32c, &mut input, &mut output) == due && output.taken == room
}

fn each_output_fails(alloc: Global, script: &[u8], whole: usize) -> bool {
    let mut well = true;
    for room in 0..whole {
        well = well && fills(alloc, script, room, Err(RunFault::Output));
    }
    well && fills(alloc, script, whole, Ok(2))
}

fn streams_fail(alloc: Global) -> bool {
    let script = b"link 10 3 100\nopen 1\nopen 1\nreed 1\n".as_slice();
    let whole = "opened\nrefused L2\nbad line 4\n".len();
    each_input_fails(alloc, script) && each_output_fails(alloc, script, whole)
}

fn is_shown(alloc: Global, bytes: &[u8], text: &str) -> bool {
    match field_text(alloc, bytes) {
        Ok(shown) => {
            let same = shown.as_str() == text;
            drop(shown);
            same
        }
        Err(_) => false,
    }
}

fn is_told(alloc: Global, text: &str, bytes: &[u8]) -> bool {
    match field_bytes(alloc, text) {
        Ok(told) => {
            let same = told.as_slice() == bytes;
            drop(told);
            same
        }
        Err(_) => false,
    }
}

const FIELDS: [(&str, &[u8]); 3] = [("-", b""), ("00ff", b"\x00\xff"), ("616263", b"abc")];

const NO_FIELDS: [&str; 7] = ["", "--", "6", "6g", "0x61", " 61", "61 "];

fn are_fields_so(alloc: Global) -> bool {
    let mut well = is_told(alloc, "aFFa", b"\xaf\xfa");
    for (text, bytes) in FIELDS {
        well = well && is_shown(alloc, bytes, text) && is_told(alloc, text, bytes);
    }
    for text in NO_FIELDS {
        well = well && field_bytes(alloc, text).err() == Some(FieldFault::NotHex);
    }
    well
}

/// Plays the case of the longest fragment, which has 65,519 bytes.
fn play_longest(alloc: Global, log: &mut Vec<u8>) {
    let mut case = String::new(alloc);
    match put_longest(alloc, &mut case) {
        Ok(()) => play_case(alloc, case.as_str(), log),
        Err(_) => tell(log, "no memory", "for the longest fragment"),
    }
    drop(case);
}

fn put_longest(alloc: Global, case: &mut String) -> Result<(), AllocError> {
    let zeros = "00".repeat(alloc, 65_520)?;
    let put = write!(case, "{LONGEST} {zeros}: wrote 0 2\n{LONGEST_READ} {zeros}");
    drop(zeros);
    put
}

const LONGEST: &str =
    "== the longest fragment\nlink 10 65519 4294967295\nopen 1: opened\nwrite 1 53";

const LONGEST_READ: &str =
    "send 0: sent 0 10 0\nsend 0: sent 1 11 0\narrive 1: new\narrive 0: new\nread 1: message 1 53";

fn tell(log: &mut Vec<u8>, what: &str, of: &str) {
    drop(write!(log, "{what}: {of:?}\n"));
}

fn read_first_lines(alloc: Global, log: &mut Vec<u8>) {
    for line in FIRST_LINES {
        if !is_no_first_line(alloc, line) {
            tell(log, "a first line that cannot be read", line);
        }
    }
}

fn read_lines(alloc: Global, log: &mut Vec<u8>) {
    for line in LINES {
        if !ends_a_script(alloc, line) {
            tell(log, "a line that cannot be read", line);
        }
    }
}

/// Puts to the log each row of the tables that is not as it ought to be.
pub(crate) fn read_tables(alloc: Global, log: &mut Vec<u8>) {
    read_first_lines(alloc, log);
    read_lines(alloc, log);
    if !is_refused_as_input(alloc, NO_UTF8[0]) || !is_refused_as_input(alloc, NO_UTF8[1]) {
        tell(log, "input", "that is not UTF-8");
    }
    if !streams_fail(alloc) {
        tell(log, "streams", "that fail");
    }
    if !are_fields_so(alloc) {
        tell(log, "fields", "or texts that are none");
    }
    play_longest(alloc, log);
}
