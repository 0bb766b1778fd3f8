//! What does not hold.

use std::io::Write;

/// Puts a check to the log, where it does not hold.
pub fn check(log: &mut Vec<u8>, holds: bool, name: &str) {
    if !holds {
        let _ = write!(log, "{name}\n");
    }
}

/// The same of a row of bytes.
pub fn check_bytes(log: &mut Vec<u8>, holds: bool, name: &str, row: &[u8]) {
    if !holds {
        let _ = write!(log, "{name}, at {row:?}\n");
    }
}

/// The same of a row that a number names.
pub fn check_number(log: &mut Vec<u8>, holds: bool, name: &str, row: usize) {
    if !holds {
        let _ = write!(log, "{name}, at {row}\n");
    }
}
