//! What does not hold.

use std::io::Write;

/// Puts a case to the log, where it does not hold.
pub fn check(log: &mut Vec<u8>, holds: bool, name: &str) {
    if !holds {
        let _ = write!(log, "{name}\n");
    }
}
