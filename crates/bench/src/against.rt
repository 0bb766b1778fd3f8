//! Figures of another program, and how they compare.
//!
//! A line of them is a row's name, a tab, and the nanoseconds of one unit: a whole number below 2^64. An empty line says nothing.

ghost use Rattle.std.specs.Prelude.{◌≡◌, ◌*◌, ◌/◌, max};

/// The row and the nanoseconds that a line says; None where it is another line.
pub fn figure_in(line: &str) -> Option<(&str, u64)> {
    let (name, nanos) = line.split_once('\t')?;
    if name.is_empty() {
        return None;
    }
    Some((name, nanos.parse::<u64>().ok()?))
}

/// The number of the first line, from 1 on, that is neither empty nor a figure; None where there is no such line.
pub fn bad_line(text: &str) -> Option<usize> {
    for (place, line) in text.split('\n').enumerate() {
        if !line.is_empty() && figure_in(line).is_none() {
            return Some(place.saturating_add(1));
        }
    }
    None
}

/// The nanoseconds of a row, by its first line; None where there is none.
pub fn figure_of(text: &str, row: &str) -> Option<u64> {
    for line in text.split('\n') {
        if let Some((name, nanos)) = figure_in(line)
            && name == row
        {
            return Some(nanos);
        }
    }
    None
}

/// How often one time goes into another, in tenths, rounded down; a time of 0 counts as 1.
pub fn tenths(time: u128, into: u64) -> u128
    ensures { result ≡ into * 10 / max time 1 }
{
    u128::from(into) * 10 / time.max(1)
}
