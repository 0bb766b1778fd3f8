//! What stands out on a terminal.

ghost use Rattle.std.specs.Prelude.{◌≡◌, ◌++◌, OnOk};
ghost use Rattle.std.specs.String.{string_bytes};
ghost use Rattle.sctp_show.specs.Mark.{side_mark, mark_of, marked};

use crate::page::put_all;
use std::alloc::AllocError;

/// An end of an association.
#[derive(Clone, Copy, Debug, PartialEq, Eq)]
pub enum Side {
    /// The one that sent its first packet.
    First,
    /// The other one.
    Second,
}

/// How the line of a packet stands out.
#[derive(Clone, Copy, Debug, PartialEq, Eq)]
pub enum Mark {
    /// It does not.
    Plain,
    /// In red: a chunk is refused, bytes are left over, or the checksum is wrong.
    Refused,
    /// In yellow: a TSN came before.
    Repeated,
    /// In cyan: the first side of its association sent it.
    Forth,
    /// In magenta: the second side did.
    Back,
}

/// The color of the side that sent a packet.
fn side_mark(side: Option<Side>) -> Mark
    ensures { result ≡ side_mark side }
{
    match side {
        None => Mark::Plain,
        Some(Side::First) => Mark::Forth,
        Some(Side::Second) => Mark::Back,
    }
}

/// How the line of a packet stands out, if any is to: what is refused goes first, then what repeats a TSN, and then the side that sent it.
pub fn mark_of(is_colored: bool, is_refused: bool, is_repeated: bool, side: Option<Side>) -> Mark
    ensures { result ≡ mark_of is_colored is_refused is_repeated side }
{
    if !is_colored {
        return Mark::Plain;
    }
    if is_refused {
        return Mark::Refused;
    }
    if is_repeated {
        return Mark::Repeated;
    }
    side_mark(side)
}

/// Appends a line as it stands out: its color stands around it (ECMA-48 8.3.117).
pub fn put_marked(text: &mut String, mark: Mark, line: &str) -> Result<(), AllocError>
    ensures { OnOk result (string_bytes text.new
        ≡ string_bytes text.old ++ marked mark line.now) }
{
    match mark {
        Mark::Plain => text.push_str(line),
        Mark::Refused => put_all(text, &["\x1b[31m", line, "\x1b[0m"]),
        Mark::Repeated => put_all(text, &["\x1b[33m", line, "\x1b[0m"]),
        Mark::Forth => put_all(text, &["\x1b[36m", line, "\x1b[0m"]),
        Mark::Back => put_all(text, &["\x1b[35m", line, "\x1b[0m"]),
    }
}
