//! A strip of a picture: a number of bytes that rises and falls over time.

ghost use Rattle.std.specs.Prelude.{◌≡◌, ℕ, ◌≤◌, ◌==◌, Some, if◌then◌else◌, IfOk, OnOk};
ghost use Rattle.std.specs.BTreeMap as trees;
ghost use Rattle.std.specs.Ordering.{nat_cmp};
ghost use Rattle.sctp_follow.specs.Strip as strips;

use crate::band::Level;
use crate::svg::{CELL, Frame, Range, WIDTH, scaled};
use std::alloc::{AllocError, Global};
use std::collections::BTreeMap;

/// How high a strip is, in tenths of a unit.
const HEIGHT: u32 = 400;

/// What a strip shows.
#[derive(Clone, Copy, PartialEq, Eq)]
pub(crate) enum Look {
    /// The bytes of user data that are outstanding.
    Bytes,
    /// The windows that SACKs say.
    Window,
}

/// The least, the greatest and the last of the numbers in a column of the picture.
#[derive(Clone, Copy)]
pub(crate) struct Column {
    pub low: u64,
    pub high: u64,
    pub last: u64,
}

/// A column with a number more.
fn column_with(before: Option<Column>, value: u64) -> Column
    ensures { result ≡ strips.column_with before value }
{
    match before {
        None => Column {
            low: value,
            high: value,
            last: value,
        },
        Some(column) => Column {
            low: column.low.min(value),
            high: column.high.max(value),
            last: value,
        },
    }
}

/// Adds a number to a column. Refuses only for memory.
fn add_to(columns: &mut BTreeMap<u64, Column>, at: u64, value: u64) -> Result<(), AllocError>
    ensures { OnOk result ((column : ℕ) → trees.get nat_cmp columns.new column
        ≡ (if column == at then Some (strips.column_with (trees.get nat_cmp columns.old at) value)
        else trees.get nat_cmp columns.old column)) }
{
    let column = column_with(columns.get(&at).copied(), value);
    match columns.insert(at, column) {
        Ok(_) => Ok(()),
        Err(_) => Err(AllocError),
    }
}

/// The column of the picture that a level stands in.
fn column_at(frame: &Frame, level: &Level) -> u64
    ensures { result ≡ strips.column_at frame.now level.now }
{
    frame.across(level.instant.place(frame.is_timed)) / CELL
}

/// What is drawn in each column of a picture. Refuses only for memory.
fn columns_of(
    alloc: Global,
    frame: &Frame,
    levels: &[Level],
) -> Result<BTreeMap<u64, Column>, AllocError>
    ensures { IfOk result (λ columns. (column : ℕ) → strips.IsColumnOf
        (strips.values_in frame.now column levels.now) (trees.get nat_cmp columns column)) }
{
    let mut columns = BTreeMap::new(alloc);
    for level in levels {
        add_to(&mut columns, column_at(frame, level), level.value)?;
    }
    Ok(columns)
}

/// The greatest of the numbers, or 1.
fn top_of(levels: &[Level]) -> u64 {
    let mut top = 1u64;
    for level in levels {
        top = top.max(level.value);
    }
    top
}

/// How far down a number stands, where so much is the top.
fn down(top: u64, value: u64) -> u64
    ensures { result ≤ 400 }
{
    HEIGHT as u64 - scaled(Range { low: 0, high: top }, HEIGHT, value)
}

/// Draws a column: from the greatest number to the least one, and on from the last one.
fn put_column(text: &mut String, top: u64, at: u64, column: &Column) -> Result<(), AllocError> {
    let x = at.saturating_mul(CELL);
    let (high, low) = (down(top, column.high), down(top, column.low));
    write!(text, "H{x}V{high}")?;
    if low != high {
        write!(text, "V{low}")?;
    }
    let last = down(top, column.last);
    if last != low {
        write!(text, "V{last}")?;
    }
    Ok(())
}

/// Draws a strip: its title and its numbers beside it. Refuses only for memory.
pub(crate) fn put_strip(
    alloc: Global,
    text: &mut String,
    frame: &Frame,
    look: Look,
    levels: &[Level],
) -> Result<(), AllocError> {
    let (title, class, y) = match look {
        Look::Bytes => ("bytes outstanding", "o", 284u64),
        Look::Window => ("window (a_rwnd)", "c", 346u64),
    };
    if levels.is_empty() {
        return Ok(());
    }
    let top = top_of(levels);
    write!(
        text,
        "<g transform=\"translate(0 {y})\"><text y=\"-5\">{title}</text><text class=\"e\" x=\"-8\" y=\"4\">{top}</text><text class=\"e\" x=\"-8\" y=\"44\">0</text><g transform=\"scale(.1)\"><path class=\"a\" d=\"M0 0V{HEIGHT}H{WIDTH}\"/><path class=\"{class}\" d=\"M0 {HEIGHT}"
    )?;
    for (at, column) in &columns_of(alloc, frame, levels)? {
        put_column(text, top, *at, column)?;
    }
    write!(text, "H{WIDTH}V{HEIGHT}Z\"/></g></g>\n")
}
