//! The rows of times.

use crate::against::{figure_of, tenths};

/// What is printed of times.
#[derive(Clone, Copy)]
pub struct Table<'a> {
    /// Whether times are printed at all.
    pub is_timed: bool,
    /// Figures of another program, a row a line.
    pub others: &'a str,
}

impl Table<'_> {
    /// A table that has no other figures.
    pub fn new(is_timed: bool) -> Self {
        Table {
            is_timed,
            others: "",
        }
    }

    /// Prints how many nanoseconds one unit of a row took.
    pub fn print(
        &self,
        rt: &HostRuntime,
        row: &str,
        nanos: u128,
        unit: &str,
    ) -> anyhow::Result<()> {
        let Some(other) = figure_of(self.others, row) else {
            println!(rt; "{row}: {nanos} ns a {unit}")?;
            return Ok(());
        };
        let ratio = tenths(nanos, other);
        println!(rt;
            "{row}: {nanos} ns a {unit}, other {other} ns, ratio {}.{}",
            ratio / 10,
            ratio % 10
        )?;
        Ok(())
    }
}
