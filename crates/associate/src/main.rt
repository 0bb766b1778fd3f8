//! Two associations over a network in memory that loses, repeats and reorders datagrams: both connect, exchange messages on streams of
//! each mode, reset streams and shut down. Prints for each loss whether all went well, and figures on standard error. Before that, two by `pair`
//! exchange messages, and it prints whether what was read is what was written.
#![tactic(auto)]

mod exchange;
mod host;
mod network;
mod paired;
mod traffic;

use crate::exchange::{Figures, run};
use std::process::ExitCode;

// A line on whether all went well, and on standard error the figures.
fn line(rt: &HostRuntime, loss: u32, figures: Figures) -> anyhow::Result<()> {
    let word = if figures.is_well {
        "all as promised"
    } else {
        "not as promised"
    };
    println!(rt; "{loss} of 100 datagrams lost: {word}")?;
    eprintln!(rt;
        "{} datagrams sent, {} lost, {} messages read, {} ms",
        figures.datagrams, figures.lost, figures.messages, figures.milliseconds
    )?;
    Ok(())
}

// A line on whether messages by `pair` were read as they were written.
fn paired_line(rt: &HostRuntime) -> anyhow::Result<bool> {
    let is_well = matches!(paired::is_well(rt.alloc()), Ok(true));
    let word = if is_well { "equals" } else { "is not" };
    println!(rt; "by pair: what was read {word} what was written")?;
    Ok(is_well)
}

fn main(rt: HostRuntime) -> anyhow::Result<ExitCode> {
    let mut all = paired_line(&rt)?;
    for loss in [0, 5, 20, 40] {
        let figures = match run(rt.alloc(), loss) {
            Ok(figures) => figures,
            Err(_) => Figures::none(),
        };
        line(&rt, loss, figures)?;
        all = all && figures.is_well;
    }
    Ok(if all {
        ExitCode::SUCCESS
    } else {
        ExitCode::FAILURE
    })
}
