//! Runs a script of events on a link under CRC-32C, and prints its replies.
#![tactic(auto)]

ghost use Rattle.std.specs.Prelude.{◌≡◌, ◌⊎◌, IfOk};

pub use linkscript::run::RunFault;
use linkscript::run::run_under;
use sctp_packets::checksum::Crc32c;
use std::alloc::Global;
use std::io::{self, BufWriter, Read, Write};
use std::process::ExitCode;

/// Reads a script whole, runs it line by line on a link under CRC-32C, and prints a line for each
/// reply. The status is 0, or 2 where a line cannot be read: that is the last one then.
pub fn run<R: Read, W: Write>(alloc: Global, input: &mut R, output: &mut W) -> Result<u8, RunFault>
    ensures { IfOk result (λ status. (status ≡ 0) ⊎ (status ≡ 2)) }
{
    run_under(alloc, Crc32c, input, output)
}

fn main(rt: HostRuntime) -> ExitCode {
    let alloc = rt.alloc();
    let mut input = rt.reader();
    let Ok(mut output) = BufWriter::new(alloc, io::writer(&rt)) else {
        return ExitCode::FAILURE;
    };
    let result = run(alloc, &mut input, &mut output);
    match (result, output.flush()) {
        (Ok(status), Ok(())) => ExitCode::from(status),
        _ => ExitCode::FAILURE,
    }
}
