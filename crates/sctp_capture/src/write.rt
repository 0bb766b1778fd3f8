//! The blocks of a capture in the newer format (pcapng), as they are written, the lowest byte of each number first.

ghost use Rattle.std.specs.Prelude.{◌≡◌, ◌≤◌, ◌<◌, ◌+◌, ◌++◌, flat_map, length, OnOk};
ghost use Rattle.sctp_util.specs.Field.{le32};
ghost use Rattle.sctp_capture.specs.Write as written;

use crate::record::Time;
use sctp_util::field::u32_le_bytes;
use std::alloc::AllocError;

/// The types of the blocks that are written.
const SECTION: u32 = 0x0a0d_0d0a;

const INTERFACE: u32 = 1;

const ENHANCED: u32 = 6;

/// What says the order of a section's numbers.
const ORDER: u32 = 0x1a2b_3c4d;

/// The version of the format, 1.0, in two numbers of two bytes.
const VERSION: u32 = 1;

/// The length of a section is not said.
const UNKNOWN: u32 = 0xffff_ffff;

/// The option of an interface that says its unit of time, in two numbers of two bytes: its code 9, and its length 1.
const RESOLUTION: u32 = 65_545;

/// The unit of time: 10^-9 seconds.
const NANOSECONDS: u32 = 9;

/// How many bytes a packet's block has besides its frame.
const AROUND: usize = 32;

const SECOND: u128 = 1_000_000_000;

const MOST_TICKS: u128 = 18_446_744_073_709_551_615;

/// Appends numbers, of four bytes each.
fn put_numbers(block: &mut Vec<u8>, numbers: &[u32]) -> Result<(), AllocError>
    ensures { OnOk result (block.new.items ≡ block.old.items ++ flat_map le32 numbers.now) }
{
    for number in numbers {
        block.extend_from_slice(&u32_le_bytes(*number))?;
    }
    Ok(())
}

/// Appends the header of a section, which a capture begins with.
pub fn put_section(block: &mut Vec<u8>) -> Result<(), AllocError>
    ensures { OnOk result (block.new.items ≡ block.old.items ++ written.section) }
{
    put_numbers(block, &[SECTION, 28, ORDER, VERSION, UNKNOWN, UNKNOWN, 28])
}

/// Appends the description of an interface with this link type, which packets name by how many stand before it. Times are in nanoseconds.
pub fn put_interface(block: &mut Vec<u8>, link_type: u32) -> Result<(), AllocError>
    ensures { OnOk result (block.new.items ≡ block.old.items ++ written.interface link_type) }
{
    put_numbers(
        block,
        &[
            INTERFACE,
            32,
            link_type % 65_536,
            0,
            RESOLUTION,
            NANOSECONDS,
            0,
            32,
        ],
    )
}

/// The nanoseconds of a time, as many as eight bytes can say; 0 where there is no time.
fn ticks_of(time: &Option<Time>) -> u64
    ensures { result ≡ written.ticks_of time.now }
{
    let Some(time) = time else {
        return 0;
    };
    let unit: u128 = if time.nanoseconds { 1 } else { 1_000 };
    let ticks = time.seconds as u128 * SECOND + time.fraction as u128 * unit;
    ticks.min(MOST_TICKS) as u64
}

/// How many bytes stand behind a frame of this length, so that its block ends at a multiple of four.
fn padding_of(length: usize) -> usize
    ensures is { result ≡ written.padding_of length }
    ensures few { result < 4 }
{
    (4 - length % 4) % 4
}

/// Appends the block of a packet: the number of its interface, when it was captured, its frame, and how many bytes that had before
/// `lost` of them were lost.
/// Precondition: the frame is no longer than a record may be.
pub fn put_packet(
    block: &mut Vec<u8>,
    interface: u32,
    time: &Option<Time>,
    frame: &[u8],
    lost: u32,
) -> Result<(), AllocError>
    requires { length frame.now ≤ 262144 }
    ensures { OnOk result (block.new.items
        ≡ block.old.items ++ written.packet interface time.now frame.now lost) }
{
    let ticks = ticks_of(time);
    let length = frame.len();
    let padding = padding_of(length);
    let span = (AROUND + length + padding) as u32;
    let (high, low) = (
        (ticks / 4_294_967_296) as u32,
        (ticks % 4_294_967_296) as u32,
    );
    let whole = (length as u32).saturating_add(lost);
    put_numbers(
        block,
        &[ENHANCED, span, interface, high, low, length as u32, whole],
    )?;
    block.extend_from_slice(frame)?;
    block.extend_from_slice(&[0, 0, 0][..padding])?;
    put_numbers(block, &[span])
}
