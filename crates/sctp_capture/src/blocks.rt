//! The blocks of a capture in the newer format (pcapng).

ghost use Rattle.std.specs.Prelude.{◌≡◌, ◌≤◌, ◌<◌, ◌+◌, ◌-◌, ◌⊎◌, Option, Some, None, true, false, length, take, IfOk, IfErr, OnOk, IfSome, IfNone};
ghost use Rattle.std.specs.Io.KnownBytes.{Keeps, IsAtEnd, prepend_known};
ghost use Rattle.sctp_capture.specs.Record.{number_at};
ghost use Rattle.sctp_capture.specs.Blocks as blocks;
ghost use Rattle.sctp_capture.specs.Blocks.{known_of, IsBegun, IsBlocks, IsBlockHead, IsInterface, IsEnhanced, IsSimple, IsPacket, GivesRead, GivesWhole, GivesLong, Gives, HoldsBlock};
ghost use Rattle.sctp_capture.specs.declared.blocks.BlockHead.{BlockHead};
ghost use Rattle.sctp_capture.specs.declared.input.Format.TheVariants.{Blocks};
ghost use Rattle.sctp_capture.specs.Window.{IsFailure};
ghost use Rattle.sctp_capture.specs.Input.{Takes};

use crate::input::ReadFault;
use crate::options::{MAX_OPTIONS, direction_in, first_half, last_half, padded};
use crate::record::{Fault, MAX_RECORD, Order, Record, Time, read_number};
use crate::window::Window;
use bytes::Bytes;
use sctp_util::field::{read_u32, read_u32_le};
use std::alloc::{AllocError, Global};
use std::io::Read;

/// The least bytes of a block.
const BLOCK_HEADER: usize = 12;

/// The types of blocks that are read.
const SECTION: u32 = 0x0a0d_0d0a;

const INTERFACE: u32 = 1;

const OBSOLETE: u32 = 2;

const SIMPLE: u32 = 3;

const ENHANCED: u32 = 6;

/// What a section has in its third four bytes, in its own order.
const BYTE_ORDER: u32 = 0x1a2b_3c4d;

/// How many interfaces of a section are kept.
const MAX_INTERFACES: usize = 4_096;

/// An interface that frames were captured at.
#[derive(Clone, Copy)]
pub struct Interface {
    pub link_type: u32,
    /// The most bytes that are kept of a frame, or 0 for all.
    pub limit: u32,
    /// How many units of its times make a second, or 0 where that is not known.
    pub units: u64,
}

/// What is known of the section that is read.
#[derive(Drop)]
pub struct Section {
    pub order: Order,
    pub interfaces: Vec<Interface>,
    /// Whether the next block cannot be found.
    pub is_lost: bool,
}

/// What was taken of an input.
#[derive(Drop)]
pub enum Taken {
    Record(Record),
    /// A block that is no record.
    Nothing,
    /// The input ends.
    End,
}

/// The head of a block, and the order of its numbers.
#[derive(Clone, Copy)]
pub struct BlockHead {
    pub order: Order,
    pub typ: u32,
    pub length: u32,
}

impl Section {
    /// Nothing is known before the first section begins.
    pub fn new(alloc: Global) -> Self
        ensures { IsBegun (known_of result) }
    {
        Section {
            order: Order::Big,
            interfaces: Vec::new(alloc),
            is_lost: false,
        }
    }
}

/// A record that has no frame.
fn refused(fault: Fault) -> Record
    ensures frame { result.frame ≡ Err fault }
    ensures direction { result.direction ≡ None }
{
    Record {
        time: None,
        direction: None,
        link_type: 0,
        lost: 0,
        frame: Err(fault),
    }
}

/// The order of the block that the bytes begin with: a section says its own.
fn order_in(order: Order, held: &[u8]) -> Option<Order>
    requires { 12 ≤ length held.now }
    ensures { result ≡ blocks.order_in order held.now }
{
    if read_u32(held, 0) != SECTION {
        return Some(order);
    }
    match (read_u32(held, 8), read_u32_le(held, 8)) {
        (BYTE_ORDER, _) => Some(Order::Big),
        (_, BYTE_ORDER) => Some(Order::Little),
        _ => None,
    }
}

/// Whether an input that begins so is of blocks: whether a section begins.
pub fn begins_blocks(held: &[u8]) -> bool
    ensures yes { result ≡ true → IsBlocks held.now }
    ensures no { result ≡ false → IsBlocks held.now → ⊥ }
{
    held.len() >= 4 && read_u32(held, 0) == SECTION
}

/// The head of the block that the bytes begin with; None where its length is below 12 or no multiple of four, or a section says no order.
/// Precondition: there are 12 bytes at least.
pub fn read_block_head(order: Order, held: &[u8]) -> Option<BlockHead>
    requires { 12 ≤ length held.now }
    ensures some { IfSome result (IsBlockHead order held.now) }
    ensures none { IfNone result ((h : BlockHead) → IsBlockHead order held.now h → ⊥) }
{
    let order = order_in(order, held)?;
    let length = read_number(order, held, 4);
    if length < BLOCK_HEADER as u32 || length % 4 != 0 {
        return None;
    }
    Some(BlockHead {
        order,
        typ: read_number(order, held, 0),
        length,
    })
}

/// Whether the block at the front is held whole, or nothing can be taken there.
pub fn holds_block(order: Order, held: &[u8]) -> bool {
    if held.len() < BLOCK_HEADER {
        return false;
    }
    match read_block_head(order, held) {
        Some(head) => held.len() >= head.length as usize,
        None => true,
    }
}

/// How many units make a second, by the byte that says so: a power of ten, or of two. 0 where the
/// unit is finer than any that is shown.
fn units_by(byte: u8) -> u64 {
    if byte < 20 {
        10u64.checked_pow(byte as u32).unwrap_or(0)
    } else if 128 <= byte && byte < 158 {
        2u64.checked_pow((byte - 128) as u32).unwrap_or(0)
    } else {
        0
    }
}

/// The unit of an interface's times, which one of its options says (`if_tsresol`), or microseconds.
fn units_in(order: Order, options: &[u8]) -> u64 {
    let mut rest = options;
    for _ in 0..MAX_OPTIONS {
        if rest.len() < 8 {
            return 1_000_000;
        }
        let number = read_number(order, rest, 0);
        let length = last_half(order, number) as usize;
        match first_half(order, number) {
            0 => return 1_000_000,
            9 if length == 1 => return units_by(rest[4]),
            _ => {}
        }
        let span = 4 + padded(length);
        rest = rest.get(span..).unwrap_or(b"");
    }
    1_000_000
}

/// The interface that a block describes.
fn read_interface(order: Order, block: &[u8]) -> Interface
    ensures { IsInterface order block.now result }
{
    if block.len() < 20 {
        return Interface {
            link_type: 65_535,
            limit: 0,
            units: 0,
        };
    }
    Interface {
        link_type: first_half(order, read_number(order, block, 8)),
        limit: read_number(order, block, 12),
        units: units_in(order, &block[16..block.len() - 4]),
    }
}

/// When so many units had passed. There is none where the unit is not known.
fn time_of(units: u64, ticks: u64) -> Option<Time>
    ensures { result ≡ blocks.time_of units ticks }
{
    if units == 0 {
        return None;
    }
    let part = ticks % units;
    let fraction = if units == 1_000_000 {
        part
    } else if units <= 1_000_000_000 {
        part * 1_000_000_000 / units
    } else {
        part / (units / 1_000_000_000)
    };
    Some(Time {
        seconds: ticks / units,
        fraction,
        nanoseconds: units != 1_000_000,
    })
}

/// The number of a packet's interface.
fn interface_number(head: BlockHead, block: &[u8]) -> u32
    requires { 12 ≤ length block.now }
    ensures { result ≡ blocks.interface_number head block.now }
{
    let number = read_number(head.order, block, 8);
    if head.typ == OBSOLETE {
        return first_half(head.order, number);
    }
    number
}

/// A packet with an interface, a time and a length of its own.
fn read_enhanced(
    alloc: Global,
    interfaces: &[Interface],
    head: BlockHead,
    block: &[u8],
) -> Result<Record, AllocError>
    ensures { IfOk result (IsEnhanced interfaces.now head block.now) }
{
    if block.len() < 32 {
        return Ok(refused(Fault::BadBlock));
    }
    let order = head.order;
    let number = interface_number(head, block) as usize;
    let Some(interface) = interfaces.get(number) else {
        return Ok(refused(Fault::NoInterface));
    };
    let length = read_number(order, block, 20) as usize;
    if block.len() - 32 < length {
        return Ok(refused(Fault::BadBlock));
    }
    let high = read_number(order, block, 12) as u64;
    let low = read_number(order, block, 16) as u64;
    Ok(Record {
        time: time_of(interface.units, high * 4_294_967_296 + low),
        direction: direction_in(order, block, 28 + padded(length)),
        link_type: interface.link_type,
        lost: read_number(order, block, 24).saturating_sub(read_number(order, block, 20)),
        frame: Ok(Bytes::copy_from_slice(alloc, &block[28..28 + length])?),
    })
}

/// How many bytes of a frame were not captured, by how many it had, and how many are there.
fn lost_of(whole: u32, held: usize) -> u32
    ensures { result ≡ whole - held }
{
    (whole as usize).saturating_sub(held) as u32
}

/// A packet of the first interface, with no time.
fn read_simple(
    alloc: Global,
    interfaces: &[Interface],
    order: Order,
    block: &[u8],
) -> Result<Record, AllocError>
    ensures { IfOk result (IsSimple interfaces.now order block.now) }
{
    if block.len() < 16 {
        return Ok(refused(Fault::BadBlock));
    }
    let Some(interface) = interfaces.first() else {
        return Ok(refused(Fault::NoInterface));
    };
    let whole = read_number(order, block, 8);
    let mut length = (whole as usize).min(block.len() - 16);
    if interface.limit > 0 {
        length = length.min(interface.limit as usize);
    }
    Ok(Record {
        time: None,
        direction: None,
        link_type: interface.link_type,
        lost: lost_of(whole, length),
        frame: Ok(Bytes::copy_from_slice(alloc, &block[12..12 + length])?),
    })
}

/// The record that a block of a packet is.
fn read_packet(
    alloc: Global,
    interfaces: &[Interface],
    head: BlockHead,
    block: &[u8],
) -> Result<Record, AllocError>
    ensures { IfOk result (IsPacket interfaces.now head block.now) }
{
    if head.typ == SIMPLE {
        return read_simple(alloc, interfaces, head.order, block);
    }
    read_enhanced(alloc, interfaces, head, block)
}

/// Keeps an interface, where there are not too many.
fn keep_interface(section: &mut Section, interface: Interface) -> Result<(), AllocError>
    ensures { OnOk result (known_of section.new
        ≡ blocks.with_interface (known_of section.old) interface) }
{
    if section.interfaces.len() >= MAX_INTERFACES {
        return Ok(());
    }
    section.interfaces.push(interface)?;
    Ok(())
}

/// What a block of a packet or an interface gives.
fn read_block(
    alloc: Global,
    section: &mut Section,
    head: BlockHead,
    block: &[u8],
) -> Result<Option<Record>, AllocError>
    requires { head.length ≤ length block.now }
    ensures { IfOk result
        (λ r. GivesRead (known_of section.old) head block.now r (known_of section.new)) }
{
    if head.typ != INTERFACE {
        let interfaces = section.interfaces.as_slice();
        return Ok(Some(read_packet(alloc, interfaces, head, block)?));
    }
    keep_interface(section, read_interface(head.order, block))?;
    Ok(None)
}

/// A section begins.
fn begin_section(section: &mut Section, order: Order)
    ensures { known_of section.new ≡ blocks.begun (known_of section.old) order }
{
    section.order = order;
    section.interfaces.clear();
}

/// What a block gives that is held whole.
fn read_whole(
    alloc: Global,
    section: &mut Section,
    head: BlockHead,
    block: &[u8],
) -> Result<Option<Record>, AllocError>
    requires { head.length ≤ length block.now }
    ensures { IfOk result
        (λ r. GivesWhole (known_of section.old) head block.now r (known_of section.new)) }
{
    match head.typ {
        INTERFACE | OBSOLETE | SIMPLE | ENHANCED => read_block(alloc, section, head, block),
        SECTION => {
            begin_section(section, head.order);
            Ok(None)
        }
        _ => Ok(None),
    }
}

/// What a block gives that is longer than is read: a section begins all the same.
fn pass_long(section: &mut Section, head: BlockHead) -> Option<Record>
    ensures { GivesLong (known_of section.old) head result (known_of section.new) }
{
    match head.typ {
        INTERFACE | OBSOLETE | SIMPLE | ENHANCED => Some(refused(Fault::TooLong)),
        SECTION => {
            begin_section(section, head.order);
            None
        }
        _ => None,
    }
}

/// What the block gives whose head stands at the front.
fn take_block<R: Read + Drop>(
    alloc: Global,
    window: &mut Window<R>,
    section: &mut Section,
    head: BlockHead,
) -> Result<Option<Record>, ReadFault>
    ensures keeps { OnOk result
        (Keeps (prepend_known window.old.held.items (R.remaining window.old.reader))
        (prepend_known window.new.held.items (R.remaining window.new.reader))) }
    ensures full { OnOk result (HoldsBlock head window.new.held.items
        ⊎ IsAtEnd (R.remaining window.new.reader)) }
    ensures gives { IfOk result (λ r. Gives (known_of section.old) head
        (take head.length window.new.held.items) r (known_of section.new)) }
    ensures fault { IfErr result IsFailure }
{
    let length = head.length as usize;
    if length > MAX_RECORD {
        return Ok(pass_long(section, head));
    }
    window.fill(length)?;
    if window.held().len() < length {
        return Ok(Some(refused(Fault::CutOff)));
    }
    Ok(read_whole(alloc, section, head, &window.held()[..length])?)
}

/// Takes the next block, if one follows.
pub fn next_block<R: Read + Drop>(
    alloc: Global,
    window: &mut Window<R>,
    section: &mut Section,
) -> Result<Taken, ReadFault>
    ensures takes { IfOk result (λ taken.
        IfSome (prepend_known window.old.held.items (R.remaining window.old.reader)) (λ xs.
        Takes Blocks (known_of section.old) xs taken (known_of section.new)
        (prepend_known window.new.held.items (R.remaining window.new.reader)))) }
    ensures fault { IfErr result IsFailure }
{
    window.fill(BLOCK_HEADER)?;
    if section.is_lost || window.held().is_empty() {
        return Ok(Taken::End);
    }
    if window.held().len() < BLOCK_HEADER {
        window.skip(BLOCK_HEADER)?;
        return Ok(Taken::Record(refused(Fault::CutOff)));
    }
    let head = match read_block_head(section.order, window.held()) {
        Some(head) => head,
        None => {
            section.is_lost = true;
            return Ok(Taken::Record(refused(Fault::BadBlock)));
        }
    };
    let found = take_block(alloc, window, section, head)?;
    window.skip(head.length as usize)?;
    match found {
        Some(record) => Ok(Taken::Record(record)),
        None => Ok(Taken::Nothing),
    }
}
