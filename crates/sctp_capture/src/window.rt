//! The bytes of an input, in pieces: some are held, and the rest is still to be read.

ghost use Rattle.std.specs.Prelude.{◌≡◌, ◌≤◌, ◌<◌, ◌+◌, ◌⊎◌, ℕ, Option, true, false, length, drop, take, IfOk, IfErr, OnOk, IfSome, Some};
ghost use Rattle.std.specs.Io.KnownBytes.{Keeps, Consumes, IsAtEnd, prepend_known};
ghost use Rattle.sctp_capture.specs.Window.{Drops, IsFailure};

use crate::input::ReadFault;
use bytes::BytesMut;
use std::alloc::{AllocError, Global};
use std::io::{ErrorKind, Read};

/// How many bytes are asked of the reader at once.
const PIECE: usize = 65_536;

/// The bytes of an input that are held, and what reads more.
#[derive(Drop)]
pub struct Window<R: Read + Drop> {
    pub reader: R,
    pub piece: Vec<u8>,
    pub held: BytesMut,
    ghost roomy: { 0 < length piece.items },
}

/// One read, again where a signal came.
fn read_piece<R: Read>(reader: &mut R, piece: &mut [u8]) -> Result<usize, ReadFault>
    ensures within { IfOk result (λ n. n ≤ length piece.new) }
    ensures kept { length piece.new ≡ length piece.old }
    ensures bytes { IfOk result
        (λ n. Consumes (R.remaining reader.old) (R.remaining reader.new) (take n piece.new)) }
    ensures end { IfOk result (λ n. n ≡ 0
        → 0 < length piece.old → IsAtEnd (R.remaining reader.new)) }
    ensures fault { IfErr result IsFailure }
{
    for _ in 0..u64::MAX {
        match reader.read(piece) {
            Ok(n) => return Ok(n),
            Err(e) if e.kind() == ErrorKind::Interrupted => {}
            Err(e) => return Err(ReadFault::Input(e.raw_os_error())),
        }
    }
    Err(ReadFault::Input(None))
}

impl<R: Read + Drop> Window<R> {
    /// Holds nothing yet.
    pub fn new(alloc: Global, reader: R) -> Result<Self, AllocError>
        ensures { IfOk result (λ w. Keeps (R.remaining reader)
            (prepend_known w.held.items (R.remaining w.reader))) }
    {
        Ok(Window {
            reader,
            piece: vec![in alloc; 0u8; PIECE]?,
            held: BytesMut::new(alloc),
        })
    }

    /// Reads one piece more. Answers whether there was one.
    pub fn read_more(&mut self) -> Result<bool, ReadFault>
        ensures keeps { OnOk result
            (Keeps (prepend_known self.old.held.items (R.remaining self.old.reader))
            (prepend_known self.new.held.items (R.remaining self.new.reader))) }
        ensures more { IfOk result (λ more. more ≡ true
            → length self.old.held.items < length self.new.held.items) }
        ensures end { IfOk result (λ more. more ≡ false → IsAtEnd (R.remaining self.new.reader)) }
        ensures none { IfOk result (λ more. more ≡ false
            → length self.new.held.items ≡ length self.old.held.items) }
        ensures fault { IfErr result IsFailure }
    {
        let n = read_piece(&mut self.reader, &mut self.piece)?;
        self.held.extend_from_slice(&self.piece[..n])?;
        Ok(n > 0)
    }

    /// Holds at least so many bytes, or all that there are.
    pub fn fill(&mut self, count: usize) -> Result<(), ReadFault>
        ensures keeps { OnOk result
            (Keeps (prepend_known self.old.held.items (R.remaining self.old.reader))
            (prepend_known self.new.held.items (R.remaining self.new.reader))) }
        ensures full { OnOk result ((count ≤ length self.new.held.items)
            ⊎ IsAtEnd (R.remaining self.new.reader)) }
        ensures fault { IfErr result IsFailure }
    {
        'fill: while self.held.len() < count {
            if !self.read_more()? {
                return Ok(());
            }
        }
        Ok(())
    }

    /// The bytes that are held.
    pub fn held(&self) -> &[u8]
        ensures { result.now ≡ self.now.held.items }
    {
        self.held.as_slice()
    }

    /// Drops so many of the bytes that are held, the first ones. It takes no memory.
    /// Precondition: so many are held.
    pub fn advance(&mut self, count: usize)
        requires { count ≤ length self.old.held.items }
        ensures reader { R.remaining self.new.reader ≡ R.remaining self.old.reader }
        ensures held { length self.new.held.items + count ≡ length self.old.held.items }
        ensures drops { Drops (prepend_known self.old.held.items (R.remaining self.old.reader))
            (prepend_known self.new.held.items (R.remaining self.new.reader)) count }
    {
        self.held.advance(count);
    }

    /// Drops the first bytes, held or not.
    pub fn skip(&mut self, count: usize) -> Result<(), ReadFault>
        ensures skips { OnOk result
            (IfSome (prepend_known self.old.held.items (R.remaining self.old.reader)) (λ xs.
            Keeps (Some (drop count xs)) (prepend_known self.new.held.items
            (R.remaining self.new.reader)))) }
        ensures fault { IfErr result IsFailure }
    {
        let mut left = count;
        'skip: while left > 0 {
            self.fill(1)?;
            let some = left.min(self.held.len());
            if some == 0 {
                return Ok(());
            }
            self.advance(some);
            left -= some;
        }
        Ok(())
    }
}
