//! A run: the records of inputs, each printed.

ghost use Rattle.std.specs.Prelude.{◌≡◌, ◌≤◌, ◌<◌, ◌+◌, ◌^◌, ℕ, List, Option, true, IsOk, IfOk, IfErr, OnOk, OnErr, IfSome};
ghost use Rattle.std.specs.Io.KnownBytes.{Appends, Keeps, prepend_known};
ghost use Rattle.sctp_capture.specs.Blocks.{known_of};
ghost use Rattle.sctp_capture.specs.Input.{IsInput};
ghost use Rattle.sctp_show.specs.declared.run.RunFault.TheVariants.{Memory, TooMany};
ghost use Rattle.sctp_show.specs.Columns.{heading};
ghost use Rattle.sctp_show.specs.Run.{none, Fits, fault_of, IsOutput, IsWriting, IsFull, IsPrintFault, IsRunFault, PrintsRecord, Prints};

use crate::columns::heading;
use crate::follow::Follow;
use crate::summary::Summary;
use crate::text::{Options, record_text};
use sctp_capture::blocks::{Section, Taken};
use sctp_capture::input::{ReadFault, holds_piece, next_piece, open_input, unread_of};
use sctp_capture::kind::Kind;
use sctp_capture::record::Record;
use sctp_capture::window::Window;
use std::alloc::{AllocError, Global};
use std::io::{Read, Write};

/// Why a run ended early.
#[derive(Clone, Copy, Debug, PartialEq, Eq)]
pub enum RunFault {
    /// The reader failed, with this error of the system, if it named one.
    Input(Option<i32>),
    /// The writer failed, likewise.
    Output(Option<i32>),
    /// There was no memory.
    Memory,
    /// The input is a file of a kind that is known, but not read.
    Other(Kind),
    /// A count would pass the greatest `u64`.
    TooMany,
}

impl From<ReadFault> for RunFault {
    ghost from_gives = { λ fault e. e ≡ fault_of fault };

    fn from(fault: ReadFault) -> RunFault {
        match fault {
            ReadFault::Input(code) => RunFault::Input(code),
            ReadFault::Memory => RunFault::Memory,
            ReadFault::Other(kind) => RunFault::Other(kind),
        }
    }
}

impl From<AllocError> for RunFault {
    ghost from_gives = { λ _ e. e ≡ Memory };

    fn from(_e: AllocError) -> RunFault {
        RunFault::Memory
    }
}

/// Sends off what was written, where it is not to wait for more.
pub fn send_off<W: Write>(output: &mut W, waits: bool) -> Result<(), RunFault>
    ensures keeps { OnOk result (Keeps (W.contents output.old) (W.contents output.new)) }
    ensures held { waits ≡ true → IsOk result }
    ensures fault { IfErr result IsOutput }
{
    if waits {
        return Ok(());
    }
    match output.flush() {
        Ok(()) => Ok(()),
        Err(e) => Err(RunFault::Output(e.raw_os_error())),
    }
}

/// Writes a text.
pub fn write_text<W: Write>(output: &mut W, text: &str) -> Result<(), RunFault>
    ensures appends { OnOk result
        (Appends (W.contents output.old) (W.contents output.new) text.now) }
    ensures fault { IfErr result IsOutput }
{
    match output.write_all(text.as_bytes()) {
        Ok(()) => Ok(()),
        Err(e) => Err(RunFault::Output(e.raw_os_error())),
    }
}

/// A count that grows. There is none past `u64::MAX`.
fn added(count: u64, more: u64) -> Result<u64, RunFault>
    ensures sum { IfOk result (λ sum. sum ≡ count + more) }
    ensures accepted { IsOk result → count + more < 2 ^ 64 }
    ensures refused { IfErr result (λ e. (e ≡ TooMany) × (2 ^ 64 ≤ count + more)) }
{
    match count.checked_add(more) {
        Some(sum) => Ok(sum),
        None => Err(RunFault::TooMany),
    }
}

/// How many records were read of the inputs so far.
#[derive(Clone, Copy, Debug, PartialEq, Eq)]
pub struct Counts {
    pub records: u64,
    /// The records that have no frame: what an input says there is no record, or is cut off.
    pub unread: u64,
    /// The records of which something is shown.
    pub shown: u64,
}

impl Counts {
    /// No record was read.
    pub fn none() -> Self
        ensures { result ≡ none }
    {
        Counts {
            records: 0,
            unread: 0,
            shown: 0,
        }
    }

    /// One record more, of which so many have no frame, and so many are shown. Refuses with `TooMany` exactly where a sum passes `u64::MAX`.
    pub fn with(self, unread: u64, shown: u64) -> Result<Self, RunFault>
        ensures records { IfOk result (λ after. after.records ≡ self.records + 1) }
        ensures unread { IfOk result (λ after. after.unread ≡ self.unread + unread) }
        ensures shown { IfOk result (λ after. after.shown ≡ self.shown + shown) }
        ensures accepted { IsOk result → Fits self unread shown }
        ensures refused { IfErr result (λ e. (e ≡ TooMany) × (Fits self unread shown → ⊥)) }
        ensures full { IfErr result (λ _. unread ≤ 1 → shown ≤ 1 → IsFull self) }
    {
        Ok(Counts {
            records: added(self.records, 1)?,
            unread: added(self.unread, unread)?,
            shown: added(self.shown, shown)?,
        })
    }
}

/// What is known of the inputs that were read, one after the other, as of one capture.
#[derive(Drop)]
pub struct Course {
    pub counts: Counts,
    summary: Summary,
}

impl Course {
    /// Nothing was read. Refuses only for memory.
    pub fn new(alloc: Global) -> Result<Self, AllocError>
        ensures { IfOk result (λ course. course.counts ≡ none) }
    {
        Ok(Course {
            counts: Counts::none(),
            summary: Summary::new(alloc)?,
        })
    }

    /// Prints a record, if it is to be shown, and counts it.
    fn print<F: Follow, W: Write>(
        &mut self,
        alloc: Global,
        options: &Options,
        record: Record,
        follower: &mut F,
        output: &mut W,
    ) -> Result<(), RunFault>
        ensures prints { OnOk result (PrintsRecord options.now «record» self.old.counts
            self.new.counts (W.contents output.old) (W.contents output.new)) }
        ensures few { OnOk result (self.new.counts.shown ≤ self.old.counts.shown + 1) }
        ensures err { OnErr result (self.new.counts ≡ self.old.counts) }
        ensures fault { IfErr result (IsPrintFault self.old.counts) }
    {
        let number = added(self.counts.records, 1)?;
        let text = record_text(alloc, options, number, &record, follower, &mut self.summary)?;
        write_text(output, &text)?;
        let shown = if text.is_empty() { 0 } else { 1 };
        self.counts = self.counts.with(unread_of(&record), shown)?;
        Ok(())
    }

    /// Writes the line that sums up.
    pub fn finish<W: Write>(
        &self,
        alloc: Global,
        options: &Options,
        output: &mut W,
    ) -> Result<(), RunFault>
        ensures appends { OnOk result ((ending : List ℕ)
            × Appends (W.contents output.old) (W.contents output.new) ending) }
        ensures fault { IfErr result IsWriting }
    {
        let text = self.summary.text(alloc, options.form, self.counts.records)?;
        write_text(output, &text)
    }
}

/// Writes what stands above the records: the line that names the columns, where they are printed in columns.
pub fn begin<W: Write>(alloc: Global, options: &Options, output: &mut W) -> Result<(), RunFault>
    ensures appends { OnOk result (Appends (W.contents output.old) (W.contents output.new)
        (heading options.now.form options.now.layout)) }
    ensures fault { IfErr result IsWriting }
{
    let text = heading(alloc, options.form, options.layout)?;
    write_text(output, &text)
}

/// Prints each record of an input in order that has what is asked for, until as many are shown as are to be shown at most. Its records are
/// counted on from those of the inputs before it, and printed with these numbers.
/// Each packet is noted by the follower before it is printed. What was printed is sent off before more of the input is waited for. An input of a kind that is known, but not read, is refused.
pub fn run<R: Read + Drop, F: Follow, W: Write>(
    alloc: Global,
    options: &Options,
    input: R,
    course: &mut Course,
    follower: &mut F,
    output: &mut W,
) -> Result<(), RunFault>
    ensures prints { OnOk result ((records : List Record)
        × IfSome (R.remaining input)
        (λ bytes. IsInput (options.now.limit ≤ course.new.counts.shown) bytes records)
        × Prints options.now records course.old.counts course.new.counts
        (W.contents output.old) (W.contents output.new)) }
    ensures limit { course.old.counts.shown ≤ options.now.limit
        → OnOk result (course.new.counts.shown ≤ options.now.limit) }
    ensures fault { IfErr result (IsRunFault course.new.counts (R.remaining input)) }
{
    let mut window = Window::new(alloc, input)?;
    let format = open_input(&mut window)?;
    let mut section = Section::new(alloc);
    'pieces: for turn in 0..u64::MAX {
        if course.counts.shown >= options.limit {
            return Ok(());
        }
        send_off(output, holds_piece(format, &section, window.held()))?;
        match next_piece(alloc, &mut window, &mut section, format)? {
            Taken::Record(record) => course.print(alloc, options, record, follower, output)?,
            Taken::Nothing => {}
            Taken::End => return Ok(()),
        }
    }
    Err(RunFault::TooMany)
}
