//! What is done with inputs that are read one after the other, as with one capture.

use crate::save::{Saved, save};
use sctp_follow::summarize::{Past, Take, end_all, take_each};
use sctp_show::follow::Follow;
use sctp_show::run::{self, Counts, RunFault, begin, run};
use sctp_show::text::Options;
use std::alloc::{AllocError, Global};
use std::io::{Read, Write};

/// What is done with the records of inputs.
pub trait Course<W: Write> {
    /// Reads an input, whose records go on where those of the one before it ended.
    fn read<R: Read + Drop>(
        &mut self,
        alloc: Global,
        options: &Options,
        input: R,
        output: &mut W,
    ) -> Result<(), RunFault>;

    /// What was read so far.
    fn counts(&self) -> Counts;

    /// Writes what is written at the end of all.
    fn end(&mut self, alloc: Global, options: &Options, output: &mut W) -> Result<(), RunFault>;
}

/// The records are printed.
#[derive(Drop)]
pub struct Printed<F: Follow + Drop> {
    course: run::Course,
    follower: F,
    /// Whether what stands above the records is written.
    is_begun: bool,
}

impl<F: Follow + Drop> Printed<F> {
    /// Nothing was read yet. Refuses only for memory.
    pub fn new(alloc: Global, follower: F) -> Result<Self, AllocError> {
        Ok(Printed {
            course: run::Course::new(alloc)?,
            follower,
            is_begun: false,
        })
    }
}

impl<F: Follow + Drop, W: Write> Course<W> for Printed<F> {
    fn read<R: Read + Drop>(
        &mut self,
        alloc: Global,
        options: &Options,
        input: R,
        output: &mut W,
    ) -> Result<(), RunFault> {
        if !self.is_begun {
            begin(alloc, options, output)?;
            self.is_begun = true;
        }
        run(
            alloc,
            options,
            input,
            &mut self.course,
            &mut self.follower,
            output,
        )
    }

    fn counts(&self) -> Counts {
        self.course.counts
    }

    fn end(&mut self, alloc: Global, options: &Options, output: &mut W) -> Result<(), RunFault> {
        self.course.finish(alloc, options, output)
    }
}

/// What the packets amount to is printed.
#[derive(Drop)]
pub struct Viewed<T: Take + Drop> {
    past: Past,
    taker: T,
}

impl<T: Take + Drop> Viewed<T> {
    /// Nothing was read yet.
    pub fn new(alloc: Global, taker: T) -> Self {
        Viewed {
            past: Past::new(alloc),
            taker,
        }
    }
}

impl<T: Take + Drop, W: Write> Course<W> for Viewed<T> {
    fn read<R: Read + Drop>(
        &mut self,
        alloc: Global,
        options: &Options,
        input: R,
        output: &mut W,
    ) -> Result<(), RunFault> {
        take_each(
            alloc,
            options,
            input,
            &mut self.past,
            &mut self.taker,
            output,
        )
    }

    fn counts(&self) -> Counts {
        self.past.counts
    }

    fn end(&mut self, alloc: Global, _options: &Options, output: &mut W) -> Result<(), RunFault> {
        end_all(alloc, &self.past, &mut self.taker, output)
    }
}

/// The records are written as a capture.
#[derive(Drop)]
pub struct Kept {
    past: Past,
    saved: Saved,
}

impl Kept {
    /// Nothing was read yet. Refuses only for memory.
    pub fn new(alloc: Global) -> Result<Self, AllocError> {
        Ok(Kept {
            past: Past::new(alloc),
            saved: Saved::new(alloc)?,
        })
    }
}

impl<W: Write> Course<W> for Kept {
    fn read<R: Read + Drop>(
        &mut self,
        alloc: Global,
        options: &Options,
        input: R,
        output: &mut W,
    ) -> Result<(), RunFault> {
        self.saved.send(output)?;
        save(
            alloc,
            options,
            input,
            &mut self.past,
            &mut self.saved,
            output,
        )
    }

    fn counts(&self) -> Counts {
        self.past.counts
    }

    fn end(&mut self, _alloc: Global, _options: &Options, output: &mut W) -> Result<(), RunFault> {
        self.saved.send(output)
    }
}
