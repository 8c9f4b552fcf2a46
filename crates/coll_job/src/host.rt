//! The machine that does a task, and whether its files fail.

ghost use Rattle.std.specs.Prelude.{◌≡◌, ◌||◌, true, false, OnOk, OnErr};

use crate::keeping::keep;
use crate::opening::open_text;
use coll_script::CountedReader;
use std::alloc::Global;
use std::fs::Files;
use std::io;
use std::io::Read;

/// A machine that remembers whether a file that the words name couldn't be opened, read or written.
#[derive(Drop)]
pub struct Host<'m, M> {
    pub machine: &'m M,
    failed: bool,
    error: Option<io::Error>,
}

impl<'m, M: Files> Host<'m, M> {
    /// A machine of which no file has failed so far.
    pub fn new(machine: &'m M) -> Host<'m, M>
        ensures { result.failed ≡ false }
    {
        Host {
            machine,
            failed: false,
            error: None,
        }
    }

    /// Whether a file couldn't be opened, read or written.
    pub fn has_failed(&self) -> bool
        ensures { result ≡ self.now.failed }
    {
        self.failed
    }

    /// Opens the file of a job text.
    pub(crate) fn open(&mut self, name: &str) -> io::Result<M::File>
        // An error sets the flag; nothing else changes it.
        ensures failed { OnErr result (self.new.failed ≡ true) }
        ensures opened { OnOk result (self.new.failed ≡ self.old.failed) }
    {
        let opened = open_text(self.machine, name);
        if opened.is_err() {
            self.failed = true;
        }
        opened
    }

    /// The error with which a file failed while it was read.
    pub(crate) fn error(&self) -> Option<io::Error> {
        self.error
    }

    /// Notes whether a file failed while it was read, and with which error.
    pub(crate) fn heed<R: Read>(&mut self, file: &CountedReader<'_, R>)
        ensures { self.new.failed ≡ (self.old.failed || file.now.failed) }
    {
        self.failed = self.failed || file.has_failed();
        self.error = file.error();
    }

    /// Writes a file, whole or not at all.
    pub(crate) fn keep(&mut self, alloc: Global, name: &str, bytes: &[u8]) -> io::Result<()>
        ensures failed { OnErr result (self.new.failed ≡ true) }
        ensures kept { OnOk result (self.new.failed ≡ self.old.failed) }
    {
        let kept = keep(self.machine, alloc, name, bytes);
        if kept.is_err() {
            self.failed = true;
        }
        kept
    }
}
