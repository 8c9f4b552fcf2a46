ghost use Rattle.std.specs.Prelude.{◌≡◌, ◌<◌, ◌+◌, true, false, OnOk, OnErr};
ghost use Rattle.std.specs.Io.{ReadsAtMost};
ghost use Rattle.std.specs.Io.KnownBytes.{ReadConsumes};

use std::io;
use std::io::Read;

/// A reader that counts its reads, and remembers whether one failed, and why. The reader within is reached by [`CountedReader::read`]
/// alone, so each of its reads is counted, and nothing else sets the flag.
#[derive(Drop)]
pub struct CountedReader<'r, R> {
    reader: &'r mut R,
    reads: u32,
    failed: bool,
    error: Option<io::Error>,
}

impl<'r, R: Read> CountedReader<'r, R> {
    /// A reader whose reads are counted from now on.
    pub fn new(reader: &'r mut R) -> CountedReader<'r, R>
        ensures same_reference { result.reader.ghost_name ≡ reader.entry.ghost_name }
        ensures reader { result.reader.now ≡ reader.old }
        ensures reads { result.reads ≡ 0 }
        ensures failed { result.failed ≡ false }
    {
        CountedReader {
            reader,
            reads: 0,
            failed: false,
            error: None,
        }
    }

    /// The number of reads.
    pub fn reads(&self) -> u32
        ensures { result ≡ self.now.reads }
    {
        self.reads
    }

    /// Whether the reader returned an error.
    pub fn has_failed(&self) -> bool
        ensures { result ≡ self.now.failed }
    {
        self.failed
    }

    /// The last error that the reader returned.
    pub fn error(&self) -> Option<io::Error> {
        self.error
    }

    /// Reads once. Returns the reader's error, if it fails.
    pub fn read(&mut self, buf: &mut [u8]) -> io::Result<usize>
        requires { self.old.reads < 4294967295 }
        ensures same_reference { self.new.reader.ghost_name ≡ self.old.reader.ghost_name }
        ensures bound { ReadsAtMost result buf.new }
        ensures bytes { ReadConsumes (R.remaining self.old.reader.now) (R.remaining self.new.reader.now) result buf.new }
        ensures reads { self.new.reads ≡ self.old.reads + 1 }
        // An error sets the flag; nothing else changes it.
        ensures failed { OnErr result (self.new.failed ≡ true) }
        ensures given { OnOk result (self.new.failed ≡ self.old.failed) }
    {
        self.reads += 1;
        let given = self.reader.read(buf);
        if let Err(error) = given {
            self.failed = true;
            self.error = Some(error);
        }
        given
    }
}
