ghost use Rattle.std.specs.Prelude.{◌≡◌, true, false, OnOk, OnErr};
ghost use Rattle.std.specs.Io.KnownBytes.{Appends};

use std::io;
use std::io::Write;

/// A writer that remembers whether an answer couldn't be written to it, and why. What is written beside answers goes to
/// `stream` directly and doesn't set the flag, since its failures are ignored.
#[derive(Drop)]
pub struct Witnessed<'w, W> {
    pub stream: &'w mut W,
    failed: bool,
    error: Option<io::Error>,
}

impl<'w, W: Write> Witnessed<'w, W> {
    /// A writer whose failures are remembered from now on.
    pub fn new(stream: &'w mut W) -> Witnessed<'w, W>
        ensures same_reference { result.stream.ghost_name ≡ stream.entry.ghost_name }
        ensures stream { result.stream.now ≡ stream.old }
        ensures failed { result.failed ≡ false }
    {
        Witnessed {
            stream,
            failed: false,
            error: None,
        }
    }

    /// Whether the writer returned an error, or took no byte.
    pub fn has_failed(&self) -> bool
        ensures { result ≡ self.now.failed }
    {
        self.failed
    }

    /// The last error that the writer returned.
    pub fn error(&self) -> Option<io::Error> {
        self.error
    }

    /// Writes all bytes, and flushes them. Returns the writer's error, if it fails.
    pub fn write_through(&mut self, bytes: &[u8]) -> io::Result<()>
        ensures same_reference { self.new.stream.ghost_name ≡ self.old.stream.ghost_name }
        ensures bytes { OnOk result (Appends (W.contents self.old.stream.now) (W.contents self.new.stream.now) bytes.now) }
        // An error sets the flag; nothing else changes it.
        ensures failed { OnErr result (self.new.failed ≡ true) }
        ensures taken { OnOk result (self.new.failed ≡ self.old.failed) }
    {
        let written = match self.stream.write_all(bytes) {
            Ok(()) => self.stream.flush(),
            Err(error) => Err(error),
        };
        if let Err(error) = written {
            self.failed = true;
            self.error = Some(error);
        }
        written
    }
}
