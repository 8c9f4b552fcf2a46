ghost use Rattle.std.specs.Prelude.{◌≡◌, ℕ, ◌+◌, ◌<◌, ◌≤◌, ◌++◌, ◌∷◌, [], List, length, OnOk, Some, slice_get};
ghost use Rattle.std.specs.List.{range_with_len, AllByRecursion};
ghost use Rattle.coll_kinds.specs.declared.kind.Mode.{Mode};
ghost use Rattle.coll_parser.specs.declared.command.Command.{Command};
ghost use Rattle.coll_parser.specs.declared.command.Command.TheVariants.{Start, Wait, Free, WaitAll};
ghost use Rattle.coll_parser.specs.Histories.{Posting, posting, postings, is_startable, is_persistent};
ghost use Rattle.coll_parser.specs.Code.{IsKept, IsNamed};

use crate::command::Command;
use crate::named::Named;
use coll_kinds::{Mode, Signature};
use std::alloc::AllocError;

/// What is kept of a request while its section is read.
#[derive(Debug, Drop)]
pub(crate) struct SectionEntry {
    pub(crate) comm: u8,
    pub(crate) sig: Signature,
    /// The line of its last start; 0 if there was none, or a wait has named the request since.
    pub(crate) since: u32,
    /// Whether a `free` has named it.
    pub(crate) freed: bool,
}

/// What is kept of a section while it is read.
#[derive(Debug, Drop)]
pub(crate) struct Section {
    pub(crate) entries: Vec<SectionEntry>,
    /// The line of the last `waitall` without words; 0 if there was none.
    pub(crate) waited: u32,
}

impl Section {
    /// Whether a `start` or a `free` may name the request. Constant time.
    pub(crate) fn is_startable(&self, q: u32) -> bool
        requires { q < length self.now.entries.items }
        ensures { (next : ℕ) (commands : List Command) (p : Posting) → IsKept next commands self.now
            → slice_get (postings commands) q ≡ Some p → result ≡ is_startable q p commands }
    {
        let entry = &self.entries[q as usize];
        is_persistent(entry.sig.mode) && !entry.freed && entry.since <= self.waited
    }

    /// Takes in a command of the line of that number. The cost is linear in the line.
    pub(crate) fn note(&mut self, line: u32, command: &Command) -> Result<(), AllocError>
        requires { IsNamed (length self.old.entries.items) command.now }
        ensures { OnOk result ((commands : List Command) → IsKept line commands self.old
            → IsKept (line + 1) (commands ++ command.now ∷ []) self.new) }
    {
        match command {
            Command::Post { comm, sig, .. } => self.make(*comm, *sig.sig())?,
            Command::Init { comm, sig } => self.make(*comm, *sig.sig())?,
            Command::Start { req, .. } => self.start(line, *req),
            Command::Wait(q) => self.wait(*q),
            Command::Free(q) => self.free(*q),
            Command::WaitAll(named) => self.wait_for(line, named),
            Command::Test(_) => {}
            Command::WaitAny(_) => {}
            Command::WaitSome(_) => {}
        }
        Ok(())
    }

    /// Adds a request.
    fn make(&mut self, comm: u8, sig: Signature) -> Result<(), AllocError>
        ensures { OnOk result ((line : ℕ) (commands : List Command) (c : Command) → IsKept line commands self.old
            → posting c ≡ Some (record { comm = comm; sig = sig }) → IsKept (line + 1) (commands ++ c ∷ []) self.new) }
    {
        self.entries.push(SectionEntry {
            comm,
            sig,
            since: 0,
            freed: false,
        })?;
        Ok(())
    }

    /// Notes a start in the line of that number. Constant time.
    fn start(&mut self, line: u32, q: u32)
        requires { q < length self.old.entries.items }
        ensures { (commands : List Command) (given : List ℕ) → IsKept line commands self.old
            → IsKept (line + 1) (commands ++ Start q given ∷ []) self.new }
    {
        self.entries[q as usize].since = line;
    }

    /// Notes a wait for one request. Constant time.
    fn wait(&mut self, q: u32)
        requires { q < length self.old.entries.items }
        ensures { (line : ℕ) (commands : List Command) → IsKept line commands self.old
            → IsKept (line + 1) (commands ++ Wait q ∷ []) self.new }
    {
        self.entries[q as usize].since = 0;
    }

    /// Notes the end of a request. Constant time.
    fn free(&mut self, q: u32)
        requires { q < length self.old.entries.items }
        ensures { (line : ℕ) (commands : List Command) → IsKept line commands self.old
            → IsKept (line + 1) (commands ++ Free q ∷ []) self.new }
    {
        self.entries[q as usize].freed = true;
    }

    /// Notes a wait for these requests. Constant time if they are all requests so far.
    fn wait_for(&mut self, line: u32, named: &Named)
        requires { AllByRecursion (λ q. q < length self.old.entries.items) named.now }
        ensures { (commands : List Command) → IsKept line commands self.old
            → IsKept (line + 1) (commands ++ WaitAll named.now ∷ []) self.new }
    {
        if named.is_first(self.entries.len()) {
            self.wait_all(line);
        } else {
            self.wait_each(named);
        }
    }

    /// Notes a wait for all requests so far. Constant time.
    fn wait_all(&mut self, line: u32)
        ensures { (commands : List Command) → IsKept line commands self.old
            → IsKept (line + 1) (commands ++ WaitAll (range_with_len 0 (length self.old.entries.items)) ∷ []) self.new }
    {
        self.waited = line;
    }

    /// Notes a wait for each of these requests, one after another.
    fn wait_each(&mut self, named: &Named)
        requires { AllByRecursion (λ q. q < length self.old.entries.items) named.now }
        ensures { (line : ℕ) (commands : List Command) → IsKept line commands self.old
            → IsKept (line + 1) (commands ++ WaitAll named.now ∷ []) self.new }
    {
        for index in 0..named.len() {
            let q = named.get(index);
            self.entries[q].since = 0;
        }
    }
}

fn is_persistent(mode: Mode) -> bool
    ensures { result ≡ is_persistent mode }
{
    matches!(mode, Mode::Persistent)
}
