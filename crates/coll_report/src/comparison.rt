ghost use Rattle.std.specs.Prelude.{◌≡◌, ◌↔◌, [], ◌∷◌, List, map, IsTrue, IfOk, OnErr, Some, slice_get};
ghost use Rattle.coll_report.specs.Scripts.{Command as ScriptCommand, Says};
ghost use Rattle.coll_report.specs.Comparisons.{Compared, IsOf, SaysLeft, all_said, said, ticket_made};
ghost use Rattle.coll_report.specs.Posts.{posts_left};
ghost use Rattle.coll_report.specs.Views.{seen};

use crate::command::Command;
use crate::entry::Entry;
use crate::posts::Posts;
use coll_kinds::{Signature, Ticket};
use std::alloc::{AllocError, Global};
use std::marker::Model;

/// A rank's posts, initialisations and starts, to be compared with its commands one after the other.
#[derive(Drop)]
pub struct Comparison<'a> {
    posts: Posts<'a>,
    tickets: Vec<Ticket>,
}

impl<'a> Model for Comparison<'a> {
    ghost use Rattle.coll_report.specs.Comparisons.{Compared};
    ghost use Rattle.coll_report.specs.Posts.{posts_left};

    ghost Value = { Compared };

    ghost view = { λ c. record { tickets = c.tickets.items; left = posts_left c.posts } };
}

impl<'a> Comparison<'a> {
    /// A comparison of these posts, initialisations and starts, before the rank's first command. Takes no memory.
    pub fn new(alloc: Global, posts: Posts<'a>) -> Comparison<'a>
        ensures { result ≡ record { tickets = []; left = posts_left posts.entry } }
    {
        Comparison {
            posts,
            tickets: Vec::new(alloc),
        }
    }

    /// Whether the next of them is the command's, or the command has none. Passes by what it compared.
    ///
    /// # Errors
    ///
    /// Where memory was refused; then nothing was passed by.
    pub fn next_is(&mut self, command: Command<'_>) -> Result<bool, AllocError>
        ensures ok { IfOk result (λ same. (rest : List ScriptCommand) →
            SaysLeft self.old (said command.entry ∷ rest) ↔ (IsTrue same × SaysLeft self.new rest)) }
        ensures err { OnErr result (self.new ≡ self.old) }
    {
        if let Command::Other = command {
            return Ok(true);
        }
        self.tickets.reserve(1)?;
        let Some(entry) = self.posts.next() else {
            return Ok(false);
        };
        let same = is_of(self.tickets.as_slice(), command, entry);
        if let Some(ticket) = entry.made() {
            self.tickets.push_reserved(ticket);
        }
        Ok(same)
    }

    /// Whether all of them were compared. Linear in what is left.
    pub fn is_over(&self) -> bool
        ensures { IsTrue result ↔ SaysLeft self.now [] }
    {
        self.posts.is_over()
    }
}

/// Whether these posts, initialisations and starts are those of the commands, one for one and in their order.
///
/// # Errors
///
/// Where memory was refused.
pub fn follows(
    alloc: Global,
    posts: Posts<'_>,
    commands: &[Command<'_>],
) -> Result<bool, AllocError>
    ensures { IfOk result (λ same. IsTrue same ↔ Says [] (all_said commands.entry.now) (posts_left posts.entry)) }
{
    let mut comparison = Comparison::new(alloc, posts);
    for command in commands {
        if !comparison.next_is(*command)? {
            return Ok(false);
        }
    }
    Ok(comparison.is_over())
}

/// Whether the entry is the command's, where these are the tickets of the rank's requests so far.
fn is_of(tickets: &[Ticket], command: Command<'_>, entry: &Entry) -> bool
    ensures { IsTrue result ↔ IsOf tickets.now (said command.entry) (seen entry.now) }
{
    match command {
        Command::Post {
            comm: on,
            sig: wanted,
            given,
        } => match entry {
            Entry::Posted {
                comm,
                sig,
                bytes,
                ..
            } => is_posting(*comm, sig, on, &wanted) && is_given(bytes.as_slice(), given),
            Entry::Inited { .. } => false,
            Entry::Started { .. } => false,
            Entry::Retired { .. } => false,
            Entry::Freed { .. } => false,
        },
        Command::Init {
            comm: on,
            sig: wanted,
        } => match entry {
            Entry::Posted { .. } => false,
            Entry::Inited { comm, sig, .. } => is_posting(*comm, sig, on, &wanted),
            Entry::Started { .. } => false,
            Entry::Retired { .. } => false,
            Entry::Freed { .. } => false,
        },
        Command::Start { request, given } => match entry {
            Entry::Posted { .. } => false,
            Entry::Inited { .. } => false,
            Entry::Started { ticket, bytes, .. } => {
                names(tickets, request, *ticket) && is_given(bytes.as_slice(), given)
            }
            Entry::Retired { .. } => false,
            Entry::Freed { .. } => false,
        },
        Command::Other => false,
    }
}

fn is_posting(comm: u32, sig: &Signature, on: u32, wanted: &Signature) -> bool
    ensures { IsTrue result ↔ ((comm ≡ on) × (sig.now ≡ wanted.now)) }
{
    comm == on && sig.is_same(wanted)
}

fn is_given(bytes: &[u8], given: &[u8]) -> bool
    ensures { IsTrue result ↔ (bytes.now ≡ given.now) }
{
    bytes == given
}

/// Whether the request of that number has the ticket.
fn names(tickets: &[Ticket], number: u32, ticket: Ticket) -> bool
    ensures { IsTrue result ↔ (slice_get tickets.now number ≡ Some ticket) }
{
    match tickets.get(number as usize) {
        None => false,
        Some(named) => is_ticket(*named, ticket),
    }
}

fn is_ticket(one: Ticket, other: Ticket) -> bool
    ensures { IsTrue result ↔ (one ≡ other) }
{
    one == other
}
