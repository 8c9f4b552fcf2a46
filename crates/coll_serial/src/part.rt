ghost use Rattle.std.specs.Prelude.{◌≡◌, ◌+◌, ◌-◌, ◌≤◌, false, true, is_none, if◌then◌else◌};
ghost use Rattle.coll_serial.specs.Parts.{generation_in, kept_in, slot_in, span_len, span_of, ticket_of};

use coll_complete::Request;
use coll_kinds::Ticket;

/// A request of a list, with its span of the memory that belongs to the list: `room` bytes from `at` on, as far as the memory
/// reaches.
#[repr(C)]
#[derive(Clone, Copy, Debug, PartialEq, Eq)]
pub struct Part {
    /// What names the request: the slot and the generation of its ticket, both 0 where it is null.
    pub slot: u32,
    pub generation: u32,
    pub at: usize,
    pub room: usize,
    /// The bytes of the outcome that the last test wrote at the front of the span.
    pub count: usize,
    /// Whether the last test completed the request.
    pub completed: bool,
}

const NULL: Ticket = Ticket {
    slot: 0,
    generation: 0,
};

impl Part {
    /// A request with the bytes from `at` on that are its span. No engine gives a ticket of generation 0, which would name
    /// nothing here.
    pub fn new(request: Request, at: usize, room: usize) -> Part
        ensures slot { result.slot ≡ slot_in request }
        ensures generation { result.generation ≡ generation_in request }
        ensures at { result.at ≡ at }
        ensures room { result.room ≡ room }
        ensures completed { result.completed ≡ false }
    {
        let ticket = request.ticket().unwrap_or(NULL);
        Part {
            slot: ticket.slot,
            generation: ticket.generation,
            at,
            room,
            count: 0,
            completed: false,
        }
    }

    /// The request, by which it can be tested, started and freed by itself.
    pub fn request(&self) -> Request
        ensures { result ≡ ticket_of self.now }
    {
        if self.generation == 0 {
            return Request::null();
        }
        Request::of(Ticket {
            slot: self.slot,
            generation: self.generation,
        })
    }

    /// Where its span begins and ends in memory of this many bytes.
    pub(crate) fn span(&self, len: usize) -> (usize, usize)
        ensures begin { result.0 ≡ len - (len - self.now.at) }
        ensures end { result.1 ≡ result.0 + span_len self.now len }
        ensures within { result.1 ≤ len }
    {
        let begin = if self.at < len { self.at } else { len };
        let rest = len - begin;
        if self.room < rest {
            (begin, begin + self.room)
        } else {
            (begin, len)
        }
    }

    /// Notes that the request was completed, and what is left of it: itself, or null.
    pub(crate) fn finish(&mut self, rest: &Request, count: usize)
        ensures request { ticket_of self.new ≡ kept_in rest.now (ticket_of self.old) }
        ensures at { self.new.at ≡ self.old.at }
        ensures room { self.new.room ≡ self.old.room }
        ensures count { self.new.count ≡ count }
        ensures completed { self.new.completed ≡ true }
    {
        if rest.is_null() {
            self.slot = 0;
            self.generation = 0;
        }
        self.count = count;
        self.completed = true;
    }

    /// Notes that the request wasn't completed.
    pub(crate) fn skip(&mut self)
        ensures request { ticket_of self.new ≡ ticket_of self.old }
        ensures at { self.new.at ≡ self.old.at }
        ensures room { self.new.room ≡ self.old.room }
        ensures count { self.new.count ≡ 0 }
        ensures completed { self.new.completed ≡ false }
    {
        self.count = 0;
        self.completed = false;
    }
}

/// The bytes of a part's span.
pub(crate) fn bytes_of<'m>(part: &Part, memory: &'m [u8]) -> &'m [u8]
    ensures { result.now ≡ span_of part.now memory.now }
{
    let (begin, end) = part.span(memory.len());
    &memory[begin..end]
}
