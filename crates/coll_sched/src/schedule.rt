ghost use Rattle.coll_sched.specs.Schedules.{IsRound, has_peer};
ghost use Rattle.std.specs.List.{list_any};
ghost use Rattle.std.specs.Prelude.{◌≡◌, ◌↔◌, ◌≤◌, ◌<◌, ◌+◌, ◌^◌, IsTrue, All, IfOk, IsOkUnless, IsSome, IfSome, count_by, length, slice_get};

use crate::action::Action;
use crate::point::Point;
use crate::region::Region;
use crate::round::Round;
use coll_kinds::Refusal;
use std::alloc::Global;
use std::marker::Model;

/// What one member does for one collective: a buffer of `size` bytes, into whose input region its
/// contribution is laid, rounds of actions on it, and the region where the outcome lies at the end.
#[derive(Debug, Drop)]
pub struct Schedule {
    size: u32,
    input: Region,
    output: Region,
    rounds: Vec<Round>,
}

impl Model for Schedule {
    ghost use Rattle.coll_sched.specs.Schedules.{Parts, IsSchedule};

    ghost Value = { Parts };

    ghost view = { λ s. record { size = s.size; input = s.input; output = s.output; rounds = s.rounds.items } };

    ghost invariant = { λ s. IsSchedule (record { size = s.size; input = s.input; output = s.output; rounds = s.rounds.items }) };
}

impl Schedule {
    ghost use Rattle.coll_sched.specs.Families.{laid_in};
    ghost use Rattle.coll_sched.specs.Schedules.{IsSchedule, exchanges};
    ghost use Rattle.coll_sched.specs.Actions.{Fits};
    ghost use Rattle.coll_sched.specs.Points.{IsPoint, Over, actions_of, remaining};

    /// The schedule of these parts, tested. It takes no memory, and its cost is at most
    /// quadratic in the actions of one round.
    ///
    /// None where
    /// - the input, the output or a region of an action leaves the buffer,
    /// - the regions of a Copy or of a Combine differ in length,
    /// - a Combine's operation isn't allowed on its type, or its length is no multiple of the width,
    /// - the actions of a round don't come in the order Send, Copy, Combine, Recv,
    /// - an action writes a byte that another one of its round reads or writes,
    /// - a round has two sends to one member, or two receives of one.
    ///
    /// An action's own regions may overlap.
    pub fn of_rounds(
        size: u32,
        input: Region,
        output: Region,
        rounds: Vec<Round>,
    ) -> Option<Schedule>
        ensures accepts { IsSome result ↔ IsSchedule (record { size = size; input = input; output = output; rounds = rounds.items }) }
        ensures value { IfSome result (λ s. s ≡ record { size = size; input = input; output = output; rounds = rounds.items }) }
    {
        if !input.is_inside(size) || !output.is_inside(size) || !are_rounds(&rounds, size) {
            return None;
        }
        Some(Schedule {
            size,
            input,
            output,
            rounds,
        })
    }

    /// The schedule of parts that are known to be lawful, as those of the builders, which prove it: no action is
    /// looked at, and the cost is constant.
    pub fn of_lawful_rounds(
        size: u32,
        input: Region,
        output: Region,
        rounds: Vec<Round>,
    ) -> Schedule
        requires { IsSchedule (record { size = size; input = input; output = output; rounds = rounds.items }) }
        ensures { result ≡ record { size = size; input = input; output = output; rounds = rounds.items } }
    {
        Schedule {
            size,
            input,
            output,
            rounds,
        }
    }

    /// The bytes of the buffer.
    pub fn size(&self) -> u32
        ensures { result ≡ self.now.size }
    {
        self.size
    }

    /// Where the contribution is laid.
    pub fn input(&self) -> Region
        ensures { result ≡ self.now.input }
    {
        self.input
    }

    /// Where the outcome lies after the last round.
    pub fn output(&self) -> Region
        ensures { result ≡ self.now.output }
    {
        self.output
    }

    /// The rounds, in order.
    pub fn rounds(&self) -> &[Round]
        ensures rounds { result.now ≡ self.now.rounds }
        ensures lawful { IsSchedule self.now }
    {
        self.rounds.as_slice()
    }

    /// The action at a point; None past the end of its round.
    pub fn action(&self, round: usize, index: usize) -> Option<Action>
        ensures is { result ≡ slice_get (actions_of self.now round) index }
        ensures fits { IfSome result (λ action. Fits self.now.size action) }
        ensures short { IsSome result → index + 1 < 2 ^ 63 }
    {
        match self.rounds.get(round) {
            Some(actions) => actions.actions().get(index).copied(),
            None => None,
        }
    }

    /// The point itself where it has an action, and else the first one after it that has, or the end.
    pub fn following(&self, round: usize, index: usize) -> Point
        requires round_in { round ≤ length self.now.rounds }
        requires index_in { index ≤ length (actions_of self.now round) }
        ensures over { Over self.now round index result.round result.index }
        ensures point { IsPoint self.now result.round result.index }
        ensures same { remaining self.now result.round result.index ≡ remaining self.now round index }
        ensures end { remaining self.now result.round result.index ≡ 0 ↔ result.round ≡ length self.now.rounds }
    {
        let mut point = Point { round, index };
        while point.round < self.round_count() && point.index >= self.len_of(point.round) {
            point = Point {
                round: point.round + 1,
                index: 0,
            };
        }
        point
    }

    // How many rounds there are.
    fn round_count(&self) -> usize
        ensures { result ≡ length self.now.rounds }
    {
        self.rounds.len()
    }

    // How many actions a round has.
    fn len_of(&self, round: usize) -> usize
        requires { round < length self.now.rounds }
        ensures { result ≡ length (actions_of self.now round) }
    {
        self.rounds[round].actions().len()
    }

    /// A buffer of the schedule's size with the contribution laid in, and zeros elsewhere.
    /// Refuses [`Refusal::NoMemory`] alone.
    pub fn lay_in(&self, alloc: Global, bytes: &[u8]) -> Result<Vec<u8>, Refusal>
        requires { length bytes.now ≡ self.now.input.len }
        ensures ok { IfOk result (λ buf. buf.items ≡ laid_in self.now bytes.now) }
        ensures refusal { IsOkUnless result Refusal.NoMemory }
    {
        let mut buf = vec![in alloc; 0; self.size as usize]?;
        self.input.write(bytes, &mut buf);
        Ok(buf)
    }

    /// Lays another contribution into a buffer of the schedule's size, whatever it held. It takes no memory.
    pub fn lay_in_again(&self, bytes: &[u8], buf: &mut [u8])
        requires contribution { length bytes.now ≡ self.now.input.len }
        requires size { length buf.old ≡ self.now.size }
        ensures { buf.new ≡ laid_in self.now bytes.now }
    {
        buf.fill(0);
        self.input.write(bytes, buf);
    }

    /// How many rounds have a Send or a Recv. The cost is linear in the actions.
    pub fn exchanges(&self) -> usize
        ensures { result ≡ exchanges self.now.rounds }
    {
        count_exchanges(&self.rounds)
    }
}

// Whether a schedule whose buffer has `size` bytes may have these rounds.
fn are_rounds(rounds: &[Round], size: u32) -> bool
    ensures { IsTrue result ↔ All (IsRound size) rounds.now }
{
    rounds.iter().all(|round| round.is_round(size))
}

// How many of the rounds have a Send or a Recv.
fn count_exchanges(rounds: &[Round]) -> usize
    ensures { result ≡ count_by (λ round. list_any has_peer round) rounds.now }
{
    let mut count: usize = 0;
    for round in rounds {
        if round.has_exchange() {
            count += 1;
        }
    }
    count
}
