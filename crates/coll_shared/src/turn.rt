//! What a thread with the lock does to go on with what is ready: a waiting port, a test, or a
//! progress thread.

ghost use Rattle.std.specs.Prelude.{◌≡◌, IfErr};
ghost use Rattle.coll_traced.specs.Awaiting.{IsHindrance, IsSetback};

use crate::combiner::{Combiner, Held};
use crate::gate::Gate;
use crate::locked::{STEPS, Successor};
use crate::record::PublicationRecord;
use coll_core::{Stepped, Work};
use coll_kinds::Refusal;
use coll_spin::{SpinPolicy, pause_with_the_lock};
use coll_traced::Entries;
use std::rt::Clock;
use std::sync::Wait;

/// How many combinations a waiting port computes in a row.
const CHAIN: u32 = 16;

/// How the session of a waiting port with the lock ended. The lock is free again.
#[derive(Drop)]
pub(crate) enum Turn {
    /// There is an answer.
    Over,
    /// It spins on its record.
    Spin,
    /// It sleeps.
    Park,
}

/// What a waiting port with the lock does next.
enum Next {
    /// It checks again.
    Again,
    /// It computes a combination, with the lock free.
    Compute(Work),
    /// It ends its session.
    End(Turn),
}

/// What a waiting port did in its session.
#[derive(Clone, Copy, Default)]
struct Effort {
    steps: u32,
    combinations: u32,
    /// How often nothing was ready since the last step or longer combination.
    looks: u32,
}

impl<L: Entries> Combiner<L> {
    /// Gives the lock up, and calls the gate for the combination whose result was written
    /// meanwhile.
    fn leave<'a, G: Gate>(&'a self, gate: &G, held: Held<'a, L>, written: Option<u64>) {
        self.release(held);
        if let Some(piece) = written {
            gate.after(piece);
        }
    }

    /// Runs a session of a waiting port, which holds the lock.
    ///
    /// # Errors
    ///
    /// Stalled if the engine is deadlocked; NoMemory and Stale of a step or a combination. The
    /// port's wait is over then.
    pub(crate) fn turn<'a, R: Wait, G: Gate>(
        &'a self,
        rt: &R,
        gate: &G,
        mut held: Held<'a, L>,
        rank: u8,
        record: &PublicationRecord<L>,
        policy: SpinPolicy,
    ) -> Result<Turn, Refusal>
        ensures { IfErr result (IsHindrance L.setting rank) }
    {
        let mut written = None;
        let mut effort = Effort::default();
        record.heed();
        for _ in rt.forever() {
            self.combine(&mut held);
            if gate.is_always_open() {
                held = self.compute_short(rt, held, rank)?;
            }
            match self.next(&mut held, rank, record, policy, &mut effort) {
                Ok(Next::Again) => {}
                Ok(Next::Compute(work)) => {
                    let (again, piece) = self.compute(rt, gate, held, Some(rank), written, work)?;
                    held = again;
                    written = Some(piece);
                }
                Ok(Next::End(turn)) => {
                    self.leave(gate, held, written);
                    return Ok(turn);
                }
                Err(why) => {
                    held.locked.give_up(Some(rank));
                    self.leave(gate, held, written);
                    return Err(why);
                }
            }
        }
        unreachable!()
    }

    /// Computes the short combinations that come first, at most `STEPS` of them, in a waiting
    /// port's session. The bound is needed because a sleeping port whose request is done is woken
    /// only at the session's end, and the other ranks could go on for ever.
    ///
    /// # Errors
    ///
    /// As `compute`.
    fn compute_short<'a, R: Wait>(
        &'a self,
        rt: &R,
        mut held: Held<'a, L>,
        rank: u8,
    ) -> Result<Held<'a, L>, Refusal>
        ensures { IfErr result IsSetback }
    {
        for _ in 0..STEPS {
            let Some(work) = held.locked.traced.hand_out_short() else {
                break;
            };
            let _piece = held.locked.next_piece();
            let (mut again, done) = self.compute_between(rt, held, work);
            if let Err(why) = again.locked.write_short(done) {
                again.locked.give_up(Some(rank));
                self.release(again);
                return Err(why);
            }
            again.locked.advance();
            held = again;
        }
        self.answer_met(&mut held);
        Ok(held)
    }

    /// Returns what a waiting port does next.
    fn next(
        &self,
        held: &mut Held<'_, L>,
        rank: u8,
        record: &PublicationRecord<L>,
        policy: SpinPolicy,
        effort: &mut Effort,
    ) -> Result<Next, Refusal>
        ensures { IfErr result (IsHindrance L.setting rank) }
    {
        if record.is_answered() {
            record.set_leads(true);
            return Ok(Next::End(Turn::Over));
        }
        if effort.is_enough() {
            return Ok(Next::End(Turn::Spin));
        }
        if held.locked.traced.is_ready() {
            return Ok(match held.locked.step()? {
                Stepped::Out(work) => effort.compute(work),
                Stepped::Quiet | Stepped::Moved | Stepped::Finished => effort.step(),
            });
        }
        if held.locked.is_stalled(rank) {
            return Err(Refusal::Stalled);
        }
        if effort.looks < policy.spins_with_lock() && !self.is_wanted() {
            let is_stalled = effort.is_doubled() && held.locked.traced.stall_now();
            if !is_stalled {
                return Ok(effort.look());
            }
        }
        if policy.is_over() {
            held.locked.parked = held.locked.parked.with(rank);
            return Ok(Next::End(Turn::Park));
        }
        Ok(Next::End(Turn::Spin))
    }

    /// Computes a combination with the lock free, and writes its result. First the gate is called
    /// for the combination written before. At the end the lock is held again, and the gate is still
    /// to be called for this combination.
    ///
    /// # Errors
    ///
    /// NoMemory if the combination was refused memory; Stale if its result isn't wanted any longer.
    /// The lock is free then, and the wait of the port that computed it is over.
    fn compute<'a, R: Wait, G: Gate>(
        &'a self,
        rt: &R,
        gate: &G,
        mut held: Held<'a, L>,
        rank: Option<u8>,
        written: Option<u64>,
        work: Work,
    ) -> Result<(Held<'a, L>, u64), Refusal>
        ensures { IfErr result IsSetback }
    {
        let piece = held.locked.next_piece();
        held.locked.set_away(rank, true);
        self.leave(gate, held, written);
        gate.before(piece);
        let computed = work.run();
        let mut held = self.enter(rt);
        held.locked.set_away(rank, false);
        if let Err(why) = held.locked.write(computed) {
            held.locked.give_up(rank);
            self.release(held);
            return Err(why);
        }
        Ok((held, piece))
    }

    /// Takes the lock for a test, and makes progress: the steps that need no combination, and one
    /// combination if nobody else is there to compute it. That combination has no number, and no
    /// gate is called for it. If it is refused, the next call finds it again.
    pub(crate) fn enter_to_test<R: Wait>(&self, rt: &R) -> Held<'_, L> {
        let mut held = self.enter(rt);
        self.combine(&mut held);
        if held.locked.successor() != Successor::Nobody {
            return held;
        }
        let Ok(stepped) = held.locked.step() else {
            return held;
        };
        match stepped {
            Stepped::Out(work) => self.compute_unseen(rt, held, work),
            Stepped::Quiet | Stepped::Moved | Stepped::Finished => held,
        }
    }

    /// Computes a combination with the lock free, which no gate sees. Then the lock is held again,
    /// and what was published meanwhile is done.
    fn compute_unseen<'a, R: Wait>(&'a self, rt: &R, held: Held<'a, L>, work: Work) -> Held<'a, L> {
        self.release(held);
        let computed = work.run();
        let mut held = self.enter(rt);
        let _ = held.locked.write(computed);
        self.combine(&mut held);
        held
    }

    /// Runs a progress thread until it is stopped. Returns how many combinations it computed.
    ///
    /// # Errors
    ///
    /// NoMemory of a step or a combination; Stale if the result of a combination isn't wanted any
    /// longer.
    pub(crate) fn work<R: Wait + Clock, G: Gate>(&self, rt: &R, gate: &G) -> Result<u64, Refusal>
        ensures { IfErr result IsSetback }
    {
        let mut computed = 0u64;
        let mut written = None;
        let mut held = self.enter(rt);
        for _ in rt.forever() {
            self.combine(&mut held);
            if held.locked.stopped {
                self.leave(gate, held, written);
                return Ok(computed);
            }
            if !held.locked.traced.is_ready() {
                held = self.idle(rt, gate, held, written);
                written = None;
                continue;
            }
            match held.locked.step() {
                Ok(Stepped::Out(work)) => {
                    let (again, piece) = self.compute(rt, gate, held, None, written, work)?;
                    held = again;
                    written = Some(piece);
                    computed = computed.saturating_add(1);
                }
                Ok(Stepped::Quiet | Stepped::Moved | Stepped::Finished) => {
                    self.leave(gate, held, written);
                    written = None;
                    held = self.enter(rt);
                }
                Err(why) => {
                    self.leave(gate, held, written);
                    return Err(why);
                }
            }
        }
        unreachable!()
    }

    /// Lets a progress thread that holds the lock wait until it is called, because nothing is ready,
    /// and take the lock again. It is counted under the lock, so that a thread which makes something
    /// ready later calls it.
    fn idle<'a, R: Wait + Clock, G: Gate>(
        &'a self,
        rt: &R,
        gate: &G,
        mut held: Held<'a, L>,
        written: Option<u64>,
    ) -> Held<'a, L> {
        held.locked.idle = held.locked.idle.saturating_add(1);
        let calls = self.idlers.calls();
        self.leave(gate, held, written);
        if !self.idlers.linger(rt, self.processors.linger(rt), calls) {
            self.falls_asleep();
            self.idlers.sleep(rt, calls);
            self.wakes_up();
        }
        let mut held = self.enter(rt);
        held.locked.idle = held.locked.idle.saturating_sub(1);
        held
    }
}

impl Effort {
    /// Tells whether the port has done its part, and is to spin on its record.
    fn is_enough(&self) -> bool {
        self.steps >= STEPS || self.combinations >= CHAIN
    }

    /// Notes a step.
    fn step(&mut self) -> Next {
        self.looks = 0;
        self.steps = self.steps.saturating_add(1);
        Next::Again
    }

    /// Notes a combination that is to be computed.
    fn compute(&mut self, work: Work) -> Next {
        self.looks = 0;
        self.combinations = self.combinations.saturating_add(1);
        Next::Compute(work)
    }

    /// Notes that nothing was ready.
    fn look(&mut self) -> Next {
        pause_with_the_lock(self.looks);
        self.looks = self.looks.saturating_add(1);
        Next::Again
    }

    /// Tells whether to check for a deadlock now: after twice as many spins each time.
    fn is_doubled(&self) -> bool {
        self.looks.is_power_of_two()
    }
}
