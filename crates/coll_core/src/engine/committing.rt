//! Handed-out combinations: their results come back, or they are given back undone.

ghost use Rattle.std.specs.Prelude.{◌≡◌, ◌↔◌, IfErr, IfOk, IfSome, IsTrue, OnErr, OnOk, is_ok, is_some};
ghost use Rattle.coll_lists.specs.Layouts.{sequence};
ghost use Rattle.coll_arena.specs.declared.list_name.ListName.TheVariants.{Ready, Running};
ghost use Rattle.coll_arena.specs.ListNames.{number_of};
ghost use Rattle.coll_core.specs.Steps.{CommitSteps, CommitsOwn, HasOwnResult, IsOut, IsWork, Returns};
ghost use Rattle.coll_core.specs.Works.{result_of};

use crate::engine::Core;
use crate::engine::stepping::advance;
use crate::short_work::{DoneShortWork, ShortWork};
use crate::stepped::Stepped;
use crate::work::{DoneWork, Work};
use coll_arena::ListName;
use coll_arena::laws::is_sound;
use coll_bytes::Bytes;
use coll_kinds::Refusal;

impl Core {
    /// Writes the result of a combination that was handed out, and lets its request go on. The
    /// result is always the combination of the request's own operands. The operands of a long
    /// combination aren't compared, because the work and the core's record are the two owners of
    /// the cell of its result.
    ///
    /// # Errors
    ///
    /// Stale, with nothing changed, unless the combination is out: the request runs, and its next
    /// action is this combination with these operands. The work is dropped.
    pub fn commit(&mut self, done: DoneWork) -> Result<Stepped, Refusal>
        ensures out { IsOut self.old done.piece → IsTrue (is_ok result) }
        ensures own { IfOk result (CommitsOwn self.old self.new done.piece) }
        ensures inside { IfOk result (λ stepped. IsWork stepped → ⊥) }
        ensures steps { IsOut self.old done.piece → IfOk result (CommitSteps self.old self.new done) }
        ensures err { OnErr result (self.new ≡ self.old) }
        ensures refused { IfErr result (λ why. why ≡ Refusal.Stale) }
    {
        let ticket = done.work().ticket();
        let Some(bytes) = self.result_by(done) else {
            return Err(Refusal::Stale);
        };
        is_sound(&self.arena);
        let Ok(request) = self.arena.get_mut(ticket) else {
            unreachable!()
        };
        request.write(bytes);
        Ok(Stepped::by(advance(&mut self.arena, &self.matches, ticket)))
    }

    /// Returns the result of a request's next combination, if the request runs and `done` belongs
    /// to it.
    fn result_by(&self, done: DoneWork) -> Option<Bytes>
        ensures own { IfSome result (HasOwnResult self.now done.piece) }
        ensures combined { done.bytes ≡ result_of done.piece }
        ensures out { IsOut self.now done.piece → IsTrue (is_some result) }
    {
        let ticket = done.work().ticket();
        let Ok(request) = self.arena.get(ticket) else {
            done.discard();
            return None;
        };
        if !self.arena.is_on(ticket, ListName::Running) {
            done.discard();
            return None;
        }
        request.result_by(done)
    }

    /// `commit` for a combination that was handed out by value.
    ///
    /// # Errors
    ///
    /// Stale, with nothing changed, as `commit`.
    pub fn commit_short(&mut self, done: DoneShortWork) -> Result<Stepped, Refusal>
        ensures out { IsTrue (is_ok result) ↔ IsOut self.old done.piece }
        ensures steps { IfOk result (CommitSteps self.old self.new done) }
        ensures inside { IfOk result (λ stepped. IsWork stepped → ⊥) }
        ensures err { OnErr result (self.new ≡ self.old) }
        ensures refused { IfErr result (λ why. why ≡ Refusal.Stale) }
    {
        if !self.is_short_out(done.work()) {
            done.discard();
            return Err(Refusal::Stale);
        }
        is_sound(&self.arena);
        let ticket = done.work().ticket();
        let Ok(request) = self.arena.get_mut(ticket) else {
            unreachable!()
        };
        request.write_short(done);
        Ok(Stepped::by(advance(&mut self.arena, &self.matches, ticket)))
    }

    /// Takes a handed-out combination back undone. Its request becomes the first ready one.
    ///
    /// # Errors
    ///
    /// Stale, with nothing changed, as `commit`.
    pub fn abandon(&mut self, work: Work) -> Result<(), Refusal>
        ensures out { IsTrue (is_ok result) ↔ IsOut self.old work }
        ensures back { OnOk result (Returns self.old self.new work) }
        ensures err { OnErr result (self.new ≡ self.old) }
        ensures refused { IfErr result (λ why. why ≡ Refusal.Stale) }
    {
        let ticket = work.ticket();
        let is_out = self.is_out(&work);
        work.discard();
        if !is_out {
            return Err(Refusal::Stale);
        }
        is_sound(&self.arena);
        let Ok(()) = self.arena.shift_front(ticket, ListName::Ready) else {
            unreachable!()
        };
        Ok(())
    }

    /// Tells whether this combination is handed out.
    fn is_short_out(&self, work: &ShortWork) -> bool
        ensures { IsTrue result ↔ IsOut self.now work.now }
    {
        let Ok(request) = self.arena.get(work.ticket()) else {
            return false;
        };
        self.arena.is_on(work.ticket(), ListName::Running) && request.stands_at_short(work)
    }

    /// Tells whether this combination is handed out.
    fn is_out(&self, work: &Work) -> bool
        ensures { IsTrue result ↔ IsOut self.now work.now }
    {
        let Ok(request) = self.arena.get(work.ticket()) else {
            return false;
        };
        self.arena.is_on(work.ticket(), ListName::Running) && request.stands_at(work)
    }
}
