ghost use Rattle.std.specs.Prelude.{◌≡◌, ◌⊎◌, All, Contains, IfErr, IfOk, None, Some, false, true};

use coll_kinds::Refusal;
use std::marker::Model;

/// How an engine's threads ended. Only [`run_rank_threads`](crate::run_rank_threads) makes one, so
/// whoever has one knows that the threads ran.
#[derive(Drop)]
pub struct Ends<T> {
    /// Whether each of them could be started. If not, no rank made a call.
    all_started: bool,
    /// How the ranks' threads ended, in rising rank.
    ranks: Vec<T>,
    /// Why a progress thread ended before it was to.
    workers: Vec<Option<Refusal>>,
}

impl<T> Model for Ends<T> {
    ghost use Rattle.coll_shared.specs.HowEnded.{HowEnded};

    ghost Value = { HowEnded T };

    ghost view = { λ e. record { all_started = e.all_started; ranks = e.ranks.items; workers = e.workers.items } };
}

impl<T: Drop> Ends<T> {
    /// Makes the ends of joined threads.
    pub(super) fn of(all_started: bool, ranks: Vec<T>, workers: Vec<Option<Refusal>>) -> Ends<T>
        ensures started { result.all_started ≡ all_started }
        ensures ranks { result.ranks ≡ ranks.items }
        ensures workers { result.workers ≡ workers.items }
    {
        Ends {
            all_started,
            ranks,
            workers,
        }
    }

    /// Returns whether each thread could be started, how the ranks' threads ended, in rising rank,
    /// and why a progress thread ended before it was to.
    pub fn into_parts(self) -> (bool, Vec<T>, Vec<Option<Refusal>>)
        ensures started { result.0 ≡ self.all_started }
        ensures ranks { result.1.items ≡ self.ranks }
        ensures workers { result.2.items ≡ self.workers }
    {
        let Ends {
            all_started,
            ranks,
            workers,
        } = self;
        (all_started, ranks, workers)
    }

    /// Returns how the ranks' threads ended, in rising rank.
    ///
    /// # Errors
    ///
    /// NoMemory if a thread couldn't be started; else why the first progress thread ended before it
    /// was to.
    pub fn into_ranks(self) -> Result<Vec<T>, Refusal>
        ensures started { IfOk result (λ ranks. self.all_started ≡ true) }
        ensures workers { IfOk result (λ ranks. All (λ end. end ≡ None) self.workers) }
        ensures ranks { IfOk result (λ ranks. ranks.items ≡ self.ranks) }
        ensures refused { IfErr result (λ why. ((self.all_started ≡ false) × (why ≡ Refusal.NoMemory)) ⊎ Contains self.workers (Some why)) }
    {
        let Ends {
            all_started,
            ranks,
            workers,
        } = self;
        if !all_started {
            return Err(Refusal::NoMemory);
        }
        match workers.iter().find_map(|end| *end) {
            Some(why) => Err(why),
            None => Ok(ranks),
        }
    }
}
