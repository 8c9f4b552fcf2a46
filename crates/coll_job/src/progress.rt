//! Shows how far a long run is, in one line of a terminal.

use crate::screen::Screen;
use coll_run::Watch;
use std::alloc::{AllocError, Global};
use std::rt::Clock;
use std::sync::{Mutex, Wait};
use std::time::Instant;

/// The milliseconds from the beginning of a run until its progress is shown, and then between two lines.
const FIRST: u64 = 1_000;

const BETWEEN: u64 = 250;

/// Shows how far a run is: how many ranks are done, how many posts and starts are completed, and the time since it began. The
/// threads of the ranks show it as they go, so the line doesn't change while all of them wait.
#[derive(Drop)]
pub struct ProgressLine<'m, M: Clock + Wait, S: Screen> {
    machine: &'m M,
    alloc: Global,
    screen: &'m S,
    begin: Option<Instant>,
    state: Mutex<State>,
}

/// How far the run is, and what the screen shows of it.
#[derive(Clone, Copy)]
struct State {
    ranks: u8,
    ranks_done: u8,
    starts: usize,
    completed: usize,
    /// When the next line is due, in milliseconds from the beginning.
    due: u64,
    /// The width of the line on the screen, in columns.
    width: usize,
}

impl<'m, M: Clock + Wait, S: Screen> ProgressLine<'m, M, S> {
    /// The progress of a run that begins now.
    pub fn new(machine: &'m M, alloc: Global, screen: &'m S) -> ProgressLine<'m, M, S> {
        ProgressLine {
            machine,
            alloc,
            screen,
            begin: Instant::now(machine).ok(),
            state: Mutex::new(State {
                ranks: 0,
                ranks_done: 0,
                starts: 0,
                completed: 0,
                due: FIRST,
                width: 0,
            }),
        }
    }

    /// Clears the line on the screen.
    pub fn clear(&self) {
        let mut state = self.state.lock(self.machine);
        if state.width > 0 {
            self.put("", &mut state);
            self.screen.show("\r");
        }
    }

    /// Shows the line if it is due.
    fn show(&self, state: &mut State) {
        let Some(passed) = self.passed() else {
            return;
        };
        if passed < state.due {
            return;
        }
        state.due = passed.saturating_add(BETWEEN);
        if let Ok(line) = self.line(state, passed) {
            self.put(line.as_str(), state);
        }
    }

    /// Overwrites the line on the screen.
    fn put(&self, line: &str, state: &mut State) {
        let width = state.width;
        if let Ok(text) = format!(in self.alloc; "\r{line:<width$}") {
            self.screen.show(text.as_str());
            state.width = line.len();
        }
    }

    /// The line that reports the state after `passed` milliseconds.
    fn line(&self, state: &State, passed: u64) -> Result<String, AllocError> {
        let State {
            ranks,
            ranks_done,
            starts,
            completed,
            ..
        } = *state;
        let (seconds, tenths) = (passed / 1_000, passed % 1_000 / 100);
        format!(in self.alloc;
            "{ranks_done} of {ranks} ranks done, {completed} of {starts} collective calls completed, {seconds}.{tenths} s"
        )
    }

    /// The milliseconds since the run began; None if the clock can't be read.
    fn passed(&self) -> Option<u64> {
        let now = Instant::now(self.machine).ok()?;
        let passed = now.checked_duration_since(self.begin?)?;
        u64::try_from(passed.as_millis()).ok()
    }
}

impl<M: Clock + Wait, S: Screen> Watch for ProgressLine<'_, M, S> {
    fn begin(&self, ranks: u8, starts: usize) {
        let mut state = self.state.lock(self.machine);
        state.ranks = ranks;
        state.starts = starts;
    }

    fn completed(&self, count: usize) {
        let mut state = self.state.lock(self.machine);
        state.completed = state.completed.saturating_add(count);
        self.show(&mut state);
    }

    fn ended(&self) {
        let mut state = self.state.lock(self.machine);
        state.ranks_done = state.ranks_done.saturating_add(1);
        self.show(&mut state);
    }
}
