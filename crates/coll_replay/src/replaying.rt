//! A whole schedule, on an engine of its own.

ghost use Rattle.std.specs.Prelude.{◌≡◌, IfOk, IfSome, IsTrue, OnOk};
ghost use Rattle.coll_core.specs.Configs.{setting_by};
ghost use Rattle.coll_core.specs.Cores.{seen, setting};
ghost use Rattle.coll_core.specs.Steps.{IsOut};
ghost use Rattle.coll_replay.specs.Playing.{Advances, AreBeginners, AreLines, EngineGoesOn, GoesOn, IsReplayed};
ghost use Rattle.coll_replay.specs.Witnesses.{EndsInSome, StallsInSome};
ghost use Rattle.coll_verdict.specs.Stalls.{lines_of};

use crate::carrying::carry_out;
use crate::player::Player;
use crate::schedule::Move;
use crate::standing::{are_at_ends, is_stalled};
use coll_core::{Config, Core, Stepped, Work, copied_groups};
use coll_deadlock::engine::{
    begins_where_opened, configs_are_groups, goes_on_by_calls, goes_on_by_commit, goes_on_by_step,
    goes_on_by_steps,
};
use coll_kinds::{Refusal, Refused};
use coll_parser::{Command, History};
use coll_script::Script;
use std::alloc::Global;

/// Whether the schedule brings the job to a deadlock: the engine can't go on, each rank is at its end or in a call that needn't
/// return, and one isn't at its end. The cost is that of a run of the job in one thread.
///
/// # Errors
///
/// [`Refusal::NoMemory`].
pub fn stalls_by(alloc: Global, script: &Script, schedule: &[Move]) -> Result<bool, Refusal>
    ensures { IfOk result (λ is_shown. IsTrue is_shown → StallsInSome script.now) }
{
    match replayed(alloc, script, schedule)? {
        Some(replay) => is_stalled(&replay.core, &replay.lines, &replay.players),
        None => Ok(false),
    }
}

/// Whether the schedule brings all ranks of the job to their ends.
///
/// # Errors
///
/// [`Refusal::NoMemory`].
pub fn ends_by(alloc: Global, script: &Script, schedule: &[Move]) -> Result<bool, Refusal>
    ensures { IfOk result (λ is_shown. IsTrue is_shown → EndsInSome script.now) }
{
    match replayed(alloc, script, schedule)? {
        Some(replay) => Ok(are_at_ends(&replay.lines, &replay.players)),
        None => Ok(false),
    }
}

/// What a schedule brought a job to.
#[derive(Drop)]
pub(crate) struct Replay {
    pub(crate) core: Core,
    pub(crate) lines: Vec<Vec<Command>>,
    pub(crate) players: Vec<Player>,
}

/// Carries a schedule out; None if one of its moves can't be made.
fn replayed(alloc: Global, script: &Script, schedule: &[Move]) -> Result<Option<Replay>, Refusal>
    ensures { IfOk result (λ found. IfSome found (λ replay. IsReplayed script.now replay.core replay.lines.items replay.players.items)) }
{
    let Replay {
        mut core,
        lines,
        mut players,
    } = opened(alloc, script)?;
    for next in schedule {
        if !follow(
            alloc,
            &mut core,
            script.history().groups(),
            &lines,
            &mut players,
            *next,
        )? {
            return Ok(None);
        }
    }
    Ok(Some(Replay {
        core,
        lines,
        players,
    }))
}

/// The engine of a job before its first call.
pub(crate) fn opened(alloc: Global, script: &Script) -> Result<Replay, Refusal>
    ensures { IfOk result (λ replay. IsReplayed script.now replay.core replay.lines.items replay.players.items) }
{
    configs_are_groups();
    begins_where_opened();
    let config = config_of(alloc, script)?;
    let core = Core::open(alloc, config)?;
    let lines = lines_of(alloc, script.history())?;
    let players = beginners(alloc, lines.len())?;
    Ok(Replay {
        core,
        lines,
        players,
    })
}

/// The configuration with which a run opens its engine.
fn config_of(alloc: Global, script: &Script) -> Result<Config, Refusal>
    ensures { IfOk result (λ config. (setting_by config).groups ≡ script.now.groups) }
{
    let history = script.history();
    let sizes = script.config();
    Ok(Config {
        ranks: history.ranks(),
        groups: copied_groups(alloc, history.groups())?,
        slots: sizes.slots,
        places: sizes.places,
        wear: sizes.wear,
        starts: sizes.starts,
        trace: sizes.trace,
    })
}

/// The lines of each rank, with the unwritten `waitall` at its end.
fn lines_of(alloc: Global, history: &History) -> Result<Vec<Vec<Command>>, Refusal>
    ensures { IfOk result (λ lines. AreLines lines.items (lines_of history.now)) }
{
    let mut lines = Vec::new(alloc);
    for rank in 0..history.ranks() {
        lines.push(history.commands_of(alloc, rank)?)?;
    }
    Ok(lines)
}

/// That many ranks before their first lines.
fn beginners(alloc: Global, count: usize) -> Result<Vec<Player>, Refusal>
    ensures { IfOk result (λ players. AreBeginners players.items) }
{
    let mut players = Vec::new(alloc);
    for _ in 0..count {
        players.push(Player {
            at: 0,
            held: Vec::new(alloc),
        })?;
    }
    Ok(players)
}

/// Makes a move. Returns false if it can't be made.
pub(crate) fn follow(
    alloc: Global,
    core: &mut Core,
    groups: &[Vec<u8>],
    lines: &[Vec<Command>],
    players: &mut Vec<Player>,
    next: Move,
) -> Result<bool, Refusal>
    ensures { IfOk result (λ is_made. IsTrue is_made → GoesOn lines.now core.old players.old.items core.new players.new.items) }
{
    match next {
        Move::Line { rank, takes } => carry(alloc, core, groups, lines, players, rank, takes),
        Move::Step => {
            step(core)?;
            Ok(true)
        }
        Move::Settle => {
            settle(core)?;
            Ok(true)
        }
    }
}

/// A rank carries its next line out.
fn carry(
    alloc: Global,
    core: &mut Core,
    groups: &[Vec<u8>],
    lines: &[Vec<Command>],
    players: &mut Vec<Player>,
    rank: u8,
    takes: Option<u32>,
) -> Result<bool, Refusal>
    ensures { IfOk result (λ is_made. IsTrue is_made → GoesOn lines.now core.old players.old.items core.new players.new.items) }
{
    let Some(commands) = lines.get(rank as usize) else {
        return Ok(false);
    };
    if rank as usize >= players.len() {
        return Ok(false);
    }
    let player = &mut players[rank as usize];
    let is_made = advance(alloc, core, groups, rank, commands, player, takes)?;
    goes_on_by_calls(core);
    Ok(is_made)
}

/// Carries the next of a rank's commands out, if it can.
fn advance(
    alloc: Global,
    core: &mut Core,
    groups: &[Vec<u8>],
    rank: u8,
    commands: &[Command],
    player: &mut Player,
    takes: Option<u32>,
) -> Result<bool, Refusal>
    ensures { IfOk result (λ is_made. IsTrue is_made → Advances core.old core.new rank commands.now player.old player.new) }
{
    let Some(command) = commands.get(player.at) else {
        return Ok(false);
    };
    if !carry_out(alloc, core, groups, rank, command, &mut player.held, takes)? {
        return Ok(false);
    }
    player.at += 1;
    Ok(true)
}

/// The engine carries out its first ready action, if there is one.
fn step(core: &mut Core) -> Result<(), Refusal>
    ensures { OnOk result (EngineGoesOn core.old core.new) }
{
    let stepped = core.step()?;
    goes_on_by_step(core);
    match stepped {
        Stepped::Quiet | Stepped::Moved | Stepped::Finished => Ok(()),
        Stepped::Out(work) => combine(core, work),
    }
}

/// Computes a combination that is out, and brings its result back.
fn combine(core: &mut Core, work: Work) -> Result<(), Refusal>
    requires { IsOut core.old work }
    ensures { OnOk result (EngineGoesOn core.old core.new) }
{
    let done = match work.run() {
        Ok(done) => done,
        Err(Refused { why, back }) => {
            back.discard();
            return Err(why);
        }
    };
    let stepped = core.commit(done)?;
    goes_on_by_commit(core);
    let _ = stepped.has_finished();
    Ok(())
}

/// The engine makes steps until none is ready.
fn settle(core: &mut Core) -> Result<(), Refusal>
    ensures { OnOk result (EngineGoesOn core.old core.new) }
{
    core.settle()?;
    goes_on_by_steps(core);
    Ok(())
}
