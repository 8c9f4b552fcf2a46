//! Where ranks stand: whether none can go on, and whether all are at their ends.

ghost use Rattle.std.specs.Prelude.{◌≡◌, ◌==◌, ℕ, IfOk, IsTrue, length, not, slice_get};
ghost use Rattle.std.specs.List.{list_all, list_any, range_with_len};
ghost use Rattle.coll_core.specs.Cores.{seen};
ghost use Rattle.coll_replay.specs.Calls.{IsBlocked, LacksDone};
ghost use Rattle.coll_replay.specs.Playing.{EndsThere, IsBlockedAt, StallsThere, at_in, commands_in, holding, is_at_end};

use crate::completing::surveyed;
use crate::player::Player;
use coll_core::Core;
use coll_deadlock::engine::quiet_stalls;
use coll_kinds::{Refusal, Ticket};
use coll_parser::{Command, Named};

/// Whether the engine can't go on, each rank is at its end or in a call that needn't return, and one isn't at its end.
pub(crate) fn is_stalled(
    core: &Core,
    lines: &[Vec<Command>],
    players: &[Player],
) -> Result<bool, Refusal>
    ensures { IfOk result (λ is_stalled. IsTrue is_stalled → StallsThere lines.now core.now players.now) }
{
    quiet_stalls(core);
    if !core.quiet() {
        return Ok(false);
    }
    if !is_one_short(lines, players) {
        return Ok(false);
    }
    are_blocked(core, lines, players)
}

/// Whether all ranks are at their ends.
pub(crate) fn are_at_ends(lines: &[Vec<Command>], players: &[Player]) -> bool
    ensures { IsTrue result → EndsThere lines.now players.now }
{
    players.len() == lines.len() && all_at_ends(lines, players)
}

fn all_at_ends(lines: &[Vec<Command>], players: &[Player]) -> bool
    ensures { result ≡ list_all (is_at_end lines.now players.now) (range_with_len 0 (length lines.now)) }
{
    (0..lines.len()).all(|rank| is_at_end(lines, players, rank))
}

fn is_one_short(lines: &[Vec<Command>], players: &[Player]) -> bool
    ensures { result ≡ list_any (λ rank. not (is_at_end lines.now players.now rank)) (range_with_len 0 (length lines.now)) }
{
    (0..lines.len()).any(|rank| !is_at_end(lines, players, rank))
}

fn is_at_end(lines: &[Vec<Command>], players: &[Player], rank: usize) -> bool
    ensures { result ≡ is_at_end lines.now players.now rank }
{
    at_in(players, rank) == commands_in(lines, rank).len()
}

fn at_in(players: &[Player], rank: usize) -> usize
    ensures { result ≡ at_in (slice_get players.now rank) }
{
    match players.get(rank) {
        Some(player) => player.at,
        None => 0,
    }
}

fn commands_in(lines: &[Vec<Command>], rank: usize) -> &[Command]
    ensures { result.now ≡ commands_in (slice_get lines.now rank) }
{
    match lines.get(rank) {
        Some(commands) => commands,
        None => &[],
    }
}

fn are_blocked(core: &Core, lines: &[Vec<Command>], players: &[Player]) -> Result<bool, Refusal>
    ensures { IfOk result (λ are_blocked. IsTrue are_blocked → (rank : ℕ) → IsBlockedAt (seen core.now) lines.now players.now rank) }
{
    for rank in 0..lines.len() {
        if !is_blocked_at(core, lines, players, rank)? {
            return Ok(false);
        }
    }
    Ok(true)
}

/// Whether a rank is at its end, or in a call that needn't return.
fn is_blocked_at(
    core: &Core,
    lines: &[Vec<Command>],
    players: &[Player],
    rank: usize,
) -> Result<bool, Refusal>
    ensures { IfOk result (λ is_blocked. IsTrue is_blocked → IsBlockedAt (seen core.now) lines.now players.now rank) }
{
    let Some(commands) = lines.get(rank) else {
        return Ok(false);
    };
    let Some(player) = players.get(rank) else {
        return Ok(false);
    };
    match commands.get(player.at) {
        Some(command) => is_blocked(core, rank, &player.held, command),
        None => Ok(true),
    }
}

/// Whether the call of a rank needn't return.
fn is_blocked(
    core: &Core,
    rank: usize,
    held: &[Option<Ticket>],
    command: &Command,
) -> Result<bool, Refusal>
    ensures { IfOk result (λ is_blocked. IsTrue is_blocked → IsBlocked (seen core.now) (holding held.now) command.now) }
{
    let Ok(rank) = u8::try_from(rank) else {
        return Ok(false);
    };
    match command {
        Command::Wait(q) => Ok(surveyed(core, rank, held, &Named::one(*q))?.has_pending),
        Command::WaitAll(named) => Ok(surveyed(core, rank, held, named)?.has_pending),
        Command::WaitAny(named) => lacks_done(core, rank, held, named),
        Command::WaitSome(named) => lacks_done(core, rank, held, named),
        _ => Ok(false),
    }
}

/// Whether some of these requests are active, and none is Done.
fn lacks_done(
    core: &Core,
    rank: u8,
    held: &[Option<Ticket>],
    named: &Named,
) -> Result<bool, Refusal>
    ensures { IfOk result (λ lacks. IsTrue lacks → LacksDone (seen core.now) (holding held.now) named.now) }
{
    let found = surveyed(core, rank, held, named)?;
    Ok(found.has_active && !found.has_done)
}
