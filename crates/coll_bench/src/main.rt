//! Times what the engine is made of. A word on the command line names a part: `reductions` of rows of bytes, `calls` of the
//! core, `operations` over ports in threads, or `overlap` of these with computing; with a second word it is timed.
//! `operations times MEASURE RANKS` times one measure alone, by its number from 1.
//! `overlap times COLLECTIVE BYTES RANKS WORKERS clock|work TESTS PERCENT` times one collective, whose ranks compute so many
//! per cent of the time that the collective takes alone, and test each TESTS nanoseconds (0: never). Without a word each
//! part is run once, and prints what it did.
#![tactic(auto)]

mod bench;
mod calls;
mod collective;
mod computing;
mod measure;
mod operations;
mod overlap;
mod overlapping;
mod player;
mod reductions;
mod rows;
mod running;

use crate::collective::Collective;
use crate::computing::Measured;
use crate::overlap::Overlap;
use crate::running::ThreadCounts;
use std::env;

/// Whether a part is to be run: the word names it, or there is no word.
fn is_wanted(named: &Option<String>, part: &str) -> bool {
    match named {
        Some(word) => word.as_str() == part,
        None => true,
    }
}

/// A word of those after `overlap times`.
fn word_at(words: &[String], at: usize) -> anyhow::Result<&str> {
    match words.get(at) {
        Some(word) => Ok(word.as_str()),
        None => anyhow::bail!(
            "overlap times COLLECTIVE BYTES RANKS WORKERS clock|work TESTS PERCENT"
        ),
    }
}

/// What the words after `overlap times` say.
fn overlap_of(words: &[String]) -> anyhow::Result<Overlap> {
    let bytes: u32 = word_at(words, 1)?.parse()?;
    let Some(collective) = Collective::of(word_at(words, 0)?, bytes) else {
        anyhow::bail!(
            "collectives are barrier, bcast, allreduce and alltoall, of a multiple of 8 bytes"
        );
    };
    let ranks: u8 = word_at(words, 2)?.parse()?;
    anyhow::ensure!((1..=64).contains(&ranks), "ranks are 1 to 64");
    let workers: u8 = word_at(words, 3)?.parse()?;
    let measured = match word_at(words, 4)? {
        "clock" => Measured::Clock,
        "work" => Measured::Work,
        _ => anyhow::bail!("ranks compute by the clock or by work"),
    };
    let between_tests: u64 = word_at(words, 5)?.parse()?;
    let percent: u64 = word_at(words, 6)?.parse()?;
    Ok(Overlap {
        collective,
        threads: ThreadCounts { ranks, workers },
        measured,
        between_tests,
        percent,
    })
}

fn main(rt: HostRuntime) -> anyhow::Result<()> {
    let mut words = env::args(&rt)?.skip(1);
    let named = words.next();
    let is_timed = words.next().is_some();
    if is_wanted(&named, "reductions") {
        reductions::run(&rt, is_timed)?;
    }
    if is_wanted(&named, "calls") {
        calls::run(&rt, is_timed)?;
    }
    if is_wanted(&named, "operations") {
        match (words.next(), words.next()) {
            (None, _) => operations::run(&rt, rt.alloc(), is_timed)?,
            (Some(measure), Some(ranks)) => {
                operations::time_one(&rt, rt.alloc(), measure.parse()?, ranks.parse()?)?;
            }
            (Some(_), None) => anyhow::bail!("after times stand a measure and the ranks"),
        }
    }
    if is_wanted(&named, "overlap") {
        if is_timed {
            let mut rest = Vec::new(rt.alloc());
            for word in words {
                rest.push(word)?;
            }
            overlap::time(&rt, rt.alloc(), overlap_of(&rest)?)?;
        } else {
            overlap::run(&rt, rt.alloc())?;
        }
    }
    Ok(())
}
