//! An engine that ranks share.

ghost use Rattle.std.specs.Prelude.{◌≡◌, ◌<◌, IfErr, IfOk, map};
ghost use Rattle.std.specs.List.{range_with_len};
ghost use Rattle.coll_core.specs.Configs.{Fits, IsUnopened, setting_by};
ghost use Rattle.coll_kinds.specs.declared.refusal.ConfigField.TheVariants.{Slots, Places, Wear, Starts, Trace};
ghost use Rattle.coll_core.specs.Communicators.{groups_seen};
ghost use Rattle.coll_traced.specs.Awaiting.{IsSetback};
ghost use Rattle.coll_shared.specs.Ports.{opened};

use crate::combiner::Combiner;
use crate::gate::Gate;
use crate::inspect::Inspect;
use crate::port::Port;
use coll_core::{Communicators, Config};
use coll_kinds::Refusal;
use coll_traced::{Entries, Replacement, Tally, TracedCore};
use std::alloc::Global;
use std::rt::Clock;
use std::sync::ledger::{Blank, Share};
use std::sync::{Arc, Wait};

/// Returns a configuration with much room, all in range: 4,096 live requests at one time; for each
/// member 65,536 posts and initialisations on each communicator; 1,048,576 starts of each request;
/// a trace of 1,048,576 entries; and as many requests in each slot as it can have, one after the
/// other.
pub fn roomy(ranks: u8, groups: Vec<Vec<u8>>) -> Config
    ensures ranks { result.ranks ≡ ranks }
    ensures groups { result.groups ≡ groups }
    ensures room { (result.slots ≡ 4096) × (result.places ≡ 65536) × (result.wear ≡ 4294967295) × (result.starts ≡ 1048576) × (result.trace ≡ 1048576) }
    ensures sizes { Fits result Slots × Fits result Places × Fits result Wear × Fits result Starts × Fits result Trace }
{
    Config {
        ranks,
        groups,
        slots: 4_096,
        places: 65_536,
        wear: 4_294_967_295,
        starts: 1_048_576,
        trace: 1_048_576,
    }
}

/// An engine that ranks share, each through its port.
#[derive(Drop)]
pub struct Engine<L: Entries> {
    pub(crate) combiner: Arc<Combiner<L>>,
    pub(crate) replacement: Replacement,
    pub(crate) ghost setting_is: { replacement ≡ L.setting },
    pub(crate) ghost has_ranks: { 0 < L.setting.ranks },
}

impl<L: Entries> Engine<L> {
    /// Runs the calling thread as a progress thread until `stop`. It makes steps, and computes
    /// combinations with the lock free. While no request is ready it looks for work for a while, then
    /// sleeps. Returns how many combinations it computed; the count saturates.
    ///
    /// # Errors
    ///
    /// NoMemory for a step or for a combination, which is given back. Stale if the result of a
    /// combination isn't wanted any longer.
    pub fn work<R: Wait + Clock, G: Gate>(&self, rt: &R, gate: &G) -> Result<u64, Refusal>
        ensures refused { IfErr result IsSetback }
    {
        self.combiner.work(rt, gate)
    }

    /// Lets progress threads end.
    pub fn stop<R: Wait>(&self, rt: &R) {
        let mut held = self.combiner.enter(rt);
        held.locked.stopped = true;
        self.combiner.release(held);
        self.combiner.idlers.call_all();
    }

    /// Returns how many threads sleep in the engine: waiting ports and progress threads. Reads
    /// without the lock.
    pub fn sleepers(&self) -> u64 {
        self.combiner.sleepers()
    }

    /// Returns how many ports have published a post, a start or a wait that no thread has served
    /// yet. Reads without the lock.
    pub fn published(&self) -> u64 {
        self.combiner.published()
    }

    /// Shows the state under the lock to `inspector`, for tests and tools.
    pub fn inspect<R: Wait, I: Inspect<L>>(&self, rt: &R, inspector: &mut I) {
        let held = self.combiner.enter(rt);
        inspector.inspect(&held.locked.traced);
        self.combiner.release(held);
    }
}

/// Opens an engine with a port for each rank, in the order of ranks. `entries` names the ledger of
/// the trace's entries, with a part for each rank. Takes all memory for notes on what ports wait
/// for: eight bytes for each slot at each rank.
///
/// # Errors
///
/// BadConfig with the first field that is out of its range, then NoMemory.
pub fn open<L: Entries>(
    alloc: Global,
    config: Config,
    entries: Blank,
) -> Result<(Engine<L>, Vec<Port<L>>), Refusal>
    requires name { entries.name ≡ L.name }
    requires parts { (entries.parts ≡ L.parts) × (L.parts ≡ config.ranks) }
    requires setting { L.setting ≡ setting_by config }
    ensures ports { IfOk result (λ r. r.1.items ≡ map (opened (groups_seen config.groups.items)) (range_with_len 0 config.ranks)) }
    ensures refused { IfErr result (IsUnopened config) }
{
    config.check()?;
    let ranks = config.ranks;
    let communicators = Communicators::of(alloc, &config)?;
    let replacement = Replacement::open(alloc, &config)?;
    let (book, rest) = entries.open::<L>();
    let traced = TracedCore::open(alloc, config, book)?;
    let combiner = Arc::new(alloc, Combiner::open(alloc, traced, ranks)?)?;
    let ports = ports_of(alloc, &combiner, &communicators, ranks, rest)?;
    Ok((
        Engine {
            combiner,
            replacement,
        },
        ports,
    ))
}

/// Makes a port for each rank.
fn ports_of<L: Entries>(
    alloc: Global,
    combiner: &Arc<Combiner<L>>,
    communicators: &Communicators,
    ranks: u8,
    mut shares: Share<L>,
) -> Result<Vec<Port<L>>, Refusal>
    requires shares { (shares.parts ≡ ranks) × (shares.amount ≡ 0) }
    requires ranks { ranks ≡ L.setting.ranks }
    ensures ports { IfOk result (λ ports. ports.items ≡ map (opened communicators.now) (range_with_len 0 ranks)) }
    ensures refused { IfErr result (λ why. why ≡ Refusal.NoMemory) }
{
    let mut ports = Vec::with_capacity(alloc, ranks as usize)?;
    for rank in 0..ranks {
        let tally = Tally::new(shares.split_off(1, 0));
        let own = Arc::try_clone(combiner)?;
        let copy = communicators.copy(alloc)?;
        ports.push_reserved(Port::new(alloc, own, rank, copy, tally));
    }
    Ok(ports)
}
