ghost use Rattle.std.specs.Prelude.{◌≡◌, IfErr, IfOk};
ghost use Rattle.coll_core.specs.Configs.{setting_by};

use coll_core::{Config, copied_groups};
use coll_kinds::Refusal;
use std::alloc::Global;

/// Copies a configuration.
pub(crate) fn copied_config(alloc: Global, config: &Config) -> Result<Config, Refusal>
    ensures config { IfOk result (λ copy. setting_by copy ≡ setting_by config.now) }
    ensures refused { IfErr result (λ why. why ≡ Refusal.NoMemory) }
{
    Ok(Config {
        ranks: config.ranks,
        groups: copied_groups(alloc, &config.groups)?,
        slots: config.slots,
        places: config.places,
        wear: config.wear,
        starts: config.starts,
        trace: config.trace,
    })
}
