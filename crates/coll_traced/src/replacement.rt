ghost use Rattle.std.specs.Prelude.{◌≡◌, IfErr, IfOk};
ghost use Rattle.coll_core.specs.Configs.{IsUnopened, setting_by};

use crate::copied_config::copied_config;
use coll_core::{Config, Core};
use coll_kinds::Refusal;
use std::alloc::Global;
use std::marker::Model;

/// An empty core of the same setting, which takes an engine's place when the engine is closed, so
/// that closing takes no memory. Contracts see the setting.
#[derive(Drop)]
pub struct Replacement {
    pub(crate) config: Config,
    pub(crate) core: Core,
}

impl Model for Replacement {
    ghost use Rattle.std.specs.Prelude.{[]};
    ghost use Rattle.coll_machine.specs.Settings.{Setting};
    ghost use Rattle.coll_core.specs.Configs.{setting_by};
    ghost use Rattle.coll_traced.specs.Traced.{IsKept};

    ghost Value = { Setting };

    ghost view = { λ v. setting_by v.config };

    ghost invariant = { λ v. IsKept (setting_by v.config) v.config v.core [] 0 };
}

impl Replacement {
    /// Opens the replacement for an engine of this configuration. Takes as much memory as a core
    /// without requests.
    ///
    /// # Errors
    ///
    /// BadConfig with the first field that is out of its range, then NoMemory.
    pub fn open(alloc: Global, config: &Config) -> Result<Self, Refusal>
        ensures setting { IfOk result (λ replacement. replacement ≡ setting_by config.now) }
        ensures refused { IfErr result (IsUnopened config.now) }
    {
        config.check()?;
        let copy = copied_config(alloc, config)?;
        let own = copied_config(alloc, config)?;
        let core = match Core::open(alloc, own) {
            Ok(core) => core,
            Err(_) => return Err(Refusal::NoMemory),
        };
        Ok(Replacement { config: copy, core })
    }
}
