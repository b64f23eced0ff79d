//! Whether keys rise.

ghost use Rattle.std.specs.Prelude.{◌≡◌, OnOk};
ghost use Rattle.entry_sort.specs.internal.Rises.{followed, no_keys};

use crate::last_key::LastKey;
use std::alloc::{AllocError, Global};

/// Whether each key that came is above the one before it.
#[derive(Drop)]
pub(crate) struct Rising {
    /// The key that came last, as long as all rise.
    last: LastKey,
    pub(crate) all_rise: bool,
}

impl Rising {
    /// No key came yet. It takes no memory.
    pub(crate) fn new(alloc: Global) -> Rising
        ensures { result ≡ no_keys }
    {
        Rising {
            last: LastKey::new(alloc),
            all_rise: true,
        }
    }

    /// Takes the next key.
    pub(crate) fn take(&mut self, key: &[u8]) -> Result<(), AllocError>
        ensures { OnOk result (self.new ≡ followed self.old key.now) }
    {
        if self.all_rise {
            self.all_rise = self.last.rise(key)?;
        }
        Ok(())
    }
}
