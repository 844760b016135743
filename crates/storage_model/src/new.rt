ghost use Rattle.std.specs.Prelude.{◌≡◌, IfOk};
ghost use Rattle.storage_model.specs.Storage.{empty};
ghost use Rattle.storage_model.specs.Model.{model};

use crate::storage::Storage;
use jf_base::Memory;
use std::alloc::Global;

impl Storage {
    /// A storage without objects and loans.
    pub fn new(alloc: Global) -> Result<Storage, Memory>
        ensures { IfOk result (λ s. model s ≡ empty) }
    {
        Ok(Storage {
            alloc,
            objects: Vec::new(alloc),
            loans: Vec::new(alloc),
            covers: Vec::new(alloc),
        })
    }
}
