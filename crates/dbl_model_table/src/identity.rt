ghost use Rattle.std.specs.Prelude.{◌≡◌, IfOk};
ghost use Rattle.dbl_model_table.specs.Identities.{is_good_identity};

use crate::table::has_name_bytes;
use dbl_base::Text;
use std::alloc::{AllocError, Global};

/// What the records of one connector have in common.
#[derive(Debug, Drop)]
pub struct Identity {
    /// The first part of each topic's name, Debezium's `topic.prefix`.
    pub prefix: Text,
    /// The database's name.
    pub db: Text,
    /// The value of an unsent cell, Debezium's `unavailable.value.placeholder`.
    pub placeholder: Text,
}

impl Identity {
    /// Whether a connector may use it: the prefix and the database's name have 1 to 63 letters,
    /// digits, `_` and `-`, and the placeholder has 1 to 255 bytes. Takes no memory.
    pub fn is_good(&self) -> bool
        ensures { result ≡ is_good_identity self.now }
    {
        let placeholder = self.placeholder.as_str();
        has_name_bytes(self.prefix.as_str())
            && has_name_bytes(self.db.as_str())
            && !placeholder.is_empty()
            && placeholder.len() <= 255
    }

    /// An equal identity.
    pub fn copy(&self, alloc: Global) -> Result<Identity, AllocError>
        ensures { IfOk result (λ identity. identity ≡ self.now) }
    {
        Ok(Identity {
            prefix: self.prefix.copy(alloc)?,
            db: self.db.copy(alloc)?,
            placeholder: self.placeholder.copy(alloc)?,
        })
    }
}
