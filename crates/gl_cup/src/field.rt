ghost use Rattle.std.specs.Prelude.{◌≡◌, ℕ, List, IfOk};

use std::alloc::{AllocError, Global};
use std::marker::Model;

/// A field of a row: any bytes. Contracts see it as their list.
#[derive(Debug, Drop)]
pub struct Field {
    bytes: Vec<u8>,
}

impl Model for Field {
    ghost Value = { List ℕ };

    ghost view = { λ field. field.bytes.items };
}

impl Field {
    /// The field with these bytes. The only error is want of memory.
    pub fn from_slice(alloc: Global, bytes: &[u8]) -> Result<Field, AllocError>
        ensures { IfOk result (λ field. field ≡ bytes.now) }
    {
        Ok(Field {
            bytes: Vec::from_slice(alloc, bytes)?,
        })
    }

    /// The field's bytes.
    pub fn as_slice(&self) -> &[u8]
        ensures { result.now ≡ self.now }
    {
        self.bytes.as_slice()
    }
}
