//! The values of a component. Most components of an entry have one alone, which needs no allocation.
ghost use Rattle.std.specs.Prelude.{◌≡◌, ◌∷◌, [], length, IfOk};
ghost use Rattle.std.specs.Mem.{FitsInMemory};

use std::alloc::{AllocError, Global};
use std::marker::Model;
use std::slice;

/// Where values are kept.
#[derive(Drop)]
enum Kept<T> {
    One(T),
    Many(Vec<T>),
}

/// The values of a component, in their order.
#[derive(Drop)]
pub struct Values<T> {
    kept: Kept<T>,
}

impl<T> Model for Values<T> {
    ghost use Rattle.std.specs.Prelude.{List};
    ghost use Rattle.entry_table.specs.Values.{listed};

    ghost Value = { List T };

    ghost view = { λ v. listed v.kept };
}

impl<T: Copy> Values<T> {
    /// One value alone.
    pub fn one(value: T) -> Values<T>
        ensures { result ≡ value ∷ [] }
    {
        Values {
            kept: Kept::One(value),
        }
    }

    /// These values.
    pub fn new(values: Vec<T>) -> Values<T>
        ensures { result ≡ values.items }
    {
        match values.as_slice() {
            [value] => Values::one(*value),
            _ => Values {
                kept: Kept::Many(values),
            },
        }
    }

    /// All of them.
    pub fn as_slice(&self) -> &[T]
        requires { FitsInMemory T.row }
        ensures { result.now ≡ self.now }
    {
        match &self.kept {
            Kept::One(value) => slice::from_ref(value),
            Kept::Many(values) => values.as_slice(),
        }
    }

    /// How many there are.
    pub fn len(&self) -> usize
        ensures { result ≡ length self.now }
    {
        match &self.kept {
            Kept::One(_) => 1,
            Kept::Many(values) => values.len(),
        }
    }

    /// The same once more. The only error is running out of memory.
    pub(crate) fn again(&self, alloc: Global) -> Result<Values<T>, AllocError>
        ensures { IfOk result (λ values. values ≡ self.now) }
    {
        match &self.kept {
            Kept::One(value) => Ok(Values::one(*value)),
            Kept::Many(values) => {
                let mut again = Vec::new(alloc);
                again.extend_from_slice(values.as_slice())?;
                Ok(Values {
                    kept: Kept::Many(again),
                })
            }
        }
    }
}
