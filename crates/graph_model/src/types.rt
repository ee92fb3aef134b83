//! The edge types that a query follows.
ghost use Rattle.std.specs.Prelude.{◌≡◌, IfOk};
ghost use Rattle.std.specs.List.{list_any};
ghost use Rattle.std.specs.Ordering.{int_eq};
ghost use Rattle.graph_model.specs.Types.{AreTypes};

use lists::NoMemory;
use std::alloc::Global;
use std::marker::Model;

/// The greatest number of types in a list.
pub const MOST_TYPES: usize = 64;

/// At most 64 edge types, positive and rising; contracts see the list of them.
#[derive(Drop)]
pub struct Types {
    types: Vec<i32>,
}

impl Model for Types {
    ghost use Rattle.std.specs.Prelude.{List, ℤ};
    ghost use Rattle.graph_model.specs.Types.{AreTypes};

    ghost Value = { List ℤ };

    ghost view = { λ a. a.types.items };

    ghost invariant = { λ a. AreTypes a.types.items };
}

impl Types {
    /// A list of these types. Refused for want of memory alone.
    pub fn from_slice(alloc: Global, types: &[i32]) -> Result<Self, NoMemory>
        requires { AreTypes types.now }
        ensures { IfOk result (λ made. made ≡ types.now) }
    {
        Ok(Types {
            types: Vec::from_slice(alloc, types)?,
        })
    }

    /// An equal list. Refused for want of memory alone.
    pub fn copy(&self, alloc: Global) -> Result<Self, NoMemory>
        ensures { IfOk result (λ types. types ≡ self.now) }
    {
        Ok(Types {
            types: Vec::from_slice(alloc, self.types.as_slice())?,
        })
    }

    /// The types, rising.
    pub fn as_slice(&self) -> &[i32]
        ensures { result.now ≡ self.now }
    {
        self.types.as_slice()
    }

    /// Whether this type is among them.
    pub fn has(&self, etype: &i32) -> bool
        ensures { result ≡ list_any (λ t. int_eq t etype.now) self.now }
    {
        self.types.contains(etype)
    }
}
