// The maps of the rows of a table.

ghost use Rattle.std.specs.Prelude.{◌≡◌, ◌<◌, [], ◌∷◌, ◌++◌, length, slice_get, Some, OnOk, OnErr};

use crate::map::Map;
use std::alloc::{AllocError, Global};
use std::marker::Model;

/// The maps of the rows of a table, in order: the first map of a row, or that there is none.
#[derive(Drop)]
pub struct Maps {
    rows: Vec<Option<Map>>,
}

impl Model for Maps {
    ghost use Rattle.std.specs.Prelude.{List, Option};
    ghost use Rattle.group_match.specs.declared.map.Map.{Map};

    ghost Value = { List (Option Map) };

    ghost view = { λ m. m.rows.items };
}

impl Maps {
    /// The maps of no rows. It takes no memory.
    pub fn new(alloc: Global) -> Maps
        ensures { result ≡ [] }
    {
        Maps {
            rows: Vec::new(alloc),
        }
    }

    /// Adds the map of the next row, or that it has none.
    ///
    /// Refuses for want of memory alone, and then leaves the maps as they were.
    pub fn push(&mut self, map: Option<Map>) -> Result<(), AllocError>
        ensures value { OnOk result (self.new ≡ self.old ++ map ∷ []) }
        ensures unchanged { OnErr result (self.new ≡ self.old) }
    {
        self.rows.push(map)?;
        Ok(())
    }

    /// How many rows there are.
    pub fn count(&self) -> usize
        ensures { result ≡ length self.now }
    {
        self.rows.len()
    }

    /// The map of the row number i, from 0, or that it has none.
    pub fn at(&self, i: usize) -> Option<Map>
        requires { i < length self.now }
        ensures { slice_get self.now i ≡ Some result }
    {
        self.rows[i]
    }
}
