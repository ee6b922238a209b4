// A list of bytes that grows.
ghost use Rattle.std.specs.Prelude.{◌≡◌, [], ◌∷◌, ◌++◌, IfOk, OnOk, OnErr};

use std::alloc::{AllocError, Global};
use std::marker::Model;

/// A list of bytes with its allocator.
#[derive(Drop)]
pub struct Bytes {
    items: Vec<u8>,
}

impl Model for Bytes {
    ghost use Rattle.std.specs.Prelude.{List, ℕ};

    ghost Value = { List ℕ };

    ghost view = { λ b. b.items.items };
}

impl Bytes {
    /// The empty list. It takes no memory.
    pub fn new(alloc: Global) -> Bytes
        ensures { result ≡ [] }
    {
        Bytes {
            items: Vec::new(alloc),
        }
    }

    /// A copy of the piece. Refuses for want of memory alone.
    pub fn copy(alloc: Global, piece: &[u8]) -> Result<Bytes, AllocError>
        ensures { IfOk result (λ copied. copied ≡ piece.now) }
    {
        Ok(Bytes {
            items: Vec::from_slice(alloc, piece)?,
        })
    }

    /// Adds a byte at the end.
    ///
    /// Refuses for want of memory alone, and then leaves the list as it was.
    pub fn push(&mut self, byte: u8) -> Result<(), AllocError>
        ensures value { OnOk result (self.new ≡ self.old ++ byte ∷ []) }
        ensures unchanged { OnErr result (self.new ≡ self.old) }
    {
        self.items.push(byte)?;
        Ok(())
    }

    /// Adds the bytes of the piece at the end, in their order.
    ///
    /// Refuses for want of memory alone, and then leaves the list as it was.
    pub fn append(&mut self, piece: &[u8]) -> Result<(), AllocError>
        ensures value { OnOk result (self.new ≡ self.old ++ piece.now) }
        ensures unchanged { OnErr result (self.new ≡ self.old) }
    {
        self.items.extend_from_slice(piece)
    }

    /// The bytes, in order.
    pub fn as_slice(&self) -> &[u8]
        ensures { result.now ≡ self.now }
    {
        self.items.as_slice()
    }
}
