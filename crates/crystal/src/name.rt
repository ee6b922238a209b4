ghost use Rattle.std.specs.Prelude.{◌≡◌, ◌↔◌, ◌<◌, length, slice_index, IsSome, IfSome, IsTrue};
ghost use Rattle.crystal.specs.Names.{is_name, is_name_byte, are_name_bytes};

use std::marker::Model;

/// The name of a species: a letter, then letters, digits or `_`; 1 to 8 bytes of ASCII.
#[derive(Drop)]
pub struct Name {
    bytes: [u8; 8],
    count: usize,
}

impl Model for Name {
    ghost use Rattle.std.specs.Prelude.{List, ℕ, take, ◌≤◌, ◌≡◌, true, length};
    ghost use Rattle.crystal.specs.Names.{is_name};

    ghost Value = { List ℕ };

    ghost view = { λ n. take n.count n.bytes };

    ghost invariant = { λ n. (n.count ≤ 8) × (is_name (take n.count n.bytes) ≡ true) };
}

/// Whether the byte can stand in a name behind its first.
fn is_name_byte(byte: u8) -> bool
    ensures { result ≡ is_name_byte byte }
{
    byte.is_ascii_alphabetic() || byte.is_ascii_digit() || byte == b'_'
}

/// Whether all the bytes can stand in a name behind its first.
fn are_name_bytes(bytes: &[u8]) -> bool
    ensures { result ≡ are_name_bytes bytes.now }
{
    for byte in bytes {
        if !is_name_byte(*byte) {
            return false;
        }
    }
    true
}

/// Whether the bytes spell a name.
fn is_name(bytes: &[u8]) -> bool
    ensures { result ≡ is_name bytes.now }
{
    match bytes {
        [] => false,
        [first, rest @ ..] => {
            first.is_ascii_alphabetic() && are_name_bytes(rest) && rest.len() <= 7
        }
    }
}

impl Name {
    /// The name that these bytes spell, or `None` where they do not have the form of a name.
    #[tactic(auto, using(crate::proofs::NameLemmas::is_name_short))]
    pub fn new(bytes: &[u8]) -> Option<Name>
        ensures exact { IsSome result ↔ IsTrue (is_name bytes.now) }
        ensures value { IfSome result (λ name. name ≡ bytes.now) }
    {
        if !is_name(bytes) {
            return None;
        }
        let mut held = [0u8; 8];
        let count = bytes.len();
        held[..count].copy_from_slice(bytes);
        Some(Name { bytes: held, count })
    }

    /// How many bytes the name has.
    pub fn count(&self) -> usize
        ensures value { result ≡ length self.now }
        ensures form { IsTrue (is_name self.now) }
    {
        self.count
    }

    /// The byte at place i of the name.
    pub fn byte(&self, i: usize) -> u8
        requires { i < length self.now }
        ensures { result ≡ slice_index self.now i }
    {
        self.bytes[i]
    }

    /// The bytes of the name.
    pub fn as_bytes(&self) -> &[u8]
        ensures { result.now ≡ self.now }
    {
        &self.bytes[..self.count]
    }

    /// The same name again.
    pub fn copied(&self) -> Name
        ensures { result ≡ self.now }
    {
        Name {
            bytes: self.bytes,
            count: self.count,
        }
    }
}
