//! The text id of a vertex.
ghost use Rattle.std.specs.Prelude.{◌≡◌, ◌≤◌, length};
ghost use Rattle.graph_model.specs.Names.{text_of, name_of, IsShortText};

use std::marker::Model;

/// The text id of a vertex, of at most 32 bytes: its bytes, filled up with 0, then their number. So names are ordered
/// as their texts are, by bytes, and a name copies.
#[derive(Clone, Copy, Debug, PartialEq, Eq, PartialOrd, Ord)]
pub struct Name {
    bytes: [u8; 32],
    len: u8,
}

impl Model for Name {
    ghost use Rattle.graph_model.specs.Names.{ShortText, IsShortText};

    ghost Value = { ShortText };

    ghost view = { λ a. record { bytes = a.bytes; len = a.len } };

    ghost invariant = { λ a. IsShortText (record { bytes = a.bytes; len = a.len }) };

    ghost inverse = { λ v. record { bytes = v.bytes; len = v.len } };
}

impl Name {
    /// The name of a text of at most 32 bytes.
    pub fn new(text: &[u8]) -> Name
        requires { length text.now ≤ 32 }
        ensures { result ≡ name_of text.now }
    {
        let mut bytes = [0; 32];
        bytes[..text.len()].copy_from_slice(text);
        Name {
            bytes,
            len: text.len() as u8,
        }
    }

    /// The text.
    pub fn as_slice(&self) -> &[u8]
        ensures text { result.now ≡ text_of self.now }
        ensures short { IsShortText self.now }
    {
        &self.bytes[..self.len as usize]
    }

    /// The number of bytes of the text.
    pub fn len(&self) -> u8
        ensures len { result ≡ self.now.len }
        ensures short { IsShortText self.now }
    {
        self.len
    }

    /// The text, filled up with zeros to 32 bytes.
    pub fn filled(&self) -> &[u8; 32]
        ensures bytes { result.now ≡ self.now.bytes }
        ensures short { IsShortText self.now }
    {
        &self.bytes
    }
}
