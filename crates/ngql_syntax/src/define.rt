//! What CREATE makes.
use crate::spanned::Spanned;
use graph_model::Val;
use lists::{Copied, Listed, NoMemory, Text};
use part_keys::VidKind;
use std::alloc::Global;

/// The type of a column's values.
#[derive(Clone, Copy)]
pub enum Kind {
    /// Signed numbers of 64 bits.
    Int,
    /// True or false.
    Flag,
    /// Texts.
    Words,
}

/// A column of a tag or of an edge type.
#[derive(Drop)]
pub struct Column {
    /// Its name.
    pub name: Text,
    /// The type of its values.
    pub kind: Kind,
    /// Whether a value may be null.
    pub nullable: bool,
    /// Its DEFAULT.
    pub standard: Option<Val>,
}

/// Columns, in their order.
pub type Columns = Listed<Column>;

/// What CREATE makes. The flag is IF NOT EXISTS.
#[derive(Drop)]
pub enum Define {
    /// A space, with its number of parts, its number of replicas and the kind of its ids.
    Space(Spanned, u32, u32, VidKind, bool),
    /// A tag.
    Tag(Spanned, Columns, bool),
    /// An edge type.
    Edge(Spanned, Columns, bool),
}

impl Copied for Column {
    fn copied(&self, alloc: Global) -> Result<Self, NoMemory> {
        let standard = match &self.standard {
            Some(value) => Some(value.copy(alloc)?),
            None => None,
        };
        Ok(Column {
            name: self.name.copy(alloc)?,
            kind: self.kind,
            nullable: self.nullable,
            standard,
        })
    }
}
