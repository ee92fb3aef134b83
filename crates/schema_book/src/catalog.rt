//! Tags, or edge types, in the order of their creation.
ghost use Rattle.std.specs.Prelude.{◌≡◌, ◌<◌, ◌≤◌, ◌++◌, ◌∷◌, [], true, length, slice_get, Some, None, OnSome, IfSome, OnOk, OnErr};
ghost use Rattle.std.specs.Option.{option_map};
ghost use Rattle.schema_book.specs.Columns.{are_sound};
ghost use Rattle.schema_book.specs.Entries.{entry_of, place_of, is_named, most_entries, AreSound};

use indexmap::IndexMap;
use lists::NoMemory;
use ngql_syntax::Columns;
use std::alloc::Global;
use std::marker::Model;

/// The greatest number of tags, and of edge types.
pub const MOST_ENTRIES: usize = 64;

/// Tags, or edge types, each with its name and its columns, in the order of their creation. No column's name stands twice, and
/// each DEFAULT fits its column.
#[derive(Drop)]
pub struct Catalog {
    kept: IndexMap<Vec<u8>, Columns>,
}

impl Model for Catalog {
    ghost use Rattle.std.specs.Prelude.{List, ℕ, map};
    ghost use Rattle.ngql_syntax.specs.declared.define.Column.{Column};

    ghost Value = { List (List ℕ × List Column) };

    ghost use Rattle.schema_book.specs.Entries.{AreSound};

    ghost view = { λ a. map (λ e. (e.0.items, e.1)) a.kept.entries };

    ghost invariant = { λ a. AreSound (map (λ e. (e.0.items, e.1)) a.kept.entries) };
}

impl Catalog {
    /// None yet.
    pub fn new(alloc: Global) -> Catalog
        ensures { result ≡ [] }
    {
        Catalog {
            kept: IndexMap::new(alloc),
        }
    }

    /// How many there are.
    pub fn len(&self) -> usize
        ensures len { result ≡ length self.now }
        ensures sound { AreSound self.now }
    {
        self.kept.len()
    }

    /// Whether there is one of this name.
    pub fn has(&self, name: &[u8]) -> bool
        ensures { result ≡ is_named name.now self.now }
    {
        self.kept.get_index_of(name).is_some()
    }

    /// The place and the columns of the first of this name.
    pub fn find(&self, name: &[u8]) -> Option<(usize, &Columns)>
        ensures found { option_map (λ e. (e.0, e.1.now)) result ≡ entry_of name.now self.now }
        ensures small { IfSome result (λ e. e.0 < most_entries) }
        ensures sound { AreSound self.now }
    {
        let place = self.kept.get_index_of(name)?;
        let (_, columns) = self.kept.get_index(place)?;
        Some((place, columns))
    }

    /// The name and the columns of the one at a place.
    pub fn at(&self, place: usize) -> Option<(&[u8], &Columns)>
        ensures found { option_map (λ e. (e.0.now, e.1.now)) result ≡ slice_get self.now place }
        ensures small { OnSome result (place < most_entries) }
    {
        let (name, columns) = self.kept.get_index(place)?;
        Some((name.as_slice(), columns))
    }

    /// Puts one more behind all others. Refused for want of memory alone.
    pub fn add(&mut self, alloc: Global, name: &[u8], columns: Columns) -> Result<(), NoMemory>
        requires new { place_of name.now self.old ≡ None }
        requires few { length self.old < most_entries }
        requires sound { are_sound columns ≡ true }
        ensures ok { OnOk result (self.new ≡ self.old ++ (name.now, columns) ∷ []) }
        ensures err { OnErr result (self.new ≡ self.old) }
    {
        let key = Vec::from_slice(alloc, name)?;
        self.kept.insert(key, columns)?;
        Ok(())
    }
}
