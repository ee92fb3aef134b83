//! The schema.
ghost use Rattle.std.specs.Prelude.{◌≡◌, []};
ghost use Rattle.schema_book.specs.Create.{entry_refused, entry_created};
ghost use Rattle.schema_book.specs.Refusals.{Passes, Makes};
ghost use Rattle.std.specs.Prelude.{OnErr};

use crate::bind::{
    delete_edges, delete_vertices, fetch_edges, fetch_vertices, put_edges, put_vertices, walk,
};
use crate::bound::Bound;
use crate::catalog::{Catalog, MOST_ENTRIES};
use crate::columns::check_columns;
use crate::made::Made;
use crate::refused::{BookRefused, Stop};
use crate::space::Space;
use lists::{Listed, NoMemory};
use ngql_syntax::{Column, Columns, Define, Spanned, Statement};
use part_keys::VidKind;
use std::alloc::Global;
use std::marker::Model;

/// The schema: the space, and its tags and edge types in the order of their creation.
#[derive(Drop)]
pub struct Book {
    space: Option<Space>,
    tags: Catalog,
    edges: Catalog,
}

impl Model for Book {
    ghost use Rattle.schema_book.specs.Schema.{Schema};

    ghost Value = { Schema };

    ghost view = { λ a. record { space = a.space; tags = a.tags; edges = a.edges } };
}

impl Book {
    ghost use Rattle.std.specs.Prelude.{◌≡◌, OnOk, OnErr, IfOk, IfErr, None, Some, Ok, true};
    ghost use Rattle.std.specs.Option.{option_copied};
    ghost use Rattle.schema_book.specs.Create.{space_created, created, select_refused};
    ghost use Rattle.schema_book.specs.Bind.{bound, bound_in};
    ghost use Rattle.schema_book.specs.Entries.{name_of};
    ghost use Rattle.schema_book.specs.Fits.{bound_fits};
    ghost use Rattle.schema_book.specs.Refusals.{Gives, Makes, IsRefusal};
    ghost use Rattle.schema_book.specs.Schema.{Schema, IsSound, nothing};

    /// The empty schema.
    pub fn new(alloc: Global) -> Result<Book, NoMemory>
        ensures { IfOk result (λ book. book ≡ nothing) }
    {
        Ok(Book {
            space: None,
            tags: Catalog::new(alloc),
            edges: Catalog::new(alloc),
        })
    }

    /// The space, if there is one.
    pub fn space(&self) -> Option<&Space>
        ensures { option_copied result ≡ self.now.space }
    {
        self.space.as_ref()
    }

    /// The name of the edge type with this number; the first has number 1.
    pub fn edge_name(&self, number: u32) -> Option<&[u8]>
        ensures { option_copied result ≡ name_of self.now.edges number }
    {
        let place = (number as usize).checked_sub(1)?;
        let (name, _) = self.edges.at(place)?;
        Some(name)
    }

    /// Makes a space, a tag or an edge type. Each refusal is that of the definition; behind one all is as it was.
    pub fn create(&mut self, alloc: Global, define: &Define) -> Result<Made, BookRefused>
        ensures ok { IfOk result (λ made. created self.old define.now ≡ Ok (made, self.new)) }
        ensures refused { IfErr result (IsRefusal (created self.old define.now)) }
        ensures unchanged { OnErr result (self.new ≡ self.old) }
    {
        match self.make(alloc, define) {
            Ok(made) => Ok(made),
            Err(stop) => Err(stop.told()),
        }
    }

    fn make(&mut self, alloc: Global, define: &Define) -> Result<Made, Stop>
        ensures made { Makes result self.new (created self.old define.now) }
        ensures unchanged { OnErr result (self.new ≡ self.old) }
    {
        match define {
            Define::Space(name, parts, factor, ids, absent) => {
                self.make_space(alloc, name, *parts, *factor, *ids, *absent)
            }
            Define::Tag(name, columns, absent) => {
                if self.space.is_none() {
                    return Err(Stop::Refused(BookRefused::NoSpace));
                }
                make_entry(alloc, &mut self.tags, &self.edges, name, columns, *absent)
            }
            Define::Edge(name, columns, absent) => {
                if self.space.is_none() {
                    return Err(Stop::Refused(BookRefused::NoSpace));
                }
                make_entry(alloc, &mut self.edges, &self.tags, name, columns, *absent)
            }
        }
    }

    fn make_space(
        &mut self,
        alloc: Global,
        name: &Spanned,
        parts: u32,
        factor: u32,
        ids: VidKind,
        absent: bool,
    ) -> Result<Made, Stop>
        ensures made { Makes result self.new (space_created self.old (record { name = name.now.text; parts = parts; factor = factor; ids = ids }) absent self.old.space) }
        ensures unchanged { OnErr result (self.new ≡ self.old) }
    {
        if let Some(old) = &self.space {
            if name.text.as_slice() != old.name.as_slice() {
                return Err(Stop::Refused(BookRefused::OneSpace));
            }
            if absent {
                return Ok(Made::Already);
            }
            let name = name.text.copy(alloc)?;
            return Err(Stop::Refused(BookRefused::NameTaken(name)));
        }
        let name = name.text.copy(alloc)?;
        self.space = Some(Space {
            name,
            parts,
            factor,
            ids,
        });
        Ok(Made::New(1))
    }

    /// What a statement says, by the schema as it is: each row fits its columns, each id is of the space's kind, and each tag,
    /// edge type and column is there. Each refusal is that of the definition.
    pub fn bind(&self, alloc: Global, statement: &Statement) -> Result<Bound, BookRefused>
        ensures ok { IfOk result (λ made. bound self.now statement.now ≡ Ok made) }
        ensures fits { IfOk result (λ made. bound_fits self.now made ≡ true) }
        ensures refused { IfErr result (IsRefusal (bound self.now statement.now)) }
        ensures sound { IsSound self.now }
    {
        match self.bound(alloc, statement) {
            Ok(made) => Ok(made),
            Err(stop) => Err(stop.told()),
        }
    }

    fn bound(&self, alloc: Global, statement: &Statement) -> Result<Bound, Stop>
        ensures bound { Gives result (bound self.now statement.now) }
        ensures sound { IsSound self.now }
    {
        let _tags = self.tags.len();
        let _edges = self.edges.len();
        let Some(space) = &self.space else {
            return Err(Stop::Refused(BookRefused::NoSpace));
        };
        self.bound_in(alloc, space.ids, statement)
    }

    fn bound_in(&self, alloc: Global, ids: VidKind, statement: &Statement) -> Result<Bound, Stop>
        ensures { Gives result (bound_in self.now ids statement.now) }
    {
        match statement {
            Statement::Make(_) => Ok(Bound::Calls(Listed::new(alloc))),
            Statement::Select(_) => Ok(Bound::Calls(Listed::new(alloc))),
            Statement::PutVertex(words) => put_vertices(alloc, &self.tags, ids, words),
            Statement::PutEdge(words) => put_edges(alloc, &self.edges, ids, words),
            Statement::DelVertex(list) => delete_vertices(alloc, ids, list.as_slice()),
            Statement::DelEdge(name, list) => {
                delete_edges(alloc, &self.edges, ids, name, list.as_slice())
            }
            Statement::FetchVertex(name, list, shown) => {
                fetch_vertices(
                    alloc,
                    &self.tags,
                    ids,
                    name,
                    list.as_slice(),
                    shown.as_slice(),
                )
            }
            Statement::FetchEdge(name, list, shown) => {
                fetch_edges(
                    alloc,
                    &self.edges,
                    ids,
                    name,
                    list.as_slice(),
                    shown.as_slice(),
                )
            }
            Statement::Go(words) => walk(alloc, &self.edges, ids, words),
        }
    }

    /// Selects the space. Refused where there is none, and where it has another name.
    pub fn select(&mut self, name: Spanned) -> Result<(), BookRefused>
        ensures ok { OnOk result (select_refused self.old.space name ≡ None) }
        ensures refused { IfErr result (λ why. select_refused self.old.space name ≡ Some why) }
        ensures unchanged { self.new ≡ self.old }
    {
        let Some(space) = &self.space else {
            return Err(BookRefused::NoSpace);
        };
        if name.text.as_slice() == space.name.as_slice() {
            return Ok(());
        }
        Err(BookRefused::NoSuchName(name.text))
    }

    /// Takes the space out.
    pub fn drop_space(&mut self)
        ensures { self.new ≡ record self.old { space = None } }
    {
        self.space = None;
    }
}

/// Refuses a tag or an edge type that can't be made; `others` are those of the other kind.
fn check_entry(
    alloc: Global,
    own: &Catalog,
    others: &Catalog,
    name: &Spanned,
    columns: &[Column],
) -> Result<(), Stop>
    ensures { Passes result (entry_refused own.now others.now name.now columns.now) }
{
    if own.has(name.text.as_slice()) || others.has(name.text.as_slice()) {
        let name = name.text.copy(alloc)?;
        return Err(Stop::Refused(BookRefused::NameTaken(name)));
    }
    if own.len() >= MOST_ENTRIES {
        return Err(Stop::Refused(BookRefused::TooMany(name.at)));
    }
    check_columns(alloc, columns)
}

/// Makes a tag or an edge type; `others` are those of the other kind.
fn make_entry(
    alloc: Global,
    own: &mut Catalog,
    others: &Catalog,
    name: &Spanned,
    columns: &Columns,
    absent: bool,
) -> Result<Made, Stop>
    ensures made { Makes result own.new (entry_created own.old others.now name.now columns.now absent) }
    ensures unchanged { OnErr result (own.new ≡ own.old) }
{
    if absent && own.has(name.text.as_slice()) {
        return Ok(Made::Already);
    }
    check_entry(alloc, own, others, name, columns.as_slice())?;
    let columns = columns.copy(alloc)?;
    let number = own.len() as u32 + 1;
    own.add(alloc, name.text.as_slice(), columns)?;
    Ok(Made::New(number))
}
