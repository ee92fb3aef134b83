//! What each statement binds to.
ghost use Rattle.std.specs.Prelude.{◌≡◌, ◌+◌, ◌<◌, ◌≤◌, ◌∷◌, [], pos, map, length, IfOk, IfSome, Some, None};
ghost use Rattle.std.specs.List.{list_all};
ghost use Rattle.std.specs.Option.{option_map};
ghost use Rattle.schema_book.specs.Bind as spec;
ghost use Rattle.schema_book.specs.Entries.{entry_of, most_entries};
ghost use Rattle.schema_book.specs.Exprs.{over_places, steps_of};
ghost use Rattle.schema_book.specs.Ids as id;
ghost use Rattle.schema_book.specs.Lists as list_spec;
ghost use Rattle.schema_book.specs.Refusals.{Passes, Gives, first_of};

use crate::bound::{Bound, Cond, FetchPlan, GoPlan, Queries, Vids};
use crate::catalog::Catalog;
use crate::dels::{check_ends_list, check_few, check_vids, edge_dels, vertex_dels};
use crate::exprs::{
    check_cond, check_exprs, check_over, exprs_of, over_places, steps_of, types_of,
};
use crate::ids::{edge_of, vid_of};
use crate::puts::{check_edges, check_vertices, edge_calls, vertex_calls};
use crate::refused::{BookRefused, Stop};
use graph_model::Query;
use lists::{Listed, NoMemory};
use ngql_syntax::{Columns, Ends, GoWords, Lit, PutEdges, PutVertices, RawCond, RawExpr, Spanned};
use part_keys::VidKind;
use std::alloc::Global;

/// The place and the columns of what the name says.
fn named<'a>(
    alloc: Global,
    types: &'a Catalog,
    name: &Spanned,
) -> Result<(usize, &'a Columns), Stop>
    ensures { spec.Names result name.now (entry_of name.now.text types.now) }
{
    match types.find(name.text.as_slice()) {
        Some((place, columns)) => Ok((place, columns)),
        None => {
            let text = name.text.copy(alloc)?;
            Err(Stop::Refused(BookRefused::NoSuchName(text)))
        }
    }
}

/// INSERT VERTEX.
#[tactic(auto, unfolding(crate::specs::Bind::vertices_put))]
pub fn put_vertices(
    alloc: Global,
    tags: &Catalog,
    ids: VidKind,
    words: &PutVertices,
) -> Result<Bound, Stop>
    ensures { Gives result (spec.vertices_put tags.now ids words.now) }
{
    let (place, columns) = named(alloc, tags, &words.name)?;
    check_vertices(alloc, ids, columns.as_slice(), words)?;
    let calls = vertex_calls(alloc, place, columns.as_slice(), words)?;
    Ok(Bound::Calls(calls))
}

/// INSERT EDGE.
#[tactic(auto, unfolding(crate::specs::Bind::edges_put))]
pub fn put_edges(
    alloc: Global,
    edges: &Catalog,
    ids: VidKind,
    words: &PutEdges,
) -> Result<Bound, Stop>
    ensures { Gives result (spec.edges_put edges.now ids words.now) }
{
    let (place, columns) = named(alloc, edges, &words.name)?;
    check_edges(alloc, ids, columns.as_slice(), words)?;
    let calls = edge_calls(alloc, place, columns.as_slice(), words)?;
    Ok(Bound::Calls(calls))
}

/// DELETE VERTEX.
#[tactic(auto, unfolding(crate::specs::Bind::vertices_deleted))]
pub fn delete_vertices(alloc: Global, ids: VidKind, list: &[Lit]) -> Result<Bound, Stop>
    ensures { Gives result (spec.vertices_deleted ids list.now) }
{
    check_vids(alloc, ids, list)?;
    let calls = vertex_dels(alloc, list)?;
    Ok(Bound::Calls(calls))
}

/// DELETE EDGE.
#[tactic(auto, unfolding(crate::specs::Bind::edges_deleted))]
pub fn delete_edges(
    alloc: Global,
    edges: &Catalog,
    ids: VidKind,
    name: &Spanned,
    list: &[Ends],
) -> Result<Bound, Stop>
    ensures { Gives result (spec.edges_deleted edges.now ids name.now list.now) }
{
    let (place, _) = named(alloc, edges, name)?;
    check_ends_list(alloc, ids, list)?;
    check_few(list)?;
    let calls = edge_dels(alloc, place, list)?;
    Ok(Bound::Calls(calls))
}

#[tactic(auto, unfolding(crate::specs::Lists::tag_reads))]
fn tag_reads(alloc: Global, place: usize, list: &[Lit]) -> Result<Queries, NoMemory>
    requires { place < most_entries }
    ensures { IfOk result (λ reads. reads ≡ list_spec.tag_reads place list.now) }
{
    let mut reads = Listed::new(alloc);
    let number = place as u32 + 1;
    for lit in list {
        reads.push(Query::Tag(vid_of(&lit.val), number))?;
    }
    Ok(reads)
}

#[tactic(auto, unfolding(crate::specs::Lists::edge_reads))]
fn edge_reads(alloc: Global, place: usize, list: &[Ends]) -> Result<Queries, NoMemory>
    requires { place < most_entries }
    ensures { IfOk result (λ reads. reads ≡ list_spec.edge_reads place list.now) }
{
    let mut reads = Listed::new(alloc);
    for ends in list {
        reads.push(Query::Edge(edge_of(place, ends)))?;
    }
    Ok(reads)
}

/// FETCH of a tag.
#[tactic(auto, unfolding(crate::specs::Bind::vertices_fetched))]
pub fn fetch_vertices(
    alloc: Global,
    tags: &Catalog,
    ids: VidKind,
    name: &Spanned,
    list: &[Lit],
    shown: &[RawExpr],
) -> Result<Bound, Stop>
    ensures { Gives result (spec.vertices_fetched tags.now ids name.now list.now shown.now) }
{
    let (place, _) = named(alloc, tags, name)?;
    let places = [place];
    check_exprs(alloc, tags, &places, shown)?;
    check_vids(alloc, ids, list)?;
    let reads = tag_reads(alloc, place, list)?;
    let shown = exprs_of(alloc, tags, &places, shown)?;
    Ok(Bound::Fetch(FetchPlan { reads, shown }))
}

/// FETCH of an edge type.
#[tactic(auto, unfolding(crate::specs::Bind::edges_fetched))]
pub fn fetch_edges(
    alloc: Global,
    edges: &Catalog,
    ids: VidKind,
    name: &Spanned,
    list: &[Ends],
    shown: &[RawExpr],
) -> Result<Bound, Stop>
    ensures { Gives result (spec.edges_fetched edges.now ids name.now list.now shown.now) }
{
    let (place, _) = named(alloc, edges, name)?;
    let places = [place];
    check_exprs(alloc, edges, &places, shown)?;
    check_ends_list(alloc, ids, list)?;
    let reads = edge_reads(alloc, place, list)?;
    let shown = exprs_of(alloc, edges, &places, shown)?;
    Ok(Bound::Fetch(FetchPlan { reads, shown }))
}

/// Refuses what GO may not ask.
#[tactic(auto, unfolding(crate::specs::Bind::walk_refused))]
fn check_walk(
    alloc: Global,
    edges: &Catalog,
    ids: VidKind,
    places: &[usize],
    words: &GoWords,
) -> Result<(), Stop>
    requires { places.now ≡ over_places edges.now words.now.over }
    ensures { Passes result (spec.walk_refused edges.now ids words.now) }
{
    check_over(alloc, edges, &words.over)?;
    check_cond(alloc, edges, places, &words.keep)?;
    check_exprs(alloc, edges, places, words.shown.as_slice())?;
    check_vids(alloc, ids, words.start.as_slice())
}

fn vids_of(alloc: Global, list: &[Lit]) -> Result<Vids, NoMemory>
    ensures { IfOk result (λ vids. vids ≡ map (λ l. id.vid_of l.val) list.now) }
{
    let mut vids = Listed::new(alloc);
    for lit in list {
        vids.push(vid_of(&lit.val))?;
    }
    Ok(vids)
}

fn cond_of(
    alloc: Global,
    edges: &Catalog,
    places: &[usize],
    cond: &Option<RawCond>,
) -> Result<Option<Cond>, NoMemory>
    ensures { IfOk result (λ made. made ≡ option_map (steps_of edges.now places.now) cond.now) }
{
    match cond {
        Some(steps) => {
            let steps = steps_of(alloc, edges, places, steps.as_slice())?;
            Ok(Some(steps))
        }
        None => Ok(None),
    }
}

/// GO, over the types at these places.
#[tactic(auto, unfolding(crate::specs::Bind::walk_plan))]
fn walk_plan(
    alloc: Global,
    edges: &Catalog,
    places: &[usize],
    words: &GoWords,
) -> Result<GoPlan, NoMemory>
    requires { places.now ≡ over_places edges.now words.now.over }
    ensures { IfOk result (λ plan. plan ≡ spec.walk_plan edges.now places.now words.now) }
{
    let start = vids_of(alloc, words.start.as_slice())?;
    let types = types_of(alloc, edges, &words.over)?;
    let keep = cond_of(alloc, edges, places, &words.keep)?;
    let shown = exprs_of(alloc, edges, places, words.shown.as_slice())?;
    Ok(GoPlan {
        steps: words.steps,
        start,
        types,
        way: words.way,
        keep,
        shown,
    })
}

/// GO.
#[tactic(auto, unfolding(crate::specs::Bind::walked))]
pub fn walk(alloc: Global, edges: &Catalog, ids: VidKind, words: &GoWords) -> Result<Bound, Stop>
    ensures { Gives result (spec.walked edges.now ids words.now) }
{
    let places = over_places(alloc, edges, &words.over)?;
    check_walk(alloc, edges, ids, places.as_slice(), words)?;
    let plan = walk_plan(alloc, edges, places.as_slice(), words)?;
    Ok(Bound::Go(plan))
}
