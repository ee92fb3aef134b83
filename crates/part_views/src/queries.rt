//! What a query finds in a part.
ghost use Rattle.std.specs.Prelude.{◌≡◌, ◌++◌, IfOk, OnOk};
ghost use Rattle.std.specs.Option.{option_copied, option_and_then};
ghost use Rattle.graph_model.specs.Views.{row_alone};
ghost use Rattle.kv_part.specs.Store.{under};
ghost use Rattle.part_rules.specs.Part.{Part};
ghost use Rattle.part_rules.specs.View.{view as view_of_part};
ghost use Rattle.part_store.specs.Keeps.{Keeps};
ghost use Rattle.part_store.specs.Settings.{IsSetting, IsVertexOf};
ghost use Rattle.part_views.specs.Reading.{row_in};
ghost use Rattle.part_views.specs.Views.{IsAsked, FitsQuery, edges_prefix, seen};

use crate::pairs::{push_ins, push_outs};
use crate::values::row_in;
use graph_model::{EdgeId, Found, Query, Vid, View};
use kv_part::{KeyStore, Pairs};
use lists::NoMemory;
use part_keys::{KeyBytes, out_key, tag_key};
use part_store::Setting;
use std::alloc::Global;

/// The first byte of the keys of halves.
const EDGE_KIND: u8 = 2;

// How the keys of the vertex's edges begin.
fn edges_prefix(s: Setting, v: &Vid) -> KeyBytes
    requires setting { IsSetting s }
    requires vertex { IsVertexOf s v.now }
    ensures { result ≡ edges_prefix s v.now }
{
    let key = tag_key(s.ids, s.parts, *v, 0);
    let bytes = key.as_slice();
    let mut made = KeyBytes::new();
    let first = [EDGE_KIND];
    made.put_run(&first);
    prove!(5 <= bytes.len());
    made.put_run(&bytes[1..bytes.len() - 4]);
    made
}

// The pairs of the vertex's edges.
fn edges_of<S: KeyStore>(alloc: Global, s: Setting, store: &S, v: &Vid) -> Result<Pairs, NoMemory>
    requires setting { IsSetting s }
    requires vertex { IsVertexOf s v.now }
    ensures { IfOk result (λ pairs. pairs ≡ under (edges_prefix s v.now) (S.meaning store.now)) }
{
    let prefix = edges_prefix(s, v);
    store.scan_prefix(alloc, prefix.as_slice())
}

// Adds the row that a value is, if there is one.
fn push_alone(
    view: &mut View,
    alloc: Global,
    edge: Option<EdgeId>,
    value: Option<&[u8]>,
) -> Result<(), NoMemory>
    ensures { OnOk result (view.new ≡ view.old ++ row_alone edge (option_and_then row_in (option_copied value.entry))) }
{
    let Some(bytes) = value else {
        return Ok(());
    };
    let Some(row) = row_in(alloc, bytes)? else {
        return Ok(());
    };
    view.push(Found {
        edge,
        inward: false,
        row,
    })
}

// What a query finds in the store.
fn seen<S: KeyStore>(alloc: Global, s: Setting, store: &S, query: &Query) -> Result<View, NoMemory>
    requires setting { IsSetting s }
    requires asked { IsAsked s query.now }
    ensures seen { IfOk result (λ found. found ≡ seen s (S.meaning store.now) query.now) }
    ensures fits { FitsQuery s query.now }
{
    let mut view = View::new(alloc);
    match query {
        Query::Tag(v, t) => {
            let key = tag_key(s.ids, s.parts, *v, *t);
            push_alone(&mut view, alloc, None, store.get(key.as_slice()))?;
            Ok(view)
        }
        Query::Edge(e) => {
            let key = out_key(s.ids, s.parts, e);
            push_alone(&mut view, alloc, Some(*e), store.get(key.as_slice()))?;
            Ok(view)
        }
        Query::Out(v, types) => {
            let pairs = edges_of(alloc, s, store, v)?;
            push_outs(&mut view, alloc, s.ids, v, types, pairs.as_slice())?;
            Ok(view)
        }
        Query::In(v, types) => {
            let pairs = edges_of(alloc, s, store, v)?;
            push_ins(&mut view, alloc, s.ids, v, types, pairs.as_slice())?;
            Ok(view)
        }
        Query::Both(v, types) => {
            let pairs = edges_of(alloc, s, store, v)?;
            push_ins(&mut view, alloc, s.ids, v, types, pairs.as_slice())?;
            push_outs(&mut view, alloc, s.ids, v, types, pairs.as_slice())?;
            Ok(view)
        }
    }
}

/// What a query about a vertex or an edge of the part finds in the state that the store keeps. Of a tag or an edge one pair
/// is read, of a vertex's edges the pairs of its edges. Refused for want of memory alone.
pub fn view<S: KeyStore>(
    alloc: Global,
    s: Setting,
    store: &S,
    query: &Query,
) -> Result<View, NoMemory>
    requires setting { IsSetting s }
    requires asked { IsAsked s query.now }
    ensures { (p : Part) → Keeps s p (S.meaning store.now) → IfOk result (λ found. found ≡ view_of_part query.now p) }
{
    seen(alloc, s, store, query)
}
