use graph_model::{EdgeId, Found, Query, Row, Types, Vid, View};
use lists::NoMemory;
use ngql_syntax::Way;
use std::alloc::Global;
use traversal::{Walk, WalkRefused};

/// The reads of a walk of two steps from 2, 1 and 2 once more, each with the ends of the edges that it finds. Behind the
/// first step the frontier is 2 and 3, though 3 was found three times.
const READS: [(i64, &[i64]); 4] = [(1, &[3, 2, 3]), (2, &[3]), (2, &[5, 4]), (3, &[])];

/// The edges of type 1 from a vertex to these ends, as they are found.
fn edges(alloc: Global, src: i64, ends: &[i64]) -> Result<View, NoMemory> {
    let mut view = View::new(alloc);
    for end in ends {
        let edge = EdgeId {
            src: Vid::Num(src),
            etype: 1,
            rank: 0,
            dst: Vid::Num(*end),
        };
        view.push(Found {
            edge: Some(edge),
            inward: false,
            row: Row::new(alloc),
        })?;
    }
    Ok(view)
}

/// The vertex whose edges are read next.
fn next_vertex(walk: &Walk, alloc: Global) -> Result<Option<i64>, NoMemory> {
    Ok(match walk.next_need(alloc)? {
        Some(Query::Out(Vid::Num(v), _)) => Some(v),
        _ => None,
    })
}

/// The first vertex of the table that isn't read in its turn.
fn first_apart(walk: &mut Walk, alloc: Global) -> Result<Option<i64>, WalkRefused> {
    for (v, ends) in READS {
        if next_vertex(walk, alloc)? != Some(v) || !walk.needs() {
            return Ok(Some(v));
        }
        walk.feed(alloc, edges(alloc, v, ends)?)?;
    }
    Ok(next_vertex(walk, alloc)?)
}

#[test]
fn each_vertex_is_read_once_a_step(rt: HostRuntime) -> Result<(), WalkRefused> {
    let start = [Vid::Num(2), Vid::Num(1), Vid::Num(2)];
    let types = Types::from_slice(rt.alloc(), &[1])?;
    let mut walk = Walk::new(rt.alloc(), 2, &start, types, Way::Outward)?;
    assert_eq!(rt; first_apart(&mut walk, rt.alloc())?, None);
    Ok(())
}
