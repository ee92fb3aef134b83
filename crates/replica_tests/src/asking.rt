//! What client 1 asks of part 1: two edges are put, and what leaves vertex 1 is read.
ghost use Rattle.std.specs.Prelude.{IfOk};
ghost use Rattle.graph_bytes.specs.declared.id_form.IdForm.TheVariants.{Tagged};
ghost use Rattle.graph_bytes.specs.Fits.{IsSmall, HasSpellingHalf, HasSpellingHalves};
ghost use Rattle.part_keys.specs.Fits.{HasSpelling};
ghost use Rattle.replica_model.specs.declared.input.Input.TheVariants.{Sent};
ghost use Rattle.replica_state.specs.State.{IsHeard};

use chain_leader::ChainBody;
use graph_model::{CallId, EdgeHalves, EdgeId, Half, Query, Row, Types, Val, Vid};
use lists::{Listed, NoMemory};
use part_keys::PartEntry;
use replica_model::{Body, Packet, Place, To};
use std::alloc::Global;

/// The edge from 1 to 2.
const FIRST: EdgeId = EdgeId {
    src: Vid::Num(1),
    etype: 1,
    rank: 0,
    dst: Vid::Num(2),
};

/// The edge from 1 to 3.
const SECOND: EdgeId = EdgeId {
    src: Vid::Num(1),
    etype: 1,
    rank: 0,
    dst: Vid::Num(3),
};

fn half_of(alloc: Global, value: i64) -> Result<Half, NoMemory>
    ensures { IfOk result HasSpellingHalf }
{
    let mut row = Row::new(alloc);
    row.push(Val::Int(value))?;
    Ok(Half::Here(row))
}

fn halves(alloc: Global) -> Result<EdgeHalves, NoMemory>
    ensures { IfOk result (HasSpellingHalves Tagged) }
{
    let mut list = Listed::new(alloc);
    list.push((FIRST, half_of(alloc, 90)?))?;
    list.push((SECOND, half_of(alloc, 91)?))?;
    Ok(EdgeHalves::new(list))
}

fn request(count: u32, number: u64, entry: PartEntry) -> Packet
    requires { HasSpelling Tagged entry }
    ensures { IsHeard (Sent result) }
{
    Packet {
        from: Place::Client(1),
        to: To::Part(1, count),
        body: Body::Chain(ChainBody::Request(number, entry)),
    }
}

fn call(number: u64) -> CallId
    ensures { IsSmall result.client }
{
    CallId { client: 1, number }
}

/// Call 1 puts two edges.
pub fn put_edges(alloc: Global) -> Result<Packet, NoMemory>
    ensures { IfOk result (λ packet. IsHeard (Sent packet)) }
{
    let list = halves(alloc)?;
    Ok(request(0, 1, PartEntry::Prime(call(1), list, false)))
}

/// Call 2 reads the edges that leave vertex 1, by this try.
pub fn read_edges(alloc: Global, count: u32) -> Result<Packet, NoMemory>
    ensures { IfOk result (λ packet. IsHeard (Sent packet)) }
{
    let query = Query::Out(Vid::Num(1), Types::from_slice(alloc, &[1])?);
    Ok(request(count, 2, PartEntry::Read(call(2), query)))
}
