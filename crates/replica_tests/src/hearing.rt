//! Which packets these runs bring to a replica, as far as it has to be known of a packet that it may be taken.
ghost use Rattle.std.specs.Prelude.{IsTrue};
ghost use Rattle.graph_bytes.specs.declared.id_form.IdForm.TheVariants.{Tagged};
ghost use Rattle.graph_bytes.specs.Fits.{IsSmall, HasSpellingEnds, HasSpellingHalf, HasSpellingHalves, HasSpellingEdgeHalf};
ghost use Rattle.raft_log.specs.Config.{IsItem, AreEntries};
ghost use Rattle.raft_core.specs.Ahead.{IsMessage};
ghost use Rattle.replica_model.specs.declared.input.Input.TheVariants.{Sent};
ghost use Rattle.replica_state.specs.State.{IsHeard, IsHeardPlace, IsHeardSaid, IsHeardBody};

use chain_leader::ChainBody;
use graph_model::{EdgeId, Half, Val, Vid};
use raft_log::{Entry, Item, RaftMsg};
use replica_model::{Body, Packet, Place};

fn from_one(from: Place) -> bool
    ensures { IsTrue result → IsHeardPlace from }
{
    match from {
        Place::Client(_) => true,
        Place::Peer(part, _) => part == 1,
    }
}

fn is_entry(item: &Item) -> bool
    ensures { IsTrue result → IsItem item.now }
{
    match item {
        Item::Members(_) => false,
        _ => true,
    }
}

fn are_entries(entries: &[Entry]) -> bool
    ensures { IsTrue result → AreEntries entries.now }
{
    for entry in entries {
        if !is_entry(&entry.item) {
            return false;
        }
    }
    true
}

fn is_message(message: &RaftMsg) -> bool
    ensures { IsTrue result → IsMessage message.now }
{
    match message {
        RaftMsg::Append(_, _, _, _, entries) => are_entries(entries.as_slice()),
        _ => true,
    }
}

fn has_numbers(edge: &EdgeId) -> bool
    ensures { IsTrue result → HasSpellingEnds Tagged edge.now }
{
    match (edge.src, edge.dst) {
        (Vid::Num(_), Vid::Num(_)) => true,
        _ => false,
    }
}

fn is_number(half: &Half) -> bool
    ensures { IsTrue result → HasSpellingHalf half.now }
{
    match half {
        Half::Absent => true,
        Half::Here(row) => match row.as_slice() {
            [Val::Int(_)] => true,
            _ => false,
        },
    }
}

fn is_pair(pair: &(EdgeId, Half)) -> bool
    ensures { IsTrue result → HasSpellingEdgeHalf Tagged pair.now }
{
    let (edge, half) = pair;
    if !has_numbers(edge) {
        return false;
    }
    is_number(half)
}

fn are_numbers(list: &[(EdgeId, Half)]) -> bool
    ensures { IsTrue result → HasSpellingHalves Tagged list.now }
{
    let [first, second] = list else {
        return false;
    };
    if !is_pair(first) {
        return false;
    }
    is_pair(second)
}

fn is_said(said: &ChainBody) -> bool
    ensures { IsTrue result → IsHeardSaid said.now }
{
    match said {
        ChainBody::Request(_, _) => false,
        ChainBody::Fence(_, _, _) => false,
        ChainBody::Remote(_, _, list) => are_numbers(list.as_slice()),
        _ => true,
    }
}

fn is_body(body: &Body) -> bool
    ensures { IsTrue result → IsHeardBody body.now }
{
    match body {
        Body::Raft(message) => is_message(message),
        Body::Chain(said) => is_said(said),
    }
}

/// Whether it is one of these: its sender is a client or a peer of part 1, and it brings no Request, no configuration and, of
/// two edges with a number at each end, halves with one number or none.
pub fn is_heard(packet: &Packet) -> bool
    ensures { IsTrue result → IsHeard (Sent packet.now) }
{
    if !from_one(packet.from) {
        return false;
    }
    is_body(&packet.body)
}
