//! How many bytes a packet takes at most, by which its buffer is made in one piece. It is no promise: a packet that needs
//! more takes more.
use chain_leader::ChainBody;
use graph_model::{Answer, Row, Val, View};
use part_keys::{edges_room, entry_room, halves_room};
use raft_log::RaftMsg;
use replica_model::Body;
use wal_frames::entries_room;

/// The most bytes of a packet but for a list, an entry or rows in it: its kind, its two ends and its other fields.
const MOST_FIELDS: usize = 64;

/// The most bytes of a row of an answer but for its values: its kind, an edge, and a count.
const MOST_FOUND: usize = 84;

/// The most bytes of a value but for a text's: its kind, and a number or a length.
const MOST_VALUE: usize = 9;

fn values_room(vals: &Row) -> usize {
    let mut room: usize = 0;
    for val in vals.as_slice() {
        let text = match val {
            Val::Words(text) => text.len(),
            _ => 0,
        };
        room = room.saturating_add(text).saturating_add(MOST_VALUE);
    }
    room
}

fn view_room(list: &View) -> usize {
    let mut room: usize = 4;
    for found in list.as_slice() {
        room = room
            .saturating_add(values_room(&found.row))
            .saturating_add(MOST_FOUND);
    }
    room
}

/// Of a packet with this body.
pub(crate) fn body_room(body: &Body) -> usize {
    let list = match body {
        Body::Raft(RaftMsg::Append(_, _, _, _, entries)) => entries_room(entries),
        Body::Chain(ChainBody::Request(_, entry)) => entry_room(entry),
        Body::Chain(ChainBody::Answer(_, Answer::Shown(view))) => view_room(view),
        Body::Chain(ChainBody::Remote(_, _, list)) => halves_room(list),
        Body::Chain(ChainBody::Fence(_, _, list)) => edges_room(list),
        _ => 0,
    };
    list.saturating_add(MOST_FIELDS)
}
