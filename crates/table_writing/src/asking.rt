//! What the world asks of a table.
ghost use Rattle.std.specs.Prelude.{◌≡◌, ℕ, List};
ghost use Rattle.meta_parts.specs.declared.table.MetaBody.TheVariants as body;
ghost use Rattle.meta_parts.specs.Table as rules;

use crate::rows::{
    are_among, are_rising, has_open, is_among, is_at, is_coming, is_on_any, open_task, place_of,
    row_of,
};
use meta_parts::{MetaBody, Nodes, PartTable, Stage};
use part_keys::VidKind;

/// Who gets a packet that goes to a part by this try: the peer at that place among the part's, counted round. None exactly where
/// the part has no peer. It takes no memory.
pub fn tried(table: &PartTable, part: u32, tries: u32) -> Option<u32>
    ensures { result ≡ rules.tried table.now part tries }
{
    let row = row_of(table.rows.as_slice(), part)?;
    let peers = row.peers.as_slice();
    if peers.is_empty() {
        return None;
    }
    Some(peers[tries as usize % peers.len()].peer)
}

/// Whether the table has that peer of the part on that node, in the part's row or in its open move. It takes no memory.
pub fn has_peer(table: &PartTable, part: u32, node: u32, peer: u32) -> bool
    ensures { result ≡ rules.has_peer table.now part node peer }
{
    let here = match row_of(table.rows.as_slice(), part) {
        Some(row) => is_at(row.peers.as_slice(), node, peer),
        None => false,
    };
    here || is_coming(table.tasks.as_slice(), part, node, peer)
}

// At most 64 parts of 1, 3 or 5 peers each, over at least as many nodes of the table; no move was ever opened.
fn may_allocate(table: &PartTable, parts: u32, factor: u32, up: &Nodes, ids: VidKind) -> bool
    ensures { (nodes : List ℕ) → nodes ≡ up.now → result ≡ rules.may_write table.now (body.Allocate parts factor nodes ids) }
{
    if parts == 0 || parts > 64 {
        return false;
    }
    if factor != 1 && factor != 3 && factor != 5 {
        return false;
    }
    if !are_rising(up.as_slice()) || !are_among(up.as_slice(), table.nodes.as_slice()) {
        return false;
    }
    if factor as usize > up.len() || !is_kind(ids) {
        return false;
    }
    table.tasks.is_empty()
}

// The next number, up to 8.
fn may_add(table: &PartTable, node: u32) -> bool
    ensures { result ≡ rules.may_write table.now (body.Node node) }
{
    if node == 0 || node > 8 {
        return false;
    }
    node as usize - 1 == table.nodes.len()
}

// Whether texts of such ids have at least one byte and at most 32.
fn is_kind(ids: VidKind) -> bool
    ensures { result ≡ rules.is_kind ids }
{
    match ids {
        VidKind::Num => true,
        VidKind::Name(most) => 0 < most && most <= 32,
    }
}

// The part has a peer on the one node and none on the other, which is of the table; it has no open move; the new peer has the
// next id.
fn may_move(table: &PartTable, part: u32, from: u32, to: u32, new: u32) -> bool
    ensures { result ≡ rules.may_write table.now (body.Task part from to new) }
{
    let Some(row) = row_of(table.rows.as_slice(), part) else {
        return false;
    };
    if !is_on_any(row.peers.as_slice(), from) || is_on_any(row.peers.as_slice(), to) {
        return false;
    }
    if !is_among(to, table.nodes.as_slice()) || has_open(table.tasks.as_slice(), part) {
        return false;
    }
    new == row.next_peer && new < 1 << 31
}

// The part has an open move, and this is the stage behind its own.
fn may_go_on(table: &PartTable, part: u32, stage: Stage) -> bool
    ensures { result ≡ rules.may_write table.now (body.Stage part stage) }
{
    match open_task(table.tasks.as_slice(), part) {
        Some(task) => place_of(stage) == place_of(task.stage) + 1,
        None => false,
    }
}

/// Whether the body may be written. It takes no memory.
pub fn may_write(table: &PartTable, made: &MetaBody) -> bool
    ensures { result ≡ rules.may_write table.now made.now }
{
    match made {
        MetaBody::Allocate(parts, factor, up, ids) => may_allocate(
            table, *parts, *factor, up, *ids,
        ),
        MetaBody::Node(node) => may_add(table, *node),
        MetaBody::Task(part, from, to, new) => may_move(table, *part, *from, *to, *new),
        MetaBody::Stage(part, stage) => may_go_on(table, *part, *stage),
    }
}
