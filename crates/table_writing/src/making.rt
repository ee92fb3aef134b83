//! Rows that are made.
ghost use Rattle.std.specs.Prelude.{◌≡◌, ◌<◌, ◌≤◌, ◌^◌, ◌==◌, not, map, length, Some, IfOk};
ghost use Rattle.std.specs.List.{filter};
ghost use Rattle.meta_parts.specs.declared.table.PeerRow.{PeerRow as Peer};
ghost use Rattle.meta_parts.specs.Table as rules;

use crate::rows::is_open_on;
use lists::{Listed, NoMemory};
use meta_parts::{Nodes, PartRow, PeerRow, Stage, TaskRow};
use std::alloc::Global;

/// The numbers from 1 on, so many.
pub(crate) fn numbers(alloc: Global, count: u32) -> Result<Nodes, NoMemory>
    ensures { IfOk result (λ list. list ≡ rules.numbers count) }
{
    let mut list = Listed::new(alloc);
    for i in 0..count {
        list.push(i + 1)?;
    }
    Ok(list)
}

// The node of a part's peer, over these nodes.
fn node_of(up: &[u32], part: u32, peer: u32) -> u32
    requires some { 0 < length up.now }
    requires part { (0 < part) × (part ≤ 64) }
    requires peer { (0 < peer) × (peer ≤ 64) }
    ensures { record { peer = peer; node = result } ≡ rules.peer_row up.now part peer }
{
    up[(part + peer - 2) as usize % up.len()]
}

// The peers of a part, over these nodes.
fn peer_rows(alloc: Global, factor: u32, up: &[u32], part: u32) -> Result<Listed<PeerRow>, NoMemory>
    requires some { 0 < length up.now }
    requires part { (0 < part) × (part ≤ 64) }
    requires factor { factor ≤ 64 }
    ensures { IfOk result (λ list. list ≡ map (rules.peer_row up.now part) (rules.numbers factor)) }
{
    let mut list = Listed::new(alloc);
    for i in 0..factor {
        let peer = i + 1;
        let node = node_of(up, part, peer);
        list.push(PeerRow { peer, node })?;
    }
    Ok(list)
}

/// The rows of so many parts of so many peers each, over these nodes.
pub(crate) fn part_rows(
    alloc: Global,
    parts: u32,
    factor: u32,
    up: &[u32],
) -> Result<Listed<PartRow>, NoMemory>
    requires some { 0 < length up.now }
    requires parts { parts ≤ 64 }
    requires factor { factor ≤ 64 }
    ensures { IfOk result (λ list. list ≡ map (rules.part_row factor up.now) (rules.numbers parts)) }
{
    let mut list = Listed::new(alloc);
    for i in 0..parts {
        let part = i + 1;
        let peers = peer_rows(alloc, factor, up, part)?;
        list.push(PartRow {
            part,
            peers,
            next_peer: factor + 1,
        })?;
    }
    Ok(list)
}

// A copy of some peers but that one.
fn without(alloc: Global, peers: &[PeerRow], peer: u32) -> Result<Listed<PeerRow>, NoMemory>
    ensures { IfOk result (λ list. list ≡ filter (λ (x : Peer). not (x.peer == peer)) peers.now) }
{
    let mut list = Listed::new(alloc);
    for row in peers {
        if row.peer != peer {
            list.push(*row)?;
        }
    }
    Ok(list)
}

// A part's row behind its move.
fn replaced(alloc: Global, row: &PartRow, task: &TaskRow) -> Result<PartRow, NoMemory>
    ensures { IfOk result (λ made. made ≡ rules.replaced_by (Some task.now) row.now) }
{
    let mut peers = Listed::from_slice(alloc, row.peers.as_slice())?;
    if row.part == task.part {
        peers = without(alloc, row.peers.as_slice(), task.old_peer)?;
        peers.push(PeerRow {
            peer: task.new_peer,
            node: task.to,
        })?;
    }
    Ok(PartRow {
        part: row.part,
        peers,
        next_peer: row.next_peer,
    })
}

/// The rows behind a part's move.
pub(crate) fn rows_behind(
    alloc: Global,
    rows: &[PartRow],
    task: &TaskRow,
) -> Result<Listed<PartRow>, NoMemory>
    ensures { IfOk result (λ list. list ≡ map (rules.replaced_by (Some task.now)) rows.now) }
{
    let mut list = Listed::new(alloc);
    for row in rows {
        list.push(replaced(alloc, row, task)?)?;
    }
    Ok(list)
}

/// The rows once a part has had a peer of this id.
pub(crate) fn rows_counted(
    alloc: Global,
    rows: &[PartRow],
    part: u32,
    new: u32,
) -> Result<Listed<PartRow>, NoMemory>
    requires { new < 2 ^ 31 }
    ensures { IfOk result (λ list. list ≡ map (rules.counted_on part new) rows.now) }
{
    let mut list = Listed::new(alloc);
    for row in rows {
        let peers = Listed::from_slice(alloc, row.peers.as_slice())?;
        let next_peer = if row.part == part {
            new + 1
        } else {
            row.next_peer
        };
        list.push(PartRow {
            part: row.part,
            peers,
            next_peer,
        })?;
    }
    Ok(list)
}

/// The moves, the part's open one with this stage.
pub(crate) fn staged(
    alloc: Global,
    tasks: &[TaskRow],
    part: u32,
    stage: Stage,
) -> Result<Listed<TaskRow>, NoMemory>
    ensures { IfOk result (λ list. list ≡ map (rules.staged part stage) tasks.now) }
{
    let mut list = Listed::new(alloc);
    for task in tasks {
        let mut made = *task;
        if is_open_on(task, part) {
            made.stage = stage;
        }
        list.push(made)?;
    }
    Ok(list)
}
