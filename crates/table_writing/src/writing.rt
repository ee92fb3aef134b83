//! A body is written.
ghost use Rattle.std.specs.Prelude.{◌≡◌, true, IfOk, OnOk, OnErr};
ghost use Rattle.meta_parts.specs.declared.table.MetaBody.TheVariants as body;
ghost use Rattle.meta_parts.specs.Table as rules;

use crate::making::{numbers, part_rows, rows_behind, rows_counted, staged};
use crate::rows::{open_task, peer_on, row_of};
use lists::{Listed, NoMemory};
use meta_parts::{MetaBody, PartTable, Stage, TaskRow};
use part_keys::VidKind;
use std::alloc::Global;

/// The table at boot: so many nodes, and nothing else. Refused for want of memory alone.
pub fn boot(alloc: Global, nodes: u32) -> Result<PartTable, NoMemory>
    ensures { IfOk result (λ table. table ≡ rules.boot nodes) }
{
    Ok(PartTable {
        rows: Listed::new(alloc),
        nodes: numbers(alloc, nodes)?,
        tasks: Listed::new(alloc),
        factor: 0,
        ids: VidKind::Num,
    })
}

// A part's move is opened.
fn open_move(
    alloc: Global,
    table: &mut PartTable,
    part: u32,
    from: u32,
    to: u32,
    new: u32,
) -> Result<(), NoMemory>
    requires { rules.may_write table.old (body.Task part from to new) ≡ true }
    ensures ok { OnOk result (table.new ≡ rules.written table.old (body.Task part from to new)) }
    ensures err { OnErr result (table.new ≡ table.old) }
{
    let rows = rows_counted(alloc, table.rows.as_slice(), part, new)?;
    let old_peer = peer_at(table, part, from);
    table.tasks.push(TaskRow {
        part,
        from,
        to,
        old_peer,
        new_peer: new,
        stage: Stage::ChangeLeader,
    })?;
    table.rows = rows;
    Ok(())
}

// A part's peer on a node, 0 where it has none.
fn peer_at(table: &PartTable, part: u32, node: u32) -> u32
    ensures { result ≡ rules.peer_on table.now part node }
{
    let Some(row) = row_of(table.rows.as_slice(), part) else {
        return 0;
    };
    match peer_on(row.peers.as_slice(), node) {
        Some(peer) => peer.peer,
        None => 0,
    }
}

// A part's move comes to a stage.
fn go_on(alloc: Global, table: &mut PartTable, part: u32, stage: Stage) -> Result<(), NoMemory>
    requires { rules.may_write table.old (body.Stage part stage) ≡ true }
    ensures ok { OnOk result (table.new ≡ rules.written table.old (body.Stage part stage)) }
    ensures err { OnErr result (table.new ≡ table.old) }
{
    let tasks = staged(alloc, table.tasks.as_slice(), part, stage)?;
    if let Stage::RemovePart = stage {
        let Some(task) = open_task(table.tasks.as_slice(), part) else {
            unreachable!();
        };
        table.rows = rows_behind(alloc, table.rows.as_slice(), task)?;
    }
    table.tasks = tasks;
    Ok(())
}

/// The body, which may be written, is. Refused for want of memory alone, and then the table is as it was.
pub fn write(alloc: Global, table: &mut PartTable, made: &MetaBody) -> Result<(), NoMemory>
    requires { rules.may_write table.old made.now ≡ true }
    ensures ok { OnOk result (table.new ≡ rules.written table.old made.now) }
    ensures err { OnErr result (table.new ≡ table.old) }
{
    match made {
        MetaBody::Allocate(parts, factor, up, ids) => {
            table.rows = part_rows(alloc, *parts, *factor, up.as_slice())?;
            table.factor = *factor;
            table.ids = *ids;
            Ok(())
        }
        MetaBody::Node(node) => table.nodes.push(*node),
        MetaBody::Task(part, from, to, new) => open_move(alloc, table, *part, *from, *to, *new),
        MetaBody::Stage(part, stage) => go_on(alloc, table, *part, *stage),
    }
}
