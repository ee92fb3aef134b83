//! What is looked up in a table.
ghost use Rattle.std.specs.Prelude.{◌≡◌, ◌==◌, ◌&&◌, ℕ, option_copied};
ghost use Rattle.std.specs.List.{find, list_any, list_all};
ghost use Rattle.raft_log.specs.Majority.{is_among as among};
ghost use Rattle.meta_parts.specs.declared.table.PartRow.{PartRow as Row};
ghost use Rattle.meta_parts.specs.declared.table.PeerRow.{PeerRow as Peer};
ghost use Rattle.meta_parts.specs.declared.table.TaskRow.{TaskRow as Task};
ghost use Rattle.meta_parts.specs.Table as rules;

use meta_parts::{PartRow, PeerRow, Stage, TaskRow};

/// The row of a part.
pub(crate) fn row_of(rows: &[PartRow], part: u32) -> Option<&PartRow>
    ensures { option_copied result ≡ find (λ (row : Row). row.part == part) rows.now }
{
    for row in rows {
        if row.part == part {
            return Some(row);
        }
    }
    None
}

/// The peer on a node.
pub(crate) fn peer_on(peers: &[PeerRow], node: u32) -> Option<&PeerRow>
    ensures { option_copied result ≡ find (rules.is_on node) peers.now }
{
    for row in peers {
        if row.node == node {
            return Some(row);
        }
    }
    None
}

/// Whether any peer is on the node.
pub(crate) fn is_on_any(peers: &[PeerRow], node: u32) -> bool
    ensures { result ≡ list_any (rules.is_on node) peers.now }
{
    for row in peers {
        if row.node == node {
            return true;
        }
    }
    false
}

/// Whether that peer is on that node.
pub(crate) fn is_at(peers: &[PeerRow], node: u32, peer: u32) -> bool
    ensures { result ≡ list_any (λ (row : Peer). (row.peer == peer) && (row.node == node)) peers.now }
{
    for row in peers {
        if row.peer == peer && row.node == node {
            return true;
        }
    }
    false
}

/// The place of a stage in their order.
pub(crate) fn place_of(stage: Stage) -> u32
    ensures { result ≡ rules.place_of stage }
{
    match stage {
        Stage::ChangeLeader => 0,
        Stage::AddPart => 1,
        Stage::AddLearner => 2,
        Stage::CatchUp => 3,
        Stage::MemberAdd => 4,
        Stage::MemberRemove => 5,
        Stage::UpdateMeta => 6,
        Stage::RemovePart => 7,
        Stage::End => 8,
    }
}

/// Whether this is an open move of the part.
pub(crate) fn is_open_on(task: &TaskRow, part: u32) -> bool
    ensures { result ≡ rules.is_open_on part task.now }
{
    task.part == part && place_of(task.stage) < 8
}

/// The part's open move.
pub(crate) fn open_task(tasks: &[TaskRow], part: u32) -> Option<&TaskRow>
    ensures { option_copied result ≡ find (rules.is_open_on part) tasks.now }
{
    for task in tasks {
        if is_open_on(task, part) {
            return Some(task);
        }
    }
    None
}

/// Whether the part has an open move.
pub(crate) fn has_open(tasks: &[TaskRow], part: u32) -> bool
    ensures { result ≡ list_any (rules.is_open_on part) tasks.now }
{
    for task in tasks {
        if is_open_on(task, part) {
            return true;
        }
    }
    false
}

/// Whether an open move of the part brings that peer to that node.
pub(crate) fn is_coming(tasks: &[TaskRow], part: u32, node: u32, peer: u32) -> bool
    ensures { result ≡ list_any (λ (task : Task). rules.is_open_on part task && (task.new_peer == peer) && (task.to == node)) tasks.now }
{
    for task in tasks {
        if is_open_on(task, part) && task.new_peer == peer && task.to == node {
            return true;
        }
    }
    false
}

/// Whether the number is among these.
pub(crate) fn is_among(number: u32, numbers: &[u32]) -> bool
    ensures { result ≡ among number numbers.now }
{
    for other in numbers {
        if *other == number {
            return true;
        }
    }
    false
}

/// Whether the numbers rise from above 0.
pub(crate) fn are_rising(numbers: &[u32]) -> bool
    ensures { result ≡ rules.are_rising 0 numbers.now }
{
    let mut below = 0;
    for number in numbers {
        if *number <= below {
            return false;
        }
        below = *number;
    }
    true
}

/// Whether each number is among the others.
pub(crate) fn are_among(numbers: &[u32], others: &[u32]) -> bool
    ensures { result ≡ list_all (λ (n : ℕ). among n others.now) numbers.now }
{
    for number in numbers {
        if !is_among(*number, others) {
            return false;
        }
    }
    true
}
