//! What leaves of a step of the Raft peer that is made ahead.
ghost use Rattle.std.specs.Prelude.{◌≡◌, ◌++◌, ◌&&◌, [], map, IfOk, OnOk, if◌then◌else◌};
ghost use Rattle.std.specs.List.{filter};
ghost use Rattle.std.specs.Option.{option_to_list};
ghost use Rattle.chain_leader.specs.Leader as leader_of;
ghost use Rattle.chain_leader.specs.Leading as rules_of;
ghost use Rattle.replica_model.specs.Letters as letters;
ghost use Rattle.replica_model.specs.Replica.{no_hints};
ghost use Rattle.replica_model.specs.Stepped as steps;
ghost use Rattle.replica_state.specs.Leaving.{leaving_of};
ghost use Rattle.replica_state.specs.Places.{number_held};
ghost use Rattle.replica_state.specs.State.{row_of};
ghost use Rattle.replica_peer.specs.Stages.{told_by};

use crate::onward::Onward;
use crate::stages::chains_told;
use chain_leader::{Leader, Letter};
use lists::{Listed, NoMemory};
use replica_state::{
    Leaves, Places, ReplicaState, WaitingRead, Writer, answers_with, post, post_all,
};
use std::alloc::Global;
use std::collections::BTreeMap;

// The answers of the reads that are confirmed, where they stand. Refused for want of memory alone.
fn answers_ahead(
    alloc: Global,
    by: Writer,
    confirmed: u64,
    keeps: bool,
    rows: &[WaitingRead],
    begun: &Option<WaitingRead>,
) -> Result<Leaves, NoMemory>
    ensures { IfOk result (λ leaves. map leaving_of leaves ≡ map (steps.answer_row by.part by.me) (filter (steps.is_confirmed confirmed) (if keeps then map row_of rows.now ++ map row_of (option_to_list begun.now) else []))) }
{
    if !keeps {
        return Ok(Listed::new(alloc));
    }
    answers_with(alloc, by, confirmed, rows, begun)
}

// What a pulse sends, at a leader that leads on.
fn again(leader: &Leader, on: bool, pulses: bool) -> Option<Letter>
    ensures { option_to_list result ≡ (if on && pulses then rules_of.pulsed (leader_of.leads leader.now) else []) }
{
    if !on {
        return None;
    }
    if !pulses {
        return None;
    }
    leader.pulsed()
}

// Letters leave, and one more. Refused for want of memory alone.
fn post_both(
    by: Writer,
    hints: &Places<u32>,
    list: Vec<Letter>,
    last: Option<Letter>,
    leaves: &mut Leaves,
) -> Result<(), NoMemory>
    ensures { OnOk result (map leaving_of leaves.new ≡ map leaving_of leaves.old ++ map steps.leaving (letters.packets_of by.part by.me by.term (number_held hints.now.entries) None (list.items ++ option_to_list last))) }
{
    post_all(by, hints, None, list, leaves)?;
    post(by, hints, None, last, leaves)
}

// Letters leave, and one more: by the hints, where the leader leads on. Refused for want of memory alone.
fn post_on(
    alloc: Global,
    at: &Onward,
    hints: &Places<u32>,
    list: Vec<Letter>,
    last: Option<Letter>,
    leaves: &mut Leaves,
) -> Result<(), NoMemory>
    ensures { OnOk result (map leaving_of leaves.new ≡ map leaving_of leaves.old ++ map steps.leaving (letters.packets_of at.now.by.part at.now.by.me at.now.by.term (if at.now.on then number_held hints.now.entries else no_hints) None (list.items ++ option_to_list last))) }
{
    if at.on {
        return post_both(at.by, hints, list, last, leaves);
    }
    let none = BTreeMap::new(alloc);
    post_both(at.by, &none, list, last, leaves)
}

/// What leaves behind the answers of the entries that are applied: the answers of the reads that are confirmed, what the rules send,
/// and a pulse's Resume; and the chains about which the rules send. Refused for want of memory alone.
pub(crate) fn leave(
    alloc: Global,
    state: &ReplicaState,
    at: &Onward,
    confirmed: u64,
    pulses: bool,
    begun: &Option<WaitingRead>,
    rules: Vec<Letter>,
    mut leaves: Leaves,
) -> Result<(Leaves, Vec<u64>), NoMemory>
    ensures left { IfOk result (λ made. map leaving_of made.0 ≡ map leaving_of leaves
        ++ map (steps.answer_row at.now.by.part at.now.by.me) (filter (steps.is_confirmed confirmed) (if at.now.keeps then map row_of state.now.rows.items ++ map row_of (option_to_list begun.now) else []))
        ++ map steps.leaving (letters.packets_of at.now.by.part at.now.by.me at.now.by.term (if at.now.on then number_held state.now.hints.entries else no_hints) None (rules.items ++ (if at.now.on && pulses then rules_of.pulsed (leader_of.leads state.now.leader) else [])))) }
    ensures told { IfOk result (λ made. made.1.items ≡ told_by rules.items) }
{
    let told = chains_told(alloc, rules.as_slice())?;
    let answers = answers_ahead(
        alloc,
        at.by,
        confirmed,
        at.keeps,
        state.rows.as_slice(),
        begun,
    )?;
    leaves.append(answers)?;
    let last = again(&state.leader, at.on, pulses);
    post_on(alloc, at, &state.hints, rules, last, &mut leaves)?;
    Ok((leaves, told))
}
