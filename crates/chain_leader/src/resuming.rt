//! How a leader takes up the chains that stand.
ghost use Rattle.std.specs.Prelude.{◌≡◌, ◌≤◌, ◌-◌, ◌++◌, length, IfOk, OnOk, map};
ghost use Rattle.std.specs.Option.{option_to_list};
ghost use Rattle.std.specs.FinMap as fin;
ghost use Rattle.chain_leader.specs.Leader.{said_of, resumption};
ghost use Rattle.chain_leader.specs.Resuming.{row_for, all_taken_up, resumptions, further};

use crate::body::ChainBody;
use crate::letter::Letter;
use crate::rules::{added, message, mode_for};
use crate::table::{ChainTable, next_try};
use graph_model::EdgeHalves;
use lists::{Listed, NoMemory};
use part_keys::{ChainMsg, ChainState, Policy, PrimeRec};
use std::alloc::Global;

/// What a step of Resume takes: the letters that leave, and a row for each chain that is taken up, as it would be added.
#[derive(Drop)]
pub struct TakenUp {
    pub letters: Listed<Letter>,
    pub rows: Vec<(u64, ChainState)>,
}

/// What a message says, for a chain with that list, by a leader of that term.
fn said_of(
    alloc: Global,
    term: u64,
    list: &EdgeHalves,
    message: ChainMsg,
) -> Result<ChainBody, NoMemory>
    ensures { IfOk result (λ body. body ≡ said_of term list.now message) }
{
    match message {
        ChainMsg::Remote(v) => Ok(ChainBody::Remote(term, v, list.copy(alloc)?)),
        ChainMsg::Fence(v) => Ok(ChainBody::Fence(term, v, list.edges(alloc)?)),
    }
}

/// The letter that leaves when a chain that stands is taken up.
fn resumption(
    alloc: Global,
    term: u64,
    t: &ChainTable,
    rec: &PrimeRec,
    policy: Policy,
) -> Result<Letter, NoMemory>
    ensures { IfOk result (λ letter. letter ≡ resumption term rec.now policy (fin.get t.now.0 rec.now.v)) }
{
    let Some(chain) = t.get(rec.v) else {
        let message = message(mode_for(rec, policy), rec.v);
        let body = said_of(alloc, term, &rec.list, message)?;
        return Ok(Letter::Cross(rec.remote, 0, body));
    };
    let message = message(chain.mode, rec.v);
    let body = said_of(alloc, term, &chain.list, message)?;
    Ok(Letter::Cross(chain.remote, next_try(chain.tries), body))
}

/// The letters of these chains, in order.
pub(crate) fn resumptions(
    alloc: Global,
    term: u64,
    t: &ChainTable,
    standing: &[PrimeRec],
    policy: Policy,
) -> Result<Listed<Letter>, NoMemory>
    ensures { IfOk result (λ letters. letters ≡ resumptions term policy t.now.0 standing.now) }
{
    let mut letters = Listed::new(alloc);
    for rec in standing {
        letters.push(resumption(alloc, term, t, rec, policy)?)?;
    }
    Ok(letters)
}

/// The rows of these chains, as they would be added.
pub(crate) fn rows_for(
    alloc: Global,
    standing: &[PrimeRec],
    policy: Policy,
) -> Result<Vec<(u64, ChainState)>, NoMemory>
    ensures { IfOk result (λ rows. rows.items ≡ map (row_for policy) standing.now) }
{
    let mut rows = Vec::new(alloc);
    for rec in standing {
        let list = rec.list.copy(alloc)?;
        rows.push((rec.v, added(rec, list, mode_for(rec, policy))))?;
    }
    Ok(rows)
}

/// The further Resume behind the last of these chains, where more stand.
fn further(standing: &[PrimeRec], more: bool) -> Option<Letter>
    ensures { result ≡ further more standing.now }
{
    if !more {
        return None;
    }
    let Some(last) = standing.get(63) else {
        return None;
    };
    Some(Letter::Again(Some(last.v)))
}

/// Puts the further Resume behind the letters, where more stand.
pub(crate) fn go_further(
    letters: &mut Listed<Letter>,
    standing: &[PrimeRec],
    more: bool,
) -> Result<(), NoMemory>
    ensures { OnOk result (letters.new ≡ letters.old ++ option_to_list (further more standing.now)) }
{
    let Some(letter) = further(standing, more) else {
        return Ok(());
    };
    letters.push(letter)?;
    Ok(())
}

/// Takes up the chains of these rows, in order. It takes no memory.
pub(crate) fn take_up_all(t: &mut ChainTable, rows: Vec<(u64, ChainState)>)
    requires { length rows.items ≤ t.old.1 }
    ensures table { t.new.0 ≡ all_taken_up rows.items t.old.0 }
    ensures room { t.old.1 - length rows.items ≤ t.new.1 }
{
    for row in rows {
        t.take_up(row);
    }
}
