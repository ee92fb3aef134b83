//! The words of a run: entries of part 2 of 2, and what they are answered.
ghost use Rattle.std.specs.Prelude.{◌≡◌, [], ◌∷◌, ◌<◌, ◌+◌, ◌-◌, ◌^◌, ℕ, List, IfOk, OnOk};
ghost use Rattle.graph_bytes.specs.Fits.{IsSmall, HasSpellingHalf};
ghost use Rattle.part_keys.specs.declared.entry.PartEntry.{PartEntry as Entry};
ghost use Rattle.part_rules.specs.Part.{Part};
ghost use Rattle.part_store.specs.Settings.{AreFrom, AreInto, AreEnds};
ghost use Rattle.part_machine.specs.Machine.{IsMachine};
ghost use Rattle.part_machine.specs.Taken.{IsTaken, IsChange};
ghost use Rattle.machine_tests.specs.Here.{here};

use graph_model::{CallId, EdgeHalves, EdgeId, Edges, Half, Op, Row, Val, Vid};
use kv_part::{KeyStore, MapStore};
use lists::{Copied, Listed, NoMemory};
use part_keys::{PartEntry, VidKind};
use part_machine::{Applied, Machine, Outcome, PlacedEntries};
use std::alloc::Global;

/// A client.
#[derive(Clone, Copy)]
pub enum Who {
    One,
    Two,
}

/// An entry. A call is one of this client with this number; a value of an edge may be none.
#[derive(Clone, Copy)]
pub enum Line {
    /// A call puts 1->2, and with the first flag 1->4 too, with this value, or removes them; the last flag is IF NOT EXISTS.
    Prime(Who, u64, bool, Option<i64>, bool),
    Local(u64),
    Double(u64),
    Close(u64),
    Abort(u64),
    /// A leader of part 1 of this term: chain `v` puts 2->1 and 4->1 with this value, or removes them.
    Remote(u64, u64, Option<i64>),
    /// A leader of part 1 of this term asks of chain `v`.
    Fence(u64, u64),
    /// A call of client 1 puts tag 7 of vertex 1; the flag is IF NOT EXISTS.
    Tag(u64, bool),
    /// A call of client 1 removes the tags of vertex 1.
    Gone(u64),
}

/// What is kept of a call.
#[derive(Clone, Copy, Debug, PartialEq, Eq)]
pub enum Came {
    Open,
    Fine,
    Skipped,
    Pending,
    Cancelled,
    Conflict(u32, u64),
}

/// An answer.
#[derive(Clone, Copy, Debug, PartialEq, Eq)]
pub enum Said {
    Old,
    Again(Came),
    Conflict(u32, u64),
    Skipped,
    Begun(u64),
    Settled(u32, u64),
    Doubled(u32, u64),
    Closed(u32, u64),
    Aborted(u32, u64),
    Stale(u64),
    Done,
    Fenced(bool),
    Finished(u32, u64),
    Nothing,
}

/// The edge from 1 to 2.
const FIRST: EdgeId = EdgeId {
    src: Vid::Num(1),
    etype: 1,
    rank: 0,
    dst: Vid::Num(2),
};

/// The edge from 1 to 4.
const SECOND: EdgeId = EdgeId {
    src: Vid::Num(1),
    etype: 1,
    rank: 0,
    dst: Vid::Num(4),
};

/// The edge from 2 to 1.
const FIRST_BACK: EdgeId = EdgeId {
    src: Vid::Num(2),
    etype: 1,
    rank: 0,
    dst: Vid::Num(1),
};

/// The edge from 4 to 1.
const SECOND_BACK: EdgeId = EdgeId {
    src: Vid::Num(4),
    etype: 1,
    rank: 0,
    dst: Vid::Num(1),
};

fn half_of(alloc: Global, value: Option<i64>) -> Result<Half, NoMemory>
    ensures { IfOk result HasSpellingHalf }
{
    let Some(value) = value else {
        return Ok(Half::Absent);
    };
    let mut row = Row::new(alloc);
    row.push(Val::Int(value))?;
    Ok(Half::Here(row))
}

fn one_away(alloc: Global, value: Option<i64>) -> Result<EdgeHalves, NoMemory>
    ensures { IfOk result (AreFrom here) }
{
    let first = half_of(alloc, value)?;
    let mut list = Listed::new(alloc);
    list.push((FIRST, first))?;
    Ok(EdgeHalves::new(list))
}

fn two_away(alloc: Global, value: Option<i64>) -> Result<EdgeHalves, NoMemory>
    ensures { IfOk result (AreFrom here) }
{
    let first = half_of(alloc, value)?;
    let second = half_of(alloc, value)?;
    let mut list = Listed::new(alloc);
    list.push((FIRST, first))?;
    list.push((SECOND, second))?;
    Ok(EdgeHalves::new(list))
}

fn two_back(alloc: Global, value: Option<i64>) -> Result<EdgeHalves, NoMemory>
    ensures { IfOk result (AreInto here) }
{
    let first = half_of(alloc, value)?;
    let second = half_of(alloc, value)?;
    let mut list = Listed::new(alloc);
    list.push((FIRST_BACK, first))?;
    list.push((SECOND_BACK, second))?;
    Ok(EdgeHalves::new(list))
}

fn back_edges(alloc: Global) -> Result<Edges, NoMemory>
    ensures { IfOk result (AreEnds here) }
{
    let mut list = Listed::new(alloc);
    list.push(FIRST_BACK)?;
    list.push(SECOND_BACK)?;
    Ok(Edges::new(list))
}

fn call(who: Who, number: u64) -> CallId
    ensures { IsSmall result.client }
{
    let client = match who {
        Who::One => 1,
        Who::Two => 2,
    };
    CallId { client, number }
}

fn tag_put(alloc: Global, absent: bool) -> Result<Op, NoMemory>
    ensures { IfOk result (IsChange here) }
{
    let mut row = Row::new(alloc);
    row.push(Val::Int(5))?;
    Ok(Op::PutVertex(Vid::Num(1), 7, row, absent))
}

fn entry_of(alloc: Global, line: Line) -> Result<PartEntry, NoMemory>
    ensures { IfOk result (IsTaken here) }
{
    Ok(match line {
        Line::Prime(who, number, both, value, absent) => {
            let list = if both {
                two_away(alloc, value)?
            } else {
                one_away(alloc, value)?
            };
            PartEntry::Prime(call(who, number), list, absent)
        }
        Line::Local(v) => PartEntry::Local(v),
        Line::Double(v) => PartEntry::Double(v),
        Line::Close(v) => PartEntry::Close(v),
        Line::Abort(v) => PartEntry::Abort(v),
        Line::Remote(term, v, value) => PartEntry::Remote(1, term, v, two_back(alloc, value)?),
        Line::Fence(term, v) => PartEntry::Fence(1, term, v, back_edges(alloc)?),
        Line::Tag(number, absent) => PartEntry::Vertex(
            call(Who::One, number),
            tag_put(alloc, absent)?,
        ),
        Line::Gone(number) => PartEntry::Vertex(call(Who::One, number), Op::DelVertex(Vid::Num(1))),
    })
}

fn came_to(outcome: Outcome) -> Came {
    match outcome {
        Outcome::Open => Came::Open,
        Outcome::Fine => Came::Fine,
        Outcome::Skipped => Came::Skipped,
        Outcome::Pending => Came::Pending,
        Outcome::Cancelled => Came::Cancelled,
        Outcome::Conflict(id) => Came::Conflict(id.client, id.number),
    }
}

fn answer_of(answer: &Applied) -> Said {
    match answer {
        Applied::Old => Said::Old,
        Applied::Again(outcome) => Said::Again(came_to(*outcome)),
        Applied::Conflict(id) => Said::Conflict(id.client, id.number),
        Applied::Skipped => Said::Skipped,
        Applied::Begun(v) => Said::Begun(*v),
        Applied::Settled(id) => Said::Settled(id.client, id.number),
        Applied::Doubled(id) => Said::Doubled(id.client, id.number),
        Applied::Closed(id) => Said::Closed(id.client, id.number),
        Applied::Aborted(id) => Said::Aborted(id.client, id.number),
        Applied::Stale(term) => Said::Stale(*term),
        Applied::Done => Said::Done,
        Applied::Fenced(all) => Said::Fenced(*all),
        Applied::Finished(id) => Said::Finished(id.client, id.number),
        Applied::Nothing => Said::Nothing,
    }
}

/// Applies the line's entry at this index.
fn step(
    alloc: Global,
    machine: &mut Machine<MapStore>,
    index: u64,
    line: Line,
) -> Result<Said, NoMemory>
    requires shows { (p : Part) × (entries : List (ℕ × Entry)) × IsMachine ⟦<MapStore as KeyStore>⟧.meaning ⟦<MapStore as KeyStore>⟧.has_place p entries machine.old }
    requires setting { machine.old.setting ≡ here }
    requires next { machine.old.next ≡ index }
    requires small { index < 2 ^ 64 - 1 }
    ensures shows { OnOk result ((p : Part) × (entries : List (ℕ × Entry)) × IsMachine ⟦<MapStore as KeyStore>⟧.meaning ⟦<MapStore as KeyStore>⟧.has_place p entries machine.new) }
    ensures setting { OnOk result (machine.new.setting ≡ here) }
    ensures next { OnOk result (machine.new.next ≡ index + 1) }
{
    let entry = entry_of(alloc, line)?;
    let list = placed(alloc, index, &entry)?;
    machine.reserve(alloc, &list)?;
    let answer = machine.apply(index, &entry);
    Ok(answer_of(&answer))
}

/// The entry alone, at its index.
fn placed(alloc: Global, index: u64, entry: &PartEntry) -> Result<PlacedEntries, NoMemory>
    ensures { IfOk result (λ list. list ≡ (index, entry.now) ∷ []) }
{
    let mut list = Listed::new(alloc);
    list.push((index, entry.copied(alloc)?))?;
    Ok(list)
}

/// The machine behind these lines, the first of which has index 1, and the first that is answered otherwise.
pub fn first_wrong(
    alloc: Global,
    lines: &[(Line, Said)],
) -> Result<(Machine<MapStore>, Option<usize>), NoMemory>
    ensures { IfOk result (λ x. x.0.setting ≡ here) }
{
    let mut machine = Machine::new(alloc, 2, 2, VidKind::Num, MapStore::new(alloc));
    for (i, line) in lines.iter().enumerate() {
        let answer = step(alloc, &mut machine, i as u64 + 1, line.0)?;
        if answer != line.1 {
            return Ok((machine, Some(i)));
        }
    }
    Ok((machine, None))
}
