//! Laws of each step, and what is asked, worked by hand.
ghost use Rattle.std.specs.Prelude.{◌≡◌, ℕ, List};
ghost use Rattle.chain_leader.specs.declared.letter.Letter.{Letter};
ghost use Rattle.chain_leader.specs.Rules.{Table};
ghost use Rattle.raft_core.specs.Core.{Core};
ghost use Rattle.raft_core.specs.Durable.{durable, kept};
ghost use Rattle.raft_core.specs.Laws.{IsPeer};
ghost use Rattle.replica_model.specs.declared.input.Input.{Input};
ghost use Rattle.replica_model.specs.Replica.{Home, Replica, fresh};
ghost use Rattle.replica_model.specs.Stepped.{stepped};
ghost use Rattle.replica_model.specs.Laws.{HaveRounds, AnswersConfirmed, KeepsRounds, DropsRows, HintsStand, KeepsHints, UsesHints, HintsGo, IsNoRemote, IsNoFence};
ghost use Rattle.replica_model.specs.Bytes.{BytesAreSpelled, NothingElseIsSpelled, EntriesAreRead, NothingElseIsRead};
ghost use Rattle.replica_model.specs.Worked.{IsNoPayload, IsOfNoPart, IsTurnedAway, IsFromNoPeer};

/// Term, vote and log behind a step are those before it, changed by the step's one record, and the same where it has none:
/// what a replica promised, it has made durable.
pub fn one_record()
    ensures { (home : Home) (r : Replica) (i : Input) → IsPeer r.core → durable (stepped home r i).replica.core ≡ kept (durable r.core) (stepped home r i).kept }
{}

/// A read is answered only in a step behind which a majority of the voters has confirmed its round: what leaves with a round
/// leaves in such a step alone; and what tells what a read found leaves with a round above 0, as the answer of a read that
/// waited with that round, or with a round that this step began. Each read that waits has a round above 0, at first and behind
/// each step.
pub fn reads_wait()
    ensures waits { (home : Home) (r : Replica) (i : Input) → AnswersConfirmed home r (stepped home r i) }
    ensures begins { (core : Core) → HaveRounds (fresh core).rows }
    ensures kept { (home : Home) (r : Replica) (i : Input) → KeepsRounds r (stepped home r i) }
{}

/// The bytes of entries are a spelling, in each version: an entry that fits is spelled as its bytes, and nothing else is; what all
/// of the bytes are is read of them, and where some field doesn't fit nothing is.
pub fn bytes_are_a_spelling()
    ensures spelled { BytesAreSpelled }
    ensures no_other { NothingElseIsSpelled }
    ensures read { EntriesAreRead }
    ensures none { NothingElseIsRead }
{}

/// A replica that doesn't lead the same term on, or whose last configuration changed, keeps no read that waits.
pub fn rows_are_dropped()
    ensures { (home : Home) (r : Replica) (i : Input) → DropsRows r (stepped home r i) }
{}

/// The hint of a chain is used up by the letter that it sends, and goes with its chain; all others stay. So behind a step by
/// which a Remote or a Fence leaves its chain has no hint; and a chain that isn't in the table has none, which holds of a
/// replica that has just come up and is kept by each step.
pub fn hints_go()
    ensures letters { (hints : ℕ → ℕ) (table : Table) (letters : List Letter) → HintsGo hints table letters }
    ensures sent { (home : Home) (r : Replica) (i : Input) → UsesHints (stepped home r i) }
    ensures begins { (core : Core) → HintsStand (fresh core) }
    ensures kept { (home : Home) (r : Replica) (i : Input) → KeepsHints r (stepped home r i) }
{}

/// A Remote or a Fence from a client is nothing to any replica.
pub fn from_no_client()
    ensures remote { (home : Home) (r : Replica) → IsNoRemote home r }
    ensures fence { (home : Home) (r : Replica) → IsNoFence home r }
{}

/// What is asked, worked by hand, as tests of the definitions.
pub fn worked_asks()
    ensures no_payload { IsNoPayload }
    ensures of_no_part { IsOfNoPart }
    ensures turned_away { IsTurnedAway }
    ensures from_no_peer { IsFromNoPeer }
{}
