//! Laws of every run of the world, from any number of nodes, however entries are spelled.
ghost use Rattle.std.specs.Prelude.{◌≡◌, ℕ, List};
ghost use Rattle.graph_model.specs.Run.{trace};
ghost use Rattle.raft_group.specs.Group.{Group};
ghost use Rattle.part_keys.specs.Spelled.{Spelling};
ghost use Rattle.world_model.specs.State.{Space, State, start};
ghost use Rattle.world_model.specs.After.{Doing};
ghost use Rattle.world_model.specs.Journal.{space_at, Run, outwards_of, events_of, JournalsTell, IsAsItBegan};
ghost use Rattle.chain_world.specs.Outside.{IsGraphRun};
ghost use Rattle.chain_world.specs.State.{Chains};
ghost use Rattle.world_model.specs.Grouped.{Grouped};
ghost use Rattle.world_model.specs.Chained.{Chained};
ghost use Rattle.world_model.specs.Causes.{AnswersAreFounded, RepliesAreFounded, AnswersHaveTicks, RepliesHaveTicks};
ghost use Rattle.world_model.specs.Dues.{InvokesAreDue, RepliesAreDue, QuietIsDone};
ghost use Rattle.world_model.specs.Local.{OthersStay, SendsItsOwn, StaysLawful, OthersComeBetween};
ghost use Rattle.world_model.specs.SmallSpelling.{small};
ghost use Rattle.world_model.specs.Worked.{read_alone, did, IsReadAlone};
ghost use Rattle.world_model.specs.WorkedChain.{IsInsertion, AreItsSteps};
ghost use Rattle.world_model.specs.WorkedMove.{IsMove, IsRouted, GoesOn, IsInOrder};

/// The headline: the graph steps of each run of the world are a run of the graph machine, whose trace is the Invokes and
/// Replies of its journal, in order.
pub fn worlds_refine()
    ensures { (spelling : Spelling) (n : ℕ) (doings : List Doing) (v : State) → Run spelling (start n) doings v → IsGraphRun v.ledger.steps (outwards_of (events_of doings)) }
{}

/// The Invokes and Replies among the graph steps of a run are those of its journal, in order.
pub fn trace_is_seen()
    ensures { (spelling : Spelling) (n : ℕ) (doings : List Doing) (v : State) → Run spelling (start n) doings v → trace v.ledger.steps ≡ outwards_of (events_of doings) }
{}

/// A journal keeps its packets as bytes, which are read back as the packets that were sent, in order.
pub fn journals_tell()
    ensures { JournalsTell }
{}

/// Where nothing was placed and no statement was queued, the world is as it began but for its table.
pub fn begins_anew()
    ensures { IsAsItBegan }
{}

/// With each run of the world goes a run of each part's group: the replicas are its peers, the packets its messages, and
/// what it decided is what the ledger says.
pub fn replicas_are_groups()
    ensures { (spelling : Spelling) (n : ℕ) (doings : List Doing) (v : State) → Run spelling (start n) doings v → (g : ℕ → Group) × Grouped (space_at spelling v) v.placed v.posts v.ledger.decided g }
{}

/// With each run of the world goes one run of the chains too: what a replica keeps, sends and answers as a leader has its
/// counterpart there, each client's call is the same call, and both have one ledger.
pub fn worlds_are_joined()
    ensures { (spelling : Spelling) (n : ℕ) (doings : List Doing) (v : State) → Run spelling (start n) doings v → (g : ℕ → Group) × (c : Chains) × Grouped (space_at spelling v) v.placed v.posts v.ledger.decided g × Chained (space_at spelling v) v.placed v.callers v.posts v.ledger v.asked g c }
{}

/// Each Answer that was ever sent to a client has its cause in what was decided: Fine the end of the call's chain with all
/// halves written, or its Vertex; Pending a Double of the chain, Cancelled an Abort of it; Skipped and Conflict the call's own
/// entry; a view what the graph had at the answer's moment. Unknown was never sent.
pub fn answers_are_founded()
    ensures { (spelling : Spelling) (n : ℕ) (doings : List Doing) (v : State) → Run spelling (start n) doings v → AnswersAreFounded (space_at spelling v).parts v }
{}

/// And so has each Reply, at the moment at which it comes, but Unknown, which nobody answered.
pub fn replies_are_founded()
    ensures { (spelling : Spelling) (n : ℕ) (doings : List Doing) (s : State) → Run spelling (start n) doings s → RepliesAreFounded (space_at spelling s).parts s }
{}

/// Pending comes only where a peer of the part that showed the call's chain was told that the call's client waits no longer; and
/// Cancelled only where a peer of the part that gave the chain up was told to be elected with policy Cancel: of each Answer that
/// was ever sent to a client, and of each Reply that may come.
pub fn answers_have_ticks()
    ensures answers { (spelling : Spelling) (n : ℕ) (doings : List Doing) (v : State) → Run spelling (start n) doings v → AnswersHaveTicks (space_at spelling v).parts doings v }
    ensures replies { (spelling : Spelling) (n : ℕ) (doings : List Doing) (s : State) → Run spelling (start n) doings s → RepliesHaveTicks (space_at spelling s).parts doings s }
{}

/// An event is about one core: the others stay as they are, and what it sends stands behind all that was sent. What is lawful
/// for a core, and what it does, stays so in a later state in which this core is as it was; and events of others lead to such.
pub fn events_are_local()
    ensures others_stay { OthersStay }
    ensures sends { SendsItsOwn }
    ensures stays_lawful { StaysLawful }
    ensures others_between { OthersComeBetween }
{}

/// An Invoke, or a Reply but one of Unknown, is what its client has due; and at a quiet point nothing is due but the first Invoke
/// of a statement that was queued while no call of its client was open.
pub fn clients_do_what_is_due()
    ensures invokes { InvokesAreDue }
    ensures replies { RepliesAreDue }
    ensures quiet { QuietIsDone }
{}

/// A run worked by hand, as a test of the definitions: each doing is lawful at its place, and it gives these graph steps.
pub fn worked_read()
    ensures lawful { Run small (start 1) read_alone (did small (start 1) read_alone) }
    ensures read_alone { IsReadAlone }
{}

/// A chain worked by hand, from the allocation of two parts to the answer of the call that puts an edge from one to the other: each
/// doing is lawful at its place, and they give the steps of a call that begins, writes its in-half, then its out-half, settles and
/// is answered.
pub fn worked_chain()
    ensures lawful { IsInsertion }
    ensures steps { AreItsSteps }
{}

/// A part that moves to another node while that chain is pending, worked by hand: each doing is lawful at its place, the Remote that
/// was sent before the move comes to the new peer, and the call ends as it does without a move. The new peer isn't created before
/// the move is opened, and the old one isn't wiped before its part decided that it goes.
pub fn worked_move()
    ensures lawful { IsMove }
    ensures routed { IsRouted }
    ensures goes_on { GoesOn }
    ensures in_order { IsInOrder }
{}
