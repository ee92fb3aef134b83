//! Laws of every run of a world.
ghost use Rattle.std.specs.Prelude.{◌≡◌, ℕ, List, [], ◌∷◌, ◌++◌};
ghost use Rattle.part_keys.specs.declared.vid_kind.VidKind.{VidKind};
ghost use Rattle.chain_world.specs.declared.event.ChainEvent.{ChainEvent};
ghost use Rattle.chain_world.specs.World.{after, run};
ghost use Rattle.chain_world.specs.Invariant.Safe.{IsSafe};
ghost use Rattle.chain_world.specs.Causes.{RepliesHaveCauses, SentAnswersHaveCauses};
ghost use Rattle.chain_world.specs.Invariant.Cancelling.{CancelsByPolicy};
ghost use Rattle.chain_world.specs.Invariant.Doubling.{ShowsGivenUp};
ghost use Rattle.chain_world.specs.Invariant.Meeting.{DecisionsMeet};
ghost use Rattle.chain_world.specs.Next.{DecidesNext};
ghost use Rattle.chain_world.specs.Outside.{ChainsRefine};

/// A run with one event more is the run, and then that event.
pub fn worlds_run_on()
    ensures { (ids : VidKind) (parts : ℕ) (events : List ChainEvent) (event : ChainEvent) → run ids parts (events ++ event ∷ []) ≡ after ids parts (run ids parts events) event }
{}

/// Behind each list of events the world is safe: what leaders, packets and lists have holds, and the ledger is sound.
pub fn worlds_are_safe()
    ensures { (ids : VidKind) (parts : ℕ) (events : List ChainEvent) → IsSafe parts (run ids parts events) }
{}

/// Chains refine the graph machine: for every list of events the steps of the ledger are a run of the graph machine, whose
/// trace is the lawful calls and answers, in order.
pub fn chains_refine()
    ensures { ChainsRefine }
{}

/// A Decide is lawful exactly for the next entry that the leader of its term made, where no term in the list is greater.
pub fn decides_next()
    ensures { DecidesNext }
{}

/// An Abort that is decided was proposed by a leader of policy Cancel, in each run.
pub fn cancels_by_policy()
    ensures { CancelsByPolicy }
{}

/// Where a Double showed a call's chain, that call was given up at the leader of its term: the event is in the run.
pub fn shows_given_up()
    ensures { ShowsGivenUp }
{}

/// Each answer that was ever sent has its cause: Fine an end of its chain with all halves written, or its Vertex; Pending a
/// Double that is decided, and the call was given up at the leader of its term; Cancelled an Abort that is decided, of a
/// leader of policy Cancel; Skipped and Conflict the call's own entry; a view the graph at its moment. Unknown is never sent.
pub fn sent_answers_have_causes()
    ensures { SentAnswersHaveCauses }
{}

/// So has each reply of a run that isn't Unknown.
pub fn replies_have_causes()
    ensures { RepliesHaveCauses }
{}

/// Each decision of a run meets the discipline of the ledger.
pub fn decisions_meet()
    ensures { DecisionsMeet }
{}
