//! Laws of ledgers: where each decision meets the discipline, the steps are a run of the graph machine.
ghost use Rattle.chain_world.specs.Invariant.Moves.{ChainsGoOn, Refines, SeesNow, StaysSound};

/// The steps of a ledger, where each call, decision and answer meets the discipline, are a run of the graph machine, and
/// its trace is the calls and answers, in order.
pub fn ledgers_refine()
    ensures { Refines }
{}

/// A call, a decision and an answer that meet the discipline keep a ledger sound.
pub fn ledgers_stay_sound()
    ensures { StaysSound }
{}

/// Each chain that was begun goes on: who it is stays, what it wrote stays, and so does its end.
pub fn chains_go_on()
    ensures { ChainsGoOn }
{}

/// What a query finds in its part is what the graph has at this moment.
pub fn ledgers_are_seen()
    ensures { SeesNow }
{}
