//! Laws of every run.
ghost use Rattle.std.specs.Prelude.{◌≡◌, List, [], ◌∷◌, ◌++◌};
ghost use Rattle.raft_log.specs.declared.config.Config.{Config};
ghost use Rattle.raft_log.specs.Peers.{IsPeers};
ghost use Rattle.raft_group.specs.declared.event.GroupEvent.{GroupEvent};
ghost use Rattle.raft_group.specs.Group.{run, after};
ghost use Rattle.raft_group.specs.Facts.{GroupFacts};
ghost use Rattle.raft_group.specs.Invariant.{IsFirst};
ghost use Rattle.raft_group.specs.Sound.{IsSound};
ghost use Rattle.raft_group.specs.Moments.{OnlyGrows, TermsRise, TermsBound, LeadersAreComplete};
ghost use Rattle.raft_group.specs.Worked.{IsCommitted, IsNextLeader, IsStopped, IsNotDecided, IsRepeated};
ghost use Rattle.raft_group.specs.WorkedLeaders.{IsNotCounted, IsElectedFifth, IsOverwritten, IsDeposed, IsWaiting};
ghost use Rattle.raft_group.specs.WorkedChanges.{IsLearnerIn, IsNoVoter, IsPromoted, IsRemoved, IsConfirmed};

/// A run with one event more is the run, and then that event.
pub fn runs_on()
    ensures { (first : Config) (events : List GroupEvent) (event : GroupEvent) → run first (events ++ event ∷ []) ≡ after (run first events) event }
{}

/// Two peer lists make a first configuration.
pub fn peers_are_first()
    ensures { (first : Config) → IsPeers first.voters → IsPeers first.learners → IsFirst first }
{}

/// Behind each list of events the group has a history with which the invariant holds.
pub fn every_run_is_sound()
    ensures { (first : Config) → IsFirst first → (events : List GroupEvent) → IsSound first (run first events) }
{}

/// A group is safe behind each list of events: one leader a term, prefix agreement, rising terms, each entry made by
/// the leader of its term, and what was decided when a ready leader's confirmed round began was all committed there.
pub fn safe_always()
    ensures { (first : Config) → IsFirst first → (events : List GroupEvent) → GroupFacts (run first events) }
{}

/// The decided list of a group only grows.
pub fn only_grows()
    ensures { (first : Config) → OnlyGrows first }
{}

/// Terms rise: a peer's term never falls, and no message is of a term that its sender hasn't reached.
pub fn terms_rise()
    ensures rise { (first : Config) → IsFirst first → TermsRise first }
    ensures bound { (first : Config) → IsFirst first → TermsBound first }
{}

/// What a leader of a term decided is in the log of each leader of a greater term, at whatever moments of a run.
pub fn leaders_are_complete()
    ensures { (first : Config) → IsFirst first → LeadersAreComplete first }
{}

/// Runs worked by hand, as tests of the definitions.
pub fn worked_runs()
    ensures committed { IsCommitted }
    ensures next_leader { IsNextLeader }
    ensures stopped { IsStopped }
    ensures not_decided { IsNotDecided }
    ensures repeated { IsRepeated }
{}

/// Events with changing members and rounds worked by hand, as tests of the definitions.
pub fn worked_changes()
    ensures learner_in { IsLearnerIn }
    ensures no_voter { IsNoVoter }
    ensures promoted { IsPromoted }
    ensures removed { IsRemoved }
    ensures confirmed { IsConfirmed }
{}

/// Leaders that follow each other, worked by hand: an older term's entry on a majority is overwritten, and a deposed
/// leader's round is never confirmed.
pub fn worked_leaders()
    ensures not_counted { IsNotCounted }
    ensures elected { IsElectedFifth }
    ensures overwritten { IsOverwritten }
    ensures deposed { IsDeposed }
    ensures waiting { IsWaiting }
{}
