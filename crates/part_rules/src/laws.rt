//! Laws of the machine, and chains worked by hand.
ghost use Rattle.std.specs.Prelude.{◌≡◌, ℕ, List, ◌++◌};
ghost use Rattle.graph_model.specs.declared.edge_id.EdgeId.{EdgeId};
ghost use Rattle.part_keys.specs.declared.entry.PartEntry.{PartEntry};
ghost use Rattle.part_keys.specs.declared.proposal.Proposal.{Proposal};
ghost use Rattle.part_rules.specs.Part.{Part};
ghost use Rattle.part_rules.specs.Machine.{applied};
ghost use Rattle.part_rules.specs.Folded.{folded};
ghost use Rattle.part_rules.specs.Laws.{GoFrom, AllRoute, Risen, NewCall, AllOrNone, SuitsEntry, Marks};
ghost use Rattle.part_rules.specs.Worked.{IsBegun, IsAgain, IsOld, IsInConflict, IsSettled, IsGone, IsShown, IsDoubled, IsNoLocal, IsNoAbort, IsClosed, IsNoClose, IsAborted, IsOneTaken, IsSkipped, IsRemoted, IsShownThere, IsWriting, IsNotTwice, IsLater, IsFound, IsFenced, IsLate, IsLateFence, IsKeptGone, IsTagged, IsTagLeft, IsUntagged};

/// Behind a decided list whose entries route to part p the edges of each chain that stands start in p, and end in the
/// chain's remote part.
pub fn primes_route()
    ensures { (parts p : ℕ) (decided : List (ℕ × Proposal)) → AllRoute parts p decided → GoFrom parts p (folded parts decided).chains }
{}

/// No number that is kept of a client ever falls.
pub fn numbers_of_clients_rise()
    ensures entry { (p : Part) (parts index : ℕ) (entry : PartEntry) → Risen p.clients (applied parts index entry p).0.clients }
    ensures list { (parts : ℕ) (decided more : List (ℕ × Proposal)) → Risen (folded parts decided).clients (folded parts (decided ++ more)).clients }
{}

/// A call that was answered as a new one has a number above what was kept of its client, and is what is kept then; so no
/// call is new twice.
pub fn new_once()
    ensures { (p : Part) (parts index : ℕ) (entry : PartEntry) → NewCall entry p (applied parts index entry p) }
{}

/// Where all in-halves of some edges have at least the number v, or all have a lower one, an entry leaves it so, if it is no
/// Remote, or a Remote that suits: of chain v with all of these edges, of an earlier chain, or of a later one that is on none
/// of them or comes once v was taken.
pub fn halves_together()
    ensures { (p : Part) (v : ℕ) (edges : List EdgeId) (parts index : ℕ) (entry : PartEntry) → SuitsEntry p v edges entry → AllOrNone p v edges → AllOrNone (applied parts index entry p).0 v edges }
{}

/// An in-half that is removed keeps the number of the chain that removed it.
pub fn removals_leave_marks()
    ensures { Marks }
{}

/// Chains of two edges worked by hand, as tests of the definitions.
pub fn worked_chains()
    ensures begun { IsBegun }
    ensures again { IsAgain }
    ensures old { IsOld }
    ensures in_conflict { IsInConflict }
    ensures settled { IsSettled }
    ensures gone { IsGone }
    ensures shown { IsShown }
    ensures doubled { IsDoubled }
    ensures no_local { IsNoLocal }
    ensures no_abort { IsNoAbort }
    ensures closed { IsClosed }
    ensures no_close { IsNoClose }
    ensures aborted { IsAborted }
    ensures one_taken { IsOneTaken }
    ensures skipped { IsSkipped }
    ensures remoted { IsRemoted }
    ensures shown_there { IsShownThere }
    ensures writing { IsWriting }
    ensures not_twice { IsNotTwice }
    ensures later { IsLater }
    ensures found { IsFound }
    ensures fenced { IsFenced }
    ensures late { IsLate }
    ensures late_fence { IsLateFence }
    ensures kept_gone { IsKeptGone }
    ensures tagged { IsTagged }
    ensures tag_left { IsTagLeft }
    ensures untagged { IsUntagged }
{}
