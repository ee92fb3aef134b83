//! Laws of the leader's rules, and rules worked by hand.
ghost use Rattle.chain_leader.specs.Rules.{Table};
ghost use Rattle.chain_leader.specs.Leading.{Leading};
ghost use Rattle.chain_leader.specs.Laws.{SameChains, AreBlind, SameLeading, LeadAlike};
ghost use Rattle.chain_leader.specs.Names.{NameTheirChains};
ghost use Rattle.chain_leader.specs.Modes.{OneMode, OnlyReadySend};
ghost use Rattle.chain_leader.specs.Worked.{IsEntry, IsPart, IsReady, IsOfAnother, IsPrimed, IsLeft, IsFencing, IsPutting, IsPutDouble, IsTakenAgain, IsLastTry, IsBehind, IsOldResume, IsLocal, IsAskedOnce, IsClose, IsOldDone, IsFound, IsAbort, IsNoAbort, IsGivenUp, IsNotGivenUp, IsToldFine, IsToldPending, IsToldAgain, IsProposed, IsNotHere, IsAnswered, IsNotAnswered, IsPulsed};

/// Of two tables that agree but in tries and hints each rule gives the same answer, and tables that agree again; and so two
/// leaders that agree but in tries and hints do the same, but for the routes of their letters, and agree again.
pub fn blind_to_routes()
    ensures rules { (t u : Table) → SameChains t u → AreBlind t u }
    ensures leaders { (l m : Leading) → SameLeading l m → LeadAlike l m }
{}

/// An entry that a rule proposes names a chain of the table; a letter that leaves names a chain of the table or of the record
/// handed in, with its list and remote part.
pub fn names_its_chain()
    ensures { (t : Table) → NameTheirChains t }
{}

/// A chain is put or fenced, and stays so for as long as the leader knows it: a table that keeps the chain sends no Remote and
/// Fence of it both, and an Abort is asked for only of a chain that is fenced.
pub fn one_mode()
    ensures { (t : Table) → OneMode t }
{}

/// A leader that hasn't applied its own no-op sends for no chain, and takes no rule.
pub fn only_ready_leaders_send()
    ensures { OnlyReadySend }
{}

/// What a leader does, worked by hand, as tests of the definitions.
pub fn worked_rules()
    ensures entry { IsEntry }
    ensures part { IsPart }
    ensures ready { IsReady }
    ensures of_another { IsOfAnother }
    ensures primed { IsPrimed }
    ensures left { IsLeft }
    ensures fencing { IsFencing }
    ensures putting { IsPutting }
    ensures put_double { IsPutDouble }
    ensures taken_again { IsTakenAgain }
    ensures last_try { IsLastTry }
    ensures behind { IsBehind }
    ensures old_resume { IsOldResume }
    ensures local { IsLocal }
    ensures asked_once { IsAskedOnce }
    ensures close { IsClose }
    ensures old_done { IsOldDone }
    ensures found { IsFound }
    ensures abort { IsAbort }
    ensures no_abort { IsNoAbort }
    ensures given_up { IsGivenUp }
    ensures not_given_up { IsNotGivenUp }
    ensures told_fine { IsToldFine }
    ensures told_pending { IsToldPending }
    ensures told_again { IsToldAgain }
    ensures proposed { IsProposed }
    ensures not_here { IsNotHere }
    ensures answered { IsAnswered }
    ensures not_answered { IsNotAnswered }
    ensures pulsed { IsPulsed }
{}
