//! What holds of every file of a replica.
ghost use Rattle.std.specs.Prelude.{◌≡◌, ℕ, List, map, Ok};
ghost use Rattle.std.specs.List.{AllByRecursion};
ghost use Rattle.byte_fields.proofs.Steps.{IsBytes};
ghost use Rattle.raft_log.specs.declared.record.Record.{Record};
ghost use Rattle.replica_file.specs.Durable.{Durable};
ghost use Rattle.wal_frames.specs.Spelling.{body};
ghost use Rattle.wal_disk.specs.File.{IsBeforeOrAfter};
ghost use Rattle.replica_file.specs.Grammar.{Allowed, IsRecord, file_version};
ghost use Rattle.replica_file.specs.Folded.{blank, kept_in, folded};
ghost use Rattle.replica_file.specs.File.{HasState, IsBadFile};
ghost use Rattle.replica_file.specs.Laws.{AreBodies, IsBeforeOrBehind};

/// What is folded are the bodies of records of the replica, and the state is what these leave; and the bodies of any such
/// records are folded.
pub fn one_fold()
    ensures found { (allowed : Allowed) (bodies : List (List ℕ)) (d : Durable) → AllByRecursion IsBytes bodies → folded allowed bodies ≡ Ok d → AreBodies allowed d bodies }
    ensures only { (allowed : Allowed) (records : List Record) → AllByRecursion (IsRecord allowed) records → folded allowed (map body records) ≡ Ok (kept_in blank records) }
{}

/// A file has one durable state, and one that has a state is never bad.
pub fn one_state()
    ensures same { (allowed : Allowed) (d e : Durable) (file : List ℕ) → HasState allowed d file → HasState allowed e file → d ≡ e }
    ensures never_bad { (allowed : Allowed) (d : Durable) (file : List ℕ) (at : ℕ) → HasState allowed d file → IsBadFile allowed file at → ⊥ }
{}

/// A record of the replica that is appended to its file leaves a file with the state before, or with that behind the record,
/// and no other.
pub fn before_or_behind()
    ensures { (allowed : Allowed) (before : Durable) (r : Record) (bodies : List (List ℕ)) (image : List ℕ) → folded allowed bodies ≡ Ok before → IsRecord allowed r
        → IsBeforeOrAfter file_version bodies (body r) image → IsBeforeOrBehind allowed before r image }
{}
