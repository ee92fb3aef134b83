//! What holds of each step.
ghost use Rattle.std.specs.Prelude.{◌≡◌, ◌↔◌, None};
ghost use Rattle.raft_core.specs.Laws.{IsPeer};
ghost use Rattle.replica_file.specs.Durable.{kept};
ghost use Rattle.replica_model.specs.declared.input.Input.{Input};
ghost use Rattle.replica_model.specs.Replica.{Home, Replica};
ghost use Rattle.replica_model.specs.Stepped.{stepped};
ghost use Rattle.replica_record.specs.Durable.{durable_of};
ghost use Rattle.replica_record.specs.Framed.{MayBeKept};
ghost use Rattle.replica_record.specs.Own.{allowed_in};

/// Each entry of the record that a step makes durable may stand in the file of its replica: so no file that only steps wrote
/// is found bad.
pub fn own_records()
    ensures { (home : Home) (r : Replica) (i : Input) → MayBeKept (allowed_in home) (stepped home r i).kept }
{}

/// What is durable behind a step is what was, with the step's one record, in each state that its peer may come to.
pub fn durable_behind()
    ensures { (home : Home) (r : Replica) (i : Input) → IsPeer r.core → durable_of (stepped home r i).replica ≡ kept (durable_of r) (stepped home r i).kept }
{}

/// A step has a record exactly where what is durable changes: so the file tells whether a step that was stopped is in it.
pub fn records_tell_changes()
    ensures { (home : Home) (r : Replica) (i : Input) → IsPeer r.core → ((stepped home r i).kept ≡ None) ↔ (durable_of (stepped home r i).replica ≡ durable_of r) }
{}
