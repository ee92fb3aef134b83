//! What holds of the entries that a machine takes, and of the queries that it answers.
ghost use Rattle.part_machine.specs.Laws.{PayloadsAreTaken, ReadsAreAsked};

/// An entry that may stand in the part's log, and has a spelling, is one that the part's machine takes.
pub fn payloads_are_taken()
    ensures { PayloadsAreTaken }
{}

/// A read that belongs to the part, and has a spelling, is one that the part's machine answers.
pub fn reads_are_asked()
    ensures { ReadsAreAsked }
{}
