//! What holds of each step.
ghost use Rattle.std.specs.Prelude.{ℕ, List, Option, IfSome};
ghost use Rattle.raft_core.specs.Core.{Core};
ghost use Rattle.raft_core.specs.Durable.{durable};
ghost use Rattle.raft_core.specs.Laws.{IsPeer};
ghost use Rattle.raft_log.specs.Config.{IsConfig, AreEntries};
ghost use Rattle.raft_log.specs.declared.config.Config.{Config};
ghost use Rattle.raft_log.specs.declared.entry.Entry.{Entry};
ghost use Rattle.byte_fields.proofs.Steps.{IsBytes};
ghost use Rattle.packet_codec.specs.Fits.{Fits, HasSpelling};
ghost use Rattle.packet_codec.specs.Spelling.{packet};
ghost use Rattle.replica_model.specs.declared.input.Input.{Input};
ghost use Rattle.replica_model.specs.declared.input.Input.TheVariants.{Sent};
ghost use Rattle.replica_model.specs.declared.packet.Packet.{Packet};
ghost use Rattle.replica_state.specs.State.{IsHeard};
ghost use Rattle.replica_model.specs.Replica.{Home, Replica, created, fresh, machine_of, opened};
ghost use Rattle.replica_model.specs.Stepped.{stepped};
ghost use Rattle.replica_spelling.specs.Parts.{IsSpelledPart};
ghost use Rattle.replica_spelling.specs.Spelled.{IsHome, AreBytes, AreFitting, IsSpelled, IsSpelledInput, AreSpelled};

/// Each packet that leaves has a spelling, where all that the replica holds has one and what comes has one: so it holds of a
/// replica that has just come up with a log whose configurations are ones and whose entries fit, and is kept by each step.
pub fn leaves_are_spelled()
    ensures leaves { (home : Home) (r : Replica) (i : Input) → IsHome home → IsSpelled home r → IsSpelledInput home i → AreSpelled (stepped home r i).leaves }
    ensures begins { (home : Home) (core : Core) → IsPeer core → AreEntries core.log → AreFitting home core.log → IsSpelled home (fresh core) }
    ensures kept { (home : Home) (r : Replica) (i : Input) → IsHome home → IsSpelled home r → IsSpelledInput home i → IsSpelled home (stepped home r i).replica }
{}

/// What a replica holds has a spelling where it is created, with a configuration or with nothing, and where it comes up with what
/// is durable of one of which that holds.
pub fn replicas_come_up_spelled()
    ensures created { (home : Home) (me : ℕ) (first : Option Config) → IfSome first IsConfig → IsSpelled home (created me first) }
    ensures reopened { (home : Home) (r : Replica) (me : ℕ) → IsSpelled home r → IsSpelled home (opened me (durable r.core)) }
{}

/// All that the part of such a replica holds has a spelling: its rows, its halves, and its chains.
pub fn parts_are_spelled()
    ensures { (home : Home) (r : Replica) → IsHome home → IsSpelled home r → IsSpelledPart (machine_of home r) }
{}

/// Entries whose payloads are bytes fit: what they spell was read.
pub fn bytes_fit()
    ensures { (home : Home) (entries : List Entry) → IsHome home → AreBytes entries → AreFitting home entries }
{}

/// A packet that was read of bytes is one that fits, whose entries fit as well; and any packet that has a spelling may be heard.
pub fn read_packets_are_spelled()
    ensures read { (home : Home) (p : Packet) → IsHome home → Fits p → IsBytes (packet p) → IsSpelledInput home (Sent p) }
    ensures heard { (p : Packet) → HasSpelling p → IsHeard (Sent p) }
{}
