//! One replica on one disk.
ghost use Rattle.std.specs.Prelude.{◌≡◌, ◌<◌, ◌⊎◌, false, true, ℕ, List, None, IfOk, IfErr, IfSome, OnOk, OnErr, Some, is_some, if◌then◌else◌};
ghost use Rattle.disk_model.specs.Disk.{LeavesOnly, SameImages};
ghost use Rattle.raft_log.specs.Config.{IsConfig};
ghost use Rattle.raft_core.specs.Core.{is_leading};
ghost use Rattle.raft_core.specs.Members.{matched_in};
ghost use Rattle.raft_core.specs.Peer.{view_of};
ghost use Rattle.wal_disk.specs.Cause.{HasCause, NeverBad};
ghost use Rattle.wal_disk.specs.declared.refused.OpenWhy.TheVariants as why;
ghost use Rattle.replica_model.specs.declared.input.Input.{Input as Given};
ghost use Rattle.replica_model.specs.Asks.{are_entries};
ghost use Rattle.replica_model.specs.Replica.{created};
ghost use Rattle.replica_state.specs.State.{IsHeard};
ghost use Rattle.replica_file.specs.Durable.{Durable as State};
ghost use Rattle.replica_file.specs.File.{HasState};
ghost use Rattle.replica_file.specs.Grammar.{all_may};
ghost use Rattle.replica_file.specs.OnDisk.{IsKept, IsBadIn};
ghost use Rattle.replica_file.specs.Seen as seen;
ghost use Rattle.replica_record.specs.Durable.{durable_of};
ghost use Rattle.replica_core.specs.Durable.{came_up, IsBeforeOrBehind, IsNotBad};
ghost use Rattle.replica_record.specs.Own.{allowed_in};
ghost use Rattle.replica_core.specs.Replica.{home_of, state_of, disk_of, step_of, IsSound, IsRoomFor, Gives, seen_of};
ghost use Rattle.replica_core.specs.Spelled.{HaveSpellings};
ghost use Rattle.replica_core.specs.Who as of;
ghost use Rattle.replica_spelling.specs.Spelled.{IsSpelled, IsSpelledInput};

use crate::effects::{Down, Effects};
use crate::room::Room;
use crate::who::Who;
use disk_model::Disk;
use kv_part::MapStore;
use lists::NoMemory;
use raft_core::PeerView;
use raft_log::Config;
use replica_file::{Durable, LogFile, founded};
use replica_model::Input;
use replica_peer::Peer;
use replica_record::{PartPayloads, make_durable, make_frame};
use replica_spelling::leaves_are_spelled;
use std::alloc::Global;
use wal_disk::{OpenWhy, WalRefused};

/// Why a replica wasn't created or opened, and its disk.
pub type OpenRefused<D> = WalRefused<D>;

/// One replica of a part on one disk. It is up until its disk fails.
#[derive(Drop)]
pub struct Replica<D> {
    peer: Peer<MapStore>,
    file: LogFile<D>,
    up: bool,
}

// A replica that comes up with what is durable in its file.
fn come_up<D: Disk>(alloc: Global, who: Who, file: LogFile<D>, left: Durable) -> Replica<D>
    requires who { of.IsWho who }
    requires kept { IsKept D.reads D.may_leave (allowed_in (of.home_of who)) (seen.durable_of left) file }
    requires own { all_may (allowed_in (of.home_of who)) left.log.0 ≡ true }
    ensures sound { IsSound D.reads D.may_leave result }
    ensures home { home_of result ≡ of.home_of who }
    ensures opened { state_of result ≡ came_up who.peer (seen.durable_of left) }
    ensures file { result.file ≡ file }
    ensures up { result.up ≡ true }
{
    let Durable { term, vote, log } = left;
    let store = MapStore::new(alloc);
    Replica {
        peer: Peer::open(alloc, who.setting(), who.peer, term, vote, log, store),
        file,
        up: true,
    }
}

impl<D: Disk> Replica<D> {
    /// Makes the disk's file new, of version 2, with a group's first configuration at index 1 and term 0, or with nothing. A refusal hands the
    /// disk back: for want of memory as it was, and else with a file that is made again. A crash in this call leaves a file of
    /// which nothing is said.
    pub fn create(
        alloc: Global,
        who: Who,
        disk: D,
        first: Option<Config>,
    ) -> Result<Replica<D>, OpenRefused<D>>
        requires who { of.IsWho who }
        requires first { IfSome first IsConfig }
        ensures sound { IfOk result (IsSound D.reads D.may_leave) }
        ensures up { IfOk result (λ r. r.up ≡ true) }
        ensures home { IfOk result (λ r. home_of r ≡ of.home_of who) }
        ensures created { IfOk result (λ r. state_of r ≡ created who.peer first) }
        ensures told { IfOk result (λ r. is_some (D.reads (disk_of r)) ≡ is_some (D.reads disk)) }
        ensures faults { IfOk result (λ r. D.faults (disk_of r) ≡ D.faults disk) }
        ensures cause { IfErr result (λ e. HasCause NeverBad (D.faults disk) (D.faults e.disk) e.why) }
        ensures handed_back { IfErr result (λ e. is_some (D.reads e.disk) ≡ is_some (D.reads disk)) }
        ensures unchanged { IfErr result (λ e. e.why ≡ why.NoMemory →
            (D.reads e.disk ≡ D.reads disk) × SameImages (D.may_leave disk) (D.may_leave e.disk)) }
    {
        let copy = match &first {
            Some(config) => Some(config.copy()),
            None => None,
        };
        let Ok(left) = founded(alloc, copy) else {
            return Err(WalRefused {
                why: OpenWhy::NoMemory,
                disk,
            });
        };
        let file = LogFile::create(alloc, disk, first)?;
        Ok(come_up(alloc, who, file, left))
    }

    /// The replica of a file that a crash or a fault may have left: up, a follower with commit 0, with the fold of the file's
    /// records. A refusal hands the disk back with the file that it had: the disk failed, or the file is none of this replica,
    /// at this place, or memory ran out.
    pub fn open(alloc: Global, who: Who, disk: D) -> Result<Replica<D>, OpenRefused<D>>
        requires who { of.IsWho who }
        ensures sound { IfOk result (IsSound D.reads D.may_leave) }
        ensures up { IfOk result (λ r. r.up ≡ true) }
        ensures home { IfOk result (λ r. home_of r ≡ of.home_of who) }

        // With what is durable, whatever that is; where the file tells it, with that.
        ensures opened { IfOk result (λ r. state_of r ≡ came_up who.peer (durable_of (state_of r))) }
        ensures found { (d : State) (bytes : List ℕ) → D.reads disk ≡ Some bytes → HasState (allowed_in (of.home_of who)) d bytes → IfOk result (λ r. state_of r ≡ came_up who.peer d) }
        ensures reads { IfOk result (λ r. D.reads (disk_of r) ≡ D.reads disk) }
        ensures any_moment { IfOk result (λ r. LeavesOnly D.clock D.left_since disk (disk_of r) (D.may_leave disk)) }
        ensures faults { IfOk result (λ r. D.faults (disk_of r) ≡ D.faults disk) }

        // Why it is refused. A file that has a state of this replica isn't found bad.
        ensures cause { IfErr result (λ e. HasCause (IsBadIn (allowed_in (of.home_of who)) (D.reads disk)) (D.faults disk) (D.faults e.disk) e.why) }
        ensures never_bad { (d : State) (bytes : List ℕ) → D.reads disk ≡ Some bytes → HasState (allowed_in (of.home_of who)) d bytes → IfErr result (λ e. IsNotBad e.why) }
        ensures handed_back { IfErr result (λ e. D.reads e.disk ≡ D.reads disk) }
        ensures any_moment_err { IfErr result (λ e. LeavesOnly D.clock D.left_since disk e.disk (D.may_leave disk)) }
    {
        let payloads = PartPayloads::of(who.whose());
        let found = LogFile::recover(alloc, &payloads, disk)?;
        Ok(come_up(alloc, who, found.file, found.durable))
    }

    /// Room for one step with this input, on the disk too. Refused for want of memory alone; nothing that is seen changes,
    /// whatever is answered.
    pub fn reserve(&mut self, alloc: Global, input: Input) -> Result<Room, NoMemory>
        requires sound { IsSound D.reads D.may_leave self.old }
        requires heard { IsHeard input }
        ensures room { IfOk result (IsRoomFor D.room_calls D.room_bytes self.new input) }

        // What will leave has a spelling, where all that the replica holds and what came has one.
        ensures spelled { IsSpelled (home_of self.new) (state_of self.new) → IsSpelledInput (home_of self.new) input → IfOk result (λ room. HaveSpellings room.made.leaves) }
        ensures sound { IsSound D.reads D.may_leave self.new }
        ensures same { state_of self.new ≡ state_of self.old }
        ensures home { home_of self.new ≡ home_of self.old }
        ensures up { self.new.up ≡ self.old.up }
        ensures reads { D.reads (disk_of self.new) ≡ D.reads (disk_of self.old) }
        ensures any_moment { LeavesOnly D.clock D.left_since (disk_of self.old) (disk_of self.new) (D.may_leave (disk_of self.old)) }
        ensures faults { D.faults (disk_of self.new) ≡ D.faults (disk_of self.old) }
    {
        leaves_are_spelled();
        let made = self.peer.plan(alloc, input)?;
        let frame = make_frame(alloc, &mut self.file, made.kept())?;
        Ok(Room { made, frame })
    }

    /// One step, in the room that was made for it, with no call between. Its record is made durable, where it has one; then the
    /// step is taken; then what leaves is given. Where the disk fails the replica is down, and its file is to be opened again.
    /// It takes no memory.
    pub fn step(&mut self, room: Room) -> Result<Effects, Down>
        requires sound { IsSound D.reads D.may_leave self.old }
        requires room { (i : Given) × IsRoomFor D.room_calls D.room_bytes self.old i room }

        // The step is that of the definition.
        ensures stepped { (i : Given) → IsRoomFor D.room_calls D.room_bytes self.old i room → OnOk result (state_of self.new ≡ (step_of self.old i).replica) }
        ensures gives { (i : Given) → IsRoomFor D.room_calls D.room_bytes self.old i room → IfOk result (Gives (step_of self.old i)) }

        ensures sound { IsSound D.reads D.may_leave self.new }

        // What is given has a spelling, where all that the replica holds and what came has one.
        ensures spelled { (i : Given) → IsRoomFor D.room_calls D.room_bytes self.old i room → IsSpelled (home_of self.old) (state_of self.old) → IsSpelledInput (home_of self.old) i → IfOk result (λ e. HaveSpellings e.packets) }

        // Where packets are given, each crash leaves what is durable behind the step.
        ensures acknowledged { (i : Given) (bytes image : List ℕ) → IsRoomFor D.room_calls D.room_bytes self.old i room → D.reads (disk_of self.new) ≡ Some bytes → D.may_leave (disk_of self.new) image
            → OnOk result (HasState (allowed_in (home_of self.old)) (durable_of (step_of self.old i).replica) image) }

        // A crash at any moment of the call, and what is read behind it, also where the disk failed.
        ensures any_moment { (i : Given) (bytes : List ℕ) → IsRoomFor D.room_calls D.room_bytes self.old i room → self.old.up ≡ true → D.reads (disk_of self.old) ≡ Some bytes
            → LeavesOnly D.clock D.left_since (disk_of self.old) (disk_of self.new) (IsBeforeOrBehind (home_of self.old) (state_of self.old) i) }
        ensures left { (i : Given) (bytes next : List ℕ) → IsRoomFor D.room_calls D.room_bytes self.old i room → self.old.up ≡ true → D.reads (disk_of self.old) ≡ Some bytes
            → D.reads (disk_of self.new) ≡ Some next → IsBeforeOrBehind (home_of self.old) (state_of self.old) i next }
        ensures untouched { (i : Given) → IsRoomFor D.room_calls D.room_bytes self.old i room → (step_of self.old i).kept ≡ None → disk_of self.new ≡ disk_of self.old }

        // What stands where it is down, and where it was down before.
        ensures still { self.old.up ≡ false → self.new ≡ self.old }
        ensures up { OnOk result ((self.old.up ≡ true) × (self.new.up ≡ true)) }
        ensures down { OnErr result (self.new.up ≡ false) }
        ensures unchanged { OnErr result (state_of self.new ≡ state_of self.old) }
        ensures cause { OnErr result ((self.old.up ≡ false) ⊎ (D.faults (disk_of self.old) < D.faults (disk_of self.new))) }
        ensures steady { OnOk result (D.faults (disk_of self.new) ≡ D.faults (disk_of self.old)) }
        ensures home { home_of self.new ≡ home_of self.old }
        ensures told { is_some (D.reads (disk_of self.new)) ≡ is_some (D.reads (disk_of self.old)) }
    {
        leaves_are_spelled();
        if !self.up {
            return Err(Down);
        }
        if make_durable(&mut self.file, &room.frame).is_err() {
            self.up = false;
            return Err(Down);
        }
        let change = room.made.change();
        let packets = self.peer.take(room.made);
        Ok(Effects { packets, change })
    }

    /// What is seen of it. It takes no memory.
    pub fn view(&self) -> PeerView
        ensures { result ≡ seen_of (view_of (state_of self.now).core) self.now.up }
    {
        let mut view = self.peer.view();
        view.up = self.up;
        view
    }

    /// The match index of a member at the leader, else 0. It takes no memory.
    pub fn matched(&self, peer: u32) -> u64
        ensures { result ≡ (if is_leading (state_of self.now).core.role then matched_in (state_of self.now).core.rows peer else 0) }
    {
        self.peer.matched(peer)
    }

    /// The disk. It takes no memory.
    pub fn shut(self) -> D
        ensures { result ≡ disk_of self }
    {
        self.file.shut()
    }
}
