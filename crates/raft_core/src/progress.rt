//! What a leader knows of a member.
ghost use Rattle.std.specs.Prelude.{◌≡◌, ◌<◌, ◌≤◌, ◌-◌, ◌^◌, ◌==◌, ◌||◌, not, false};
ghost use Rattle.raft_core.specs.Appends as appends;

/// What a leader knows of one other member: the index of the entry to send next, up to which index its log is known
/// to be the leader's, whether an Append is on the way to it, the commit that it was told, and the greatest round of
/// this leader that it gave back.
#[derive(Clone, Copy)]
pub struct Progress {
    pub next: u64,
    pub matched: u64,
    pub in_flight: bool,
    pub told: u64,
    pub confirmed: u64,
}

impl Progress {
    /// Of a member that is sent the entries from an index on, and of which nothing is known.
    pub fn new(next: u64) -> Progress
        ensures { result ≡ record { next = next; matched = 0; in_flight = false; told = 0; confirmed = 0 } }
    {
        Progress {
            next,
            matched: 0,
            in_flight: false,
            told: 0,
            confirmed: 0,
        }
    }

    /// What an Appended tells of the member; the answer is whether `next` or `matched` changed.
    pub fn on_appended(&mut self, ok: bool, index: u64, round: u64) -> bool
        requires matched { self.old.matched < 2 ^ 64 - 1 }
        requires index { index < 2 ^ 64 - 1 }
        ensures told { self.new ≡ appends.on_appended ok index round self.old }
        ensures changed { result ≡ (not (self.new.next == self.old.next) || not (self.new.matched == self.old.matched)) }
        ensures falls_not { self.old.matched ≤ self.new.matched }
    {
        let next = self.next;
        let matched = self.matched;
        if ok {
            self.matched = self.matched.max(index);
            self.next = self.next.max(index + 1);
        } else {
            self.next = (self.matched + 1).max(self.next.min(index + 1));
        }
        self.in_flight = false;
        self.confirmed = self.confirmed.max(round);
        self.next != next || self.matched != matched
    }
}

/// What a leader knows of one other member, and which one it is.
#[derive(Clone, Copy)]
pub struct Row {
    pub peer: u32,
    pub progress: Progress,
}
