//! Which change is permitted: each row of the table, in its order.
ghost use Rattle.std.specs.Prelude.{IfOk};
ghost use Rattle.raft_log.specs.Config.{IsConfig};

use crate::fixtures::{log_of, voters_to};
use lists::NoMemory;
use member_change::{Change, ChangeRefused, permit};
use raft_log::{Config, Entry, Item, RaftLog, Role};
use std::alloc::Global;
use std::test::Fail;

/// The answer by its name, with the numbers that it carries: of a configuration how many voters and learners it has.
fn told(answer: Result<Config, ChangeRefused>) -> (&'static str, u64, u64) {
    let refused = match answer {
        Ok(config) => {
            return (
                "permitted",
                config.voters.len() as u64,
                config.learners.len() as u64,
            );
        }
        Err(refused) => refused,
    };
    match refused {
        ChangeRefused::NotLeader => ("not leader", 0, 0),
        ChangeRefused::ChangeOpen(index) => ("change open", index, 0),
        ChangeRefused::NoEntryOfTerm => ("no entry of the term", 0, 0),
        ChangeRefused::LeaderStays => ("leader stays", 0, 0),
        ChangeRefused::NotMember => ("not a member", 0, 0),
        ChangeRefused::AlreadySo => ("already so", 0, 0),
        ChangeRefused::LastVoter => ("last voter", 0, 0),
        ChangeRefused::Behind(matched, commit) => ("behind", matched, commit),
        ChangeRefused::MembersFull => ("members full", 0, 0),
    }
}

/// A log of the terms 0, 1, 2, 2 and 3, in which the voters 1 to `voters` stand at 1, and at 4 peer 9 as a learner beside
/// them. None where that learner is refused.
fn log_with_learner(alloc: Global, voters: u32) -> Result<Option<RaftLog>, NoMemory> {
    let mut log = log_of(alloc, &voters_to(voters), &[0, 1, 2])?;
    let added = permit(Role::Leader, &log, 3, 2, 1, 0, Change::AddLearner(9));
    let Ok(config) = added else {
        return Ok(None);
    };
    log.reserve(2)?;
    log.append(Entry {
        term: 2,
        item: Item::Members(config),
    });
    log.append(Entry {
        term: 3,
        item: Item::NoOp,
    });
    Ok(Some(log))
}

/// Who is asked, in term 3: its role, id and commit, how many voters there are, and up to where it knows the log of the
/// peer that the change names.
#[derive(Clone, Copy)]
struct Asked {
    role: Role,
    me: u32,
    voters: u32,
    commit: u64,
    matched: u64,
}

/// What it answers.
fn answer_of(
    alloc: Global,
    at: Asked,
    change: Change,
) -> Result<(&'static str, u64, u64), NoMemory> {
    if change.member() == 0 {
        return Ok(("names nobody", 0, 0));
    }
    let Some(log) = log_with_learner(alloc, at.voters)? else {
        return Ok(("no log", 0, 0));
    };
    Ok(told(permit(at.role, &log, at.commit, 3, at.me, at.matched, change)))
}

#[test]
fn which_change_is_permitted(rt: HostRuntime) -> Result<(), Fail> {
    let leader = Asked {
        role: Role::Leader,
        me: 1,
        voters: 3,
        commit: 5,
        matched: 3,
    };
    let follower = Asked {
        role: Role::Follower,
        ..leader
    };
    let candidate = Asked {
        role: Role::Candidate,
        ..leader
    };
    let open = Asked {
        commit: 3,
        ..leader
    };
    let early = Asked {
        commit: 4,
        ..leader
    };
    let one = Asked {
        voters: 1,
        ..leader
    };
    let one_of_another = Asked { me: 2, ..one };
    let seven = Asked {
        voters: 7,
        ..leader
    };
    let level = Asked {
        matched: 5,
        ..leader
    };
    let table = [
        (follower, Change::AddLearner(4), ("not leader", 0, 0)),
        (candidate, Change::AddLearner(4), ("not leader", 0, 0)),
        (open, Change::AddLearner(4), ("change open", 4, 0)),
        (early, Change::AddLearner(4), ("no entry of the term", 0, 0)),
        (early, Change::Remove(1), ("no entry of the term", 0, 0)),
        (leader, Change::Remove(1), ("leader stays", 0, 0)),
        (one, Change::Remove(1), ("leader stays", 0, 0)),
        (leader, Change::Promote(5), ("not a member", 0, 0)),
        (leader, Change::Remove(5), ("not a member", 0, 0)),
        (leader, Change::AddLearner(2), ("already so", 0, 0)),
        (leader, Change::AddLearner(9), ("already so", 0, 0)),
        (leader, Change::Promote(2), ("already so", 0, 0)),
        (seven, Change::AddLearner(2), ("already so", 0, 0)),
        (one_of_another, Change::Remove(1), ("last voter", 0, 0)),
        (leader, Change::Promote(9), ("behind", 3, 5)),
        (seven, Change::AddLearner(8), ("members full", 0, 0)),
        (leader, Change::AddLearner(4), ("permitted", 3, 2)),
        (level, Change::Promote(9), ("permitted", 4, 0)),
        (leader, Change::Remove(2), ("permitted", 2, 1)),
        (leader, Change::Remove(9), ("permitted", 3, 0)),
        (one_of_another, Change::Remove(9), ("permitted", 1, 0)),
    ];
    for (at, change, answer) in table {
        let (name, first, second) = answer_of(rt.alloc(), at, change)?;
        assert_eq!(rt; (name, first, second), answer);
    }
    Ok(())
}
