//! Runs of three replicas.
use crate::asking::{put_edges, read_edges};
use crate::net::Net;
use disk_model::MemDisk;
use graph_model::{Answer, Val};
use replica_core::Replica;
use replica_model::Tick;
use std::test::Fail;

/// Whether it is what leaves vertex 1: 90 and 91.
fn shows_both(answer: &Answer) -> bool {
    let Answer::Shown(view) = answer else {
        return false;
    };
    let [first, second] = view.as_slice() else {
        return false;
    };
    matches!(first.row.as_slice(), [Val::Int(90)])
        && matches!(second.row.as_slice(), [Val::Int(91)])
}

fn is_fine(answer: &Answer) -> bool {
    matches!(answer, Answer::Fine)
}

/// The call of the last answer, and whether it is Fine, and whether it shows both edges.
fn last(net: &Net) -> (u64, bool, bool) {
    match net.answers.last() {
        Some((number, answer)) => (*number, is_fine(answer), shows_both(answer)),
        None => (0, false, false),
    }
}

/// Whether this replica has so many entries, all of them committed.
fn has_all(replica: &Replica<MemDisk>, count: u64) -> bool {
    let view = replica.view();
    view.commit == count && view.last == count
}

#[test]
fn a_chain_and_a_read(rt: HostRuntime) -> Result<(), Fail> {
    let alloc = rt.alloc();
    let mut net = Net::new(alloc)?;
    net.elect(alloc, 1, 0)?;
    net.ask(alloc, put_edges(alloc)?)?;
    net.deliver(alloc, 0)?;
    assert_eq!(rt; net.answers.len(), 1);
    assert_eq!(rt; last(&net), (1, true, false));
    net.ask(alloc, read_edges(alloc, 0)?)?;
    net.deliver(alloc, 0)?;
    assert_eq!(rt; net.answers.len(), 2);
    assert_eq!(rt; last(&net), (2, false, true));
    // The first configuration, the no-op, and Prime, Remote and Local of the chain.
    net.tick(alloc, 1, Tick::Pulse)?;
    assert!(rt; has_all(&net.one, 5));
    assert!(rt; has_all(&net.two, 5));
    assert!(rt; has_all(&net.three, 5));
    assert_eq!(rt; net.one.matched(2), 5);
    Ok(())
}

#[test]
fn a_leader_is_opened_again_in_the_middle_of_a_chain(rt: HostRuntime) -> Result<(), Fail> {
    let alloc = rt.alloc();
    let mut net = Net::new(alloc)?;
    net.elect(alloc, 1, 0)?;
    net.ask(alloc, put_edges(alloc)?)?;
    net.to_the_remote(alloc)?;
    let mut net = net.crash(alloc)?;
    assert_eq!(rt; net.answers.len(), 0);
    net.elect(alloc, 1, 0)?;
    assert_eq!(rt; last(&net), (1, true, false));
    net.ask(alloc, read_edges(alloc, 0)?)?;
    net.deliver(alloc, 0)?;
    assert_eq!(rt; net.answers.len(), 2);
    assert_eq!(rt; last(&net), (2, false, true));
    Ok(())
}

#[test]
fn a_deposed_leader_never_answers_its_read(rt: HostRuntime) -> Result<(), Fail> {
    let alloc = rt.alloc();
    let mut net = Net::new(alloc)?;
    net.elect(alloc, 1, 0)?;
    net.ask(alloc, put_edges(alloc)?)?;
    net.deliver(alloc, 0)?;
    net.ask(alloc, read_edges(alloc, 0)?)?;
    // Peer 2 is elected before anything of the read's round arrives.
    net.elect(alloc, 2, 1)?;
    net.give_back()?;
    net.deliver(alloc, 0)?;
    assert_eq!(rt; net.answers.len(), 1);
    net.ask(alloc, read_edges(alloc, 1)?)?;
    net.deliver(alloc, 0)?;
    assert_eq!(rt; net.answers.len(), 2);
    assert_eq!(rt; last(&net), (2, false, true));
    Ok(())
}
