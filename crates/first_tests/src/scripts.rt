//! Whole scripts, with their answers.
use lists::{Listed, NoMemory, Text};
use nebstore_app::run_script;
use outside_io::{MemSink, MemSource};
use std::alloc::Global;
use std::test::Fail;

const FIRST_RUN: &[u8] = b"CREATE SPACE g(partition_num = 2, replica_factor = 1, vid_type = INT64)
CREATE EDGE follow(degree int)
INSERT EDGE follow(degree) VALUES 1->2:(90)
GO FROM 1 OVER follow YIELD dst(edge), follow.degree
GO FROM 2 OVER follow REVERSELY YIELD src(edge), follow.degree
";

const FIRST_ANSWERS: &[u8] = b"1: OK\n2: OK\n3: OK\n4: ROWS 1\n  2, 90\n5: ROWS 1\n  1, 90\n";

const LIMITS: &[u8] = b"CREATE SPACE g(partition_num = 2, replica_factor = 1, vid_type = INT64)
CREATE EDGE follow(degree int)
INSERT EDGE follow(degree) VALUES -9223372036854775808->9223372036854775807:(-9223372036854775808)
INSERT EDGE follow(degree) VALUES -9223372036854775808->-0007:(9223372036854775807)
INSERT EDGE follow(degree) VALUES 1->2:(9223372036854775808)
INSERT EDGE follow(degree) VALUES 1->2:(+1)
GO FROM -9223372036854775808 OVER follow YIELD dst(edge), follow.degree";

const LIMIT_ANSWERS: &[u8] =
    b"1: OK\n2: OK\n3: OK\n4: OK\n5: ERROR syntax AT 1\n6: ERROR syntax AT 1\n7: ROWS 2\n  -7, 9223372036854775807\n  9223372036854775807, -9223372036854775808\n";

const REFUSED_HEAD: &[u8] =
    b"CREATE SPACE h\nCREATE EDGE follow(degree int)\nGO FROM 1 OVER follow YIELD dst(edge), follow.degree\n";

const REFUSED_ANSWERS: &[u8] =
    b"1: ERROR syntax AT 1\n2: ERROR syntax AT 1\n3: ERROR syntax AT 1\n";

/// The word that is wanted.
fn run_word(alloc: Global) -> Result<Text, NoMemory> {
    Listed::from_slice(alloc, b"run")
}

/// A source of these bytes that moves pieces of these sizes, and fails at these calls.
fn source_of(
    alloc: Global,
    script: &[u8],
    pieces: &[usize],
    failing: &[u64],
) -> Result<MemSource, NoMemory> {
    let script = Listed::from_slice(alloc, script)?;
    let pieces = Listed::from_slice(alloc, pieces)?;
    let failing = Listed::from_slice(alloc, failing)?;
    Ok(MemSource::new(script, pieces, failing))
}

/// A sink with ample room that moves pieces of these sizes, and fails at these calls.
fn sink_of(alloc: Global, pieces: &[usize], failing: &[u64]) -> Result<MemSink, NoMemory> {
    let pieces = Listed::from_slice(alloc, pieces)?;
    let failing = Listed::from_slice(alloc, failing)?;
    MemSink::new(alloc, 4096, pieces, failing)
}

/// Runs a script in odd pieces; gives the status and the sink.
fn answered(alloc: Global, script: &[u8]) -> Result<(u8, MemSink), NoMemory> {
    let words = [run_word(alloc)?];
    let mut source = source_of(alloc, script, &[1, 7, 64, 3, 100], &[])?;
    let mut sink = sink_of(alloc, &[2, 1, 5, 3], &[])?;
    let status = run_script(alloc, words.as_slice(), &mut source, &mut sink).status;
    Ok((status, sink))
}

#[test]
fn empty_script(rt: HostRuntime) -> Result<(), Fail> {
    let (status, sink) = answered(rt.alloc(), b"")?;
    assert_eq!(rt; status, 0);
    assert_eq!(rt; sink.bytes().len(), 0);
    Ok(())
}

#[test]
fn edge_shown_from_both_ends(rt: HostRuntime) -> Result<(), Fail> {
    let (status, sink) = answered(rt.alloc(), FIRST_RUN)?;
    assert_eq!(rt; status, 0);
    assert_eq!(rt; sink.bytes(), FIRST_ANSWERS);
    Ok(())
}

#[test]
fn numbers_at_their_limits(rt: HostRuntime) -> Result<(), Fail> {
    let (status, sink) = answered(rt.alloc(), LIMITS)?;
    assert_eq!(rt; status, 0);
    assert_eq!(rt; sink.bytes(), LIMIT_ANSWERS);
    Ok(())
}

#[test]
fn refused_first_line(rt: HostRuntime) -> Result<(), Fail> {
    let (status, sink) = answered(rt.alloc(), REFUSED_HEAD)?;
    assert_eq!(rt; status, 0);
    assert_eq!(rt; sink.bytes(), REFUSED_ANSWERS);
    Ok(())
}

#[test]
fn wrong_words(rt: HostRuntime) -> Result<(), Fail> {
    let alloc = rt.alloc();
    let words = [run_word(alloc)?, run_word(alloc)?];
    let mut source = source_of(alloc, FIRST_RUN, &[], &[])?;
    let mut sink = sink_of(alloc, &[], &[])?;
    let status = run_script(alloc, words.as_slice(), &mut source, &mut sink).status;
    assert_eq!(rt; status, 2);
    assert_eq!(rt; sink.bytes().len(), 0);
    Ok(())
}

#[test]
fn source_fails_after_two_lines(rt: HostRuntime) -> Result<(), Fail> {
    let alloc = rt.alloc();
    let words = [run_word(alloc)?];
    let mut source = source_of(alloc, FIRST_RUN, &[110], &[1])?;
    let mut sink = sink_of(alloc, &[], &[])?;
    let status = run_script(alloc, words.as_slice(), &mut source, &mut sink).status;
    assert_eq!(rt; status, 3);
    assert_eq!(rt; sink.bytes(), b"1: OK\n2: OK\n".as_slice());
    Ok(())
}

#[test]
fn sink_fails_at_its_second_write(rt: HostRuntime) -> Result<(), Fail> {
    let alloc = rt.alloc();
    let words = [run_word(alloc)?];
    let mut source = source_of(alloc, FIRST_RUN, &[], &[])?;
    let mut sink = sink_of(alloc, &[], &[1])?;
    let status = run_script(alloc, words.as_slice(), &mut source, &mut sink).status;
    assert_eq!(rt; status, 4);
    assert_eq!(rt; sink.bytes(), b"1: OK\n".as_slice());
    Ok(())
}
