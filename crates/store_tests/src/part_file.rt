//! The part file as bytes: the worked file and the calls that make it, a stop at each call of an append, damaged files,
//! and a real file.
ghost use Rattle.std.specs.Prelude.{ℕ, List, IfOk};
ghost use Rattle.byte_fields.specs.Frames.{IsFrame};
ghost use Rattle.byte_fields.specs.Versions.{IsVersion};

use byte_fields::Frame;
use disk_model::{
    Call, Disk, DiskName, FileRack, HostRack, Made, MemDisk, MemRack, Pick, Plan, Rack, Tears,
};
use lists::{Listed, NoMemory};
use raft_log::Record;
use std::alloc::Global;
use std::fs;
use std::test::Fail;
use wal_disk::{OpenWhy, Wal, WalRefused};
use wal_frames::{FrameRefused, decode, encode};

/// The file of one record: term 1, vote 1, keep 0 and no entries.
const FILE: [u8; 34] = [
    0x4e, 0x42, 0x57, 0x31, 0xa5, 0, 0, 0, 24, 0, 0, 0, 0, 0, 0, 0, 1, 0, 0, 0, 1, 0, 0, 0, 0, 0,
    0, 0, 0, 0, 0, 0, 0, 0,
];

/// The calls of the disk that make it: three for the file, and four for the record.
const CALLS: [Call; 7] = [
    Call::Cut(0),
    Call::Write(0, 5),
    Call::Sync,
    Call::Write(5, 29),
    Call::Sync,
    Call::Write(4, 1),
    Call::Sync,
];

const OPEN_GATE: [u8; 1] = [0xa5];

fn one_frame(alloc: Global) -> Result<Frame, NoMemory>
    ensures { IfOk result (λ frame. (body : List ℕ) × IsFrame body frame) }
{
    let record = Record {
        term: 1,
        vote: 1,
        keep: 0,
        entries: Listed::new(alloc),
    };
    encode(alloc, &record)
}

/// Makes the file of version 1 and appends the record. Gives the disk, and whether the record was acknowledged.
fn append_one<D: Disk + Drop>(alloc: Global, disk: D) -> Result<(D, bool), Fail> {
    append_to(alloc, disk, 1)
}

/// Makes the file of this version and appends the record. Gives the disk, and whether the record was acknowledged.
fn append_to<D: Disk + Drop>(alloc: Global, disk: D, version: u8) -> Result<(D, bool), Fail>
    requires { IsVersion version }
{
    let frame = one_frame(alloc)?;
    let Ok(mut wal) = Wal::create(alloc, disk, version) else {
        return Err(Fail::new("no file was made"));
    };
    wal.reserve(alloc, frame.len())?;
    let acknowledged = wal.append(&frame).is_ok();
    Ok((wal.shut(), acknowledged))
}

/// A new disk that lets so many calls pass.
fn disk_with(alloc: Global, fuse: Option<u64>) -> MemDisk {
    MemDisk::empty(alloc, Plan::new(fuse, Listed::new(alloc)))
}

/// The version of the file of this disk and the number of its records, or where it is outside the grammar.
fn found_on<D: Disk + Drop>(alloc: Global, disk: D) -> Result<(u8, usize), OpenWhy> {
    match Wal::recover(alloc, disk) {
        Ok(found) => Ok((found.version, found.bodies.len())),
        Err(WalRefused { why, disk: _ }) => Err(why),
    }
}

/// How many records are found in the image that this pick leaves of a disk.
fn records_after(alloc: Global, disk: MemDisk, pick: Pick) -> Result<usize, Fail> {
    let mut picks = Listed::new(alloc);
    picks.push(pick)?;
    let mut rack = MemRack::new(alloc, picks, Listed::new(alloc));
    let Ok(disk) = rack.reopen(alloc, disk) else {
        return Err(Fail::new("the disk wasn't opened again"));
    };
    match found_on(alloc, disk) {
        Ok((_, records)) => Ok(records),
        Err(_) => Err(Fail::new("the file wasn't recovered")),
    }
}

/// How many records a crash leaves by this pick, where so many calls of the disk passed before.
fn stopped_after(alloc: Global, calls: u64, pick: Pick) -> Result<usize, Fail> {
    let (disk, _) = append_one(alloc, disk_with(alloc, Some(calls)))?;
    records_after(alloc, disk, pick)
}

/// A tear of the newest write that leaves these bytes.
fn torn(alloc: Global, bytes: &[u8]) -> Result<Pick, NoMemory> {
    let mut tears = Tears::new(alloc);
    tears.push(Listed::from_slice(alloc, bytes)?)?;
    Ok(Pick::Torn(tears))
}

fn is_call(made: &Made, call: &Call) -> bool {
    match (made.call, *call) {
        (Call::Write(at, size), Call::Write(place, bytes)) => at == place && size == bytes,
        (Call::Cut(len), Call::Cut(to)) => len == to,
        (Call::Sync, Call::Sync) => true,
        _ => false,
    }
}

#[test]
fn worked_file(rt: HostRuntime) -> Result<(), Fail> {
    let alloc = rt.alloc();
    let (disk, acknowledged) = append_one(alloc, disk_with(alloc, None))?;
    assert!(rt; acknowledged);
    assert_eq!(rt; disk.bytes(), FILE.as_slice());
    assert_eq!(rt; disk.calls().len(), CALLS.len());
    for (made, call) in disk.calls().iter().zip(CALLS.iter()) {
        assert!(rt; is_call(made, call));
    }
    Ok(())
}

#[test]
fn second_version(rt: HostRuntime) -> Result<(), Fail> {
    let alloc = rt.alloc();
    let (disk, acknowledged) = append_to(alloc, disk_with(alloc, None), 2)?;
    assert!(rt; acknowledged);
    let mut file = FILE;
    file[3] = 0x32;
    assert_eq!(rt; disk.bytes(), file.as_slice());
    assert!(rt; matches!(found_on(alloc, disk), Ok((2, 1))));
    Ok(())
}

/// After how many calls the append is stopped, and the records in what was synced, in what was read, and where the
/// newest write left the byte of an open gate.
const STOPS: [(u64, usize, usize, usize); 5] = [
    (3, 0, 0, 0),
    (4, 0, 0, 0),
    (5, 0, 0, 1),
    (6, 0, 1, 1),
    (7, 1, 1, 1),
];

#[test]
fn a_stop_at_each_call(rt: HostRuntime) -> Result<(), Fail> {
    let alloc = rt.alloc();
    for (calls, synced, read, opened) in STOPS {
        assert_eq!(rt;
            stopped_after(alloc, calls, Pick::Synced)?,
            synced,
            "synced, {calls}"
        );
        assert_eq!(rt;
            stopped_after(alloc, calls, Pick::Read)?,
            read,
            "read, {calls}"
        );
        let pick = torn(alloc, &OPEN_GATE)?;
        assert_eq!(rt; stopped_after(alloc, calls, pick)?, opened, "torn, {calls}");
    }
    Ok(())
}

/// The version of this file and the number of its records, or where it is outside the grammar.
fn found_in(alloc: Global, file: &[u8]) -> Result<Result<(u8, usize), OpenWhy>, NoMemory> {
    let disk = MemDisk::new(
        alloc,
        Listed::from_slice(alloc, file)?,
        Plan::new(None, Listed::new(alloc)),
    )?;
    Ok(found_on(alloc, disk))
}

#[test]
fn damaged_files(rt: HostRuntime) -> Result<(), Fail> {
    let alloc = rt.alloc();
    for (len, place) in [(0, 0), (4, 4), (8, 5), (20, 9), (33, 33)] {
        let found = found_in(alloc, &FILE[..len])?;
        assert!(rt;
            matches!(found, Err(OpenWhy::BadFile(at)) if at == place),
            "cut to {len}"
        );
    }
    for (at, byte, records) in [(4, 0, 0), (33, 0x7f, 1), (32, 1, 1)] {
        let mut file = FILE;
        file[at] = byte;
        let found = found_in(alloc, &file)?;
        assert!(rt;
            matches!(found, Ok((1, count)) if count == records),
            "byte {at}"
        );
    }
    for (at, byte, place) in [(0, 0, 0), (5, 0xff, 9), (33, 0xa5, 34)] {
        let mut file = FILE;
        file[at] = byte;
        let found = found_in(alloc, &file)?;
        assert!(rt;
            matches!(found, Err(OpenWhy::BadFile(n)) if n == place),
            "byte {at}"
        );
    }
    Ok(())
}

/// A count of one entry, and no entry.
#[test]
fn an_entry_that_is_missing(rt: HostRuntime) {
    let mut damaged = FILE;
    damaged[32] = 1;
    assert!(rt;
        matches!(
            decode(rt.alloc(), &damaged[9..33]),
            Err(FrameRefused::BadFile(24))
        )
    );
}

/// Whether the body is that of the worked record.
fn is_worked(alloc: Global, body: &[u8]) -> bool {
    matches!(
        decode(alloc, body),
        Ok(Record {
            term: 1,
            vote: 1,
            keep: 0,
            ..
        })
    )
}

#[test]
fn worked_body(rt: HostRuntime) -> Result<(), Fail> {
    let alloc = rt.alloc();
    assert_eq!(rt; one_frame(alloc)?.as_slice(), &FILE[5..]);
    assert!(rt; is_worked(alloc, &FILE[9..33]));
    Ok(())
}

const FOLDER: &str = "part_file_test";

const NAME: DiskName = DiskName {
    node: 1,
    part: 2,
    peer: 3,
};

#[test]
fn real_file(rt: HostRuntime) -> Result<(), Fail> {
    let alloc = rt.alloc();
    let _ = fs::remove_dir_all(&rt, FOLDER);
    fs::create_dir(&rt, FOLDER)?;
    let mut rack = HostRack::File(FileRack::new(rt, String::from_str(alloc, FOLDER)?));
    let Ok(disk) = rack.fresh(alloc, NAME) else {
        return Err(Fail::new("no disk was given"));
    };
    let (disk, acknowledged) = append_one(alloc, disk)?;
    assert!(rt; acknowledged);
    assert_eq!(rt;
        fs::read(&rt, "part_file_test/1-2-3")?.as_slice(),
        FILE.as_slice()
    );
    let Ok(disk) = rack.reopen(alloc, disk) else {
        return Err(Fail::new("the disk wasn't given again"));
    };
    assert!(rt; matches!(found_on(alloc, disk), Ok((1, 1))));
    fs::remove_dir_all(&rt, FOLDER)?;
    Ok(())
}
