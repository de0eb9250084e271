//! Reads over a disk in memory: revisions in files of their own, and the first shard packed.
use fsfs_base::{Name, RevNum, SmallFault, SmallFile};
use fsfs_disk::Disk;
use fsfs_fetch::{Direct, OwnedReads, disk_of, over_disk};
use fsfs_layout::Layout;
use fsfs_memory::{FIRST_DIRECTORY, MemDisk, REVISION_0};
use fsfs_revision::{Book, BookFault, Refusal, RevProps};
use std::alloc::Global;
use std::test::Fail;

fn put(disk: &mut MemDisk, name: &str, bytes: &[u8]) -> Result<(), Fail> {
    if name.len() > 128 {
        return Err(Fail::from("a long name"));
    }
    disk.put(&Name::new(name), bytes)?;
    Ok(())
}

// Shards of two revisions; revisions 0 and 1 are packed, 2 is not, and 3 has no file.
fn packed_disk(alloc: Global) -> Result<MemDisk, Fail> {
    let mut disk = MemDisk::new(alloc);
    let mut pack = Vec::from_slice(alloc, REVISION_0)?;
    pack.extend_from_slice(FIRST_DIRECTORY)?;
    put(&mut disk, "db/min-unpacked-rev", b"2\n")?;
    put(&mut disk, "db/revs/0.pack/pack", &pack)?;
    put(&mut disk, "db/revs/0.pack/manifest", b"0\n115\n")?;
    put(&mut disk, "db/revs/1/2", b"revision 2")?;
    put(&mut disk, "db/revprops/0/1", b"END\n")?;
    Ok(disk)
}

// The answer, and what stands in a buffer of eight bytes behind it.
fn part<B: Book>(book: &mut B, rev: u16, offset: u64) -> (Result<usize, BookFault>, [u8; 8]) {
    let mut buffer = [b'.'; 8];
    let answer = book.read_rev(RevNum::from(rev), offset, &mut buffer);
    (answer, buffer)
}

fn small(file: SmallFile, at: usize) -> BookFault {
    BookFault::Refused(Refusal::Small(SmallFault { file, at }))
}

fn missing(rev: RevNum) -> BookFault {
    BookFault::Refused(Refusal::Missing { rev })
}

// Parts of a packed revision end where the next one begins.
#[test]
fn packed_and_not(rt: HostRuntime) -> Result<(), Fail> {
    let disk = packed_disk(rt.alloc())?;
    let (second, third) = (RevNum::from(2), RevNum::from(3));
    let mut book = over_disk(rt.alloc(), disk, third, Layout::sharded(2), second);
    let above = BookFault::Refused(Refusal::NoRev {
        asked: RevNum::from(4),
        youngest: third,
    });
    let behind = BookFault::Short {
        rev: RevNum::ZERO,
        offset: 116,
    };
    let table = [
        (0, 0, Ok(8), *b"PLAIN\nEN"),
        (0, 108, Ok(7), *b"17 107\n."),
        (0, 115, Ok(0), *b"........"),
        (0, 116, Err(behind), *b"........"),
        (1, 59, Ok(8), *b"PLAIN\nK "),
        (1, 266, Ok(4), *b"226\n...."),
        (2, 3, Ok(7), *b"ision 2."),
        (3, 0, Err(missing(third)), *b"........"),
        (4, 0, Err(above), *b"........"),
    ];
    for (rev, offset, answer, bytes) in table {
        assert!(rt;
            part(&mut book, rev, offset) == (answer, bytes),
            "at {rev} {offset}"
        );
    }
    assert!(rt; book.youngest() == Ok(third));
    for (rev, len) in [
        (0, Ok(115)),
        (1, Ok(270)),
        (2, Ok(10)),
        (3, Err(missing(third))),
    ] {
        assert!(rt; book.rev_len(RevNum::from(rev)) == len, "of {rev}");
    }
    let mut props = [b'.'; 5];
    assert!(rt; book.read_props(RevNum::from(1), &mut props) == Ok(4));
    assert!(rt; props == *b"END\n.");
    let mut front = [b'.'; 2];
    assert!(rt; book.read_props(RevNum::from(1), &mut front) == Ok(2));
    assert!(rt; front == *b"EN");
    assert!(rt; book.read_props(second, &mut props) == Err(missing(second)));
    // The kept floor is 0 though the first shard is packed.
    let disk = disk_of(book);
    let before = disk.calls();
    let reads = OwnedReads::new(disk, third, Layout::sharded(2));
    let mut book = Direct::new(rt.alloc(), reads, RevNum::ZERO);
    assert!(rt; part(&mut book, 1, 0) == (Ok(8), *b"id: 0-1."));
    assert!(rt; book.floor() == second);
    assert!(rt; part(&mut book, 0, 0) == (Ok(8), *b"PLAIN\nEN"));
    assert!(rt; part(&mut book, 3, 0).0 == Err(missing(third)));
    // Revision 1: the file's size, the floor, the manifest in two calls, the pack's size and a part of it. Revision 0:
    // the last two again. Revision 3: the file's size, the floor, the file's size.
    let mut disk = disk_of(book);
    assert!(rt; disk.calls() == before.saturating_add(11));
    disk.put(&Name::new("db/min-unpacked-rev"), b"3\n")?;
    disk.put(&Name::new("db/revs/0.pack/manifest"), b"0\n115")?;
    let reads = OwnedReads::new(disk, RevNum::from(4), Layout::sharded(2));
    let mut book = Direct::new(rt.alloc(), reads, second);
    assert!(rt; part(&mut book, 4, 0).0 == Err(small(SmallFile::MinUnpackedRev, 0)));
    assert!(rt; part(&mut book, 1, 0).0 == Err(small(SmallFile::Manifest(0), 5)));
    Ok(())
}
