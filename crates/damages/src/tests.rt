// Files made in memory, damaged, and read.
use blocks::block::check;
use jobfile::fault::JobFault;
use jobfile::read::read;
use series::records::{PartRecord, SignRecord};
use std::alloc::{AllocError, Global};
use std::test::Fail;

type Record = [u8; 30];

type Block = [u8; 512];

fn head(n: u8, m: u8) -> Record {
    let mut record = [0; 30];
    record[0] = n;
    record[1] = m;
    record[3] = 64;
    record
}

fn optional_part(p: u8) -> Record {
    let mut record = [0; 30];
    record[0] = 1;
    record[1] = 33 + p % 64;
    record[21] = 1;
    record
}

fn unused_sign(s: u8) -> Record {
    let mut record = [0; 30];
    record[0] = 1;
    record[1] = 33 + s % 64;
    record
}

fn query() -> Record {
    let mut record = [0; 30];
    record[0] = b'Q';
    record
}

// Stores the check of a block.
fn seal(block: &mut Block) {
    let [high, low] = check(block).to_be_bytes();
    block[510] = high;
    block[511] = low;
}

// A block of at most 16 records; a number takes as many of its lowest bytes as it has room for.
fn block(kind: u8, place: usize, records: &[Record]) -> Block {
    let [.., count] = records.len().to_be_bytes();
    let [.., high, low] = place.to_be_bytes();
    let mut block = [0; 512];
    block[0] = kind;
    block[1] = count;
    block[2] = high;
    block[3] = low;
    for (bytes, record) in block[4..].chunks_exact_mut(30).zip(records) {
        bytes.copy_from_slice(record);
    }
    seal(&mut block);
    block
}

// A file of n optional parts, m signs of 0 to 0 and so many queries, block by block.
fn file(alloc: Global, n: u8, m: u8, acts: u8) -> Result<Vec<Block>, AllocError> {
    let kinds = [
        (b'J', vec![in alloc; head(n, m)]?),
        (b'P', (0..n).map(optional_part).collect(alloc)?),
        (b'S', (0..m).map(unused_sign).collect(alloc)?),
        (b'A', vec![in alloc; query(); usize::from(acts)]?),
    ];
    let mut blocks = Vec::new(alloc);
    for (kind, records) in &kinds {
        for some in records.chunks(16) {
            blocks.push(block(*kind, blocks.len(), some))?;
        }
    }
    Ok(blocks)
}

// What is told of a file that is refused.
#[derive(Clone, Copy, PartialEq, Eq, Debug)]
struct Fault {
    number: u8,
    block: usize,
    place: usize,
}

impl From<JobFault> for Fault {
    fn from(fault: JobFault) -> Fault {
        Fault {
            number: fault.number(),
            block: fault.block(),
            place: fault.place(),
        }
    }
}

fn refused(number: u8, block: usize, place: usize) -> Result<(), Fault> {
    Err(Fault {
        number,
        block,
        place,
    })
}

// Reads a file into slices of so many places.
fn told(file: &[u8], room: usize) -> Result<(), Fault> {
    let mut parts = [PartRecord::default(); 64];
    let mut signs = [SignRecord::default(); 64];
    let room = room.min(64);
    read(file, &mut parts[..room], &mut signs[..room])?;
    Ok(())
}

// A byte of a block is changed to this value.
#[derive(Clone, Copy)]
struct Damage {
    block: usize,
    at: usize,
    value: u8,
}

fn changed(block: usize, at: usize, value: u8) -> Damage {
    Damage { block, at, value }
}

// A file of 17 parts, 17 signs and 17 acts in 7 blocks, with damages.
fn damaged(alloc: Global, damages: &[Damage]) -> Result<Vec<Block>, AllocError> {
    let mut blocks = file(alloc, 17, 17, 17)?;
    for damage in damages {
        let block = blocks.get_mut(damage.block);
        if let Some(byte) = block.and_then(|block| block.get_mut(damage.at)) {
            *byte = damage.value;
        }
    }
    Ok(blocks)
}

// The same with checks made anew.
fn sealed(alloc: Global, damages: &[Damage]) -> Result<Vec<Block>, AllocError> {
    let mut blocks = damaged(alloc, damages)?;
    for block in &mut blocks {
        seal(block);
    }
    Ok(blocks)
}

// Each row: a damage, and what is told of the file, whose checks are made anew.
#[test]
fn one_damage(rt: HostRuntime) -> Result<(), Fail> {
    let rows = [
        (changed(0, 511, 0), Ok(())),
        (changed(0, 0, b'P'), refused(16, 0, 0)),
        (changed(6, 0, b'S'), refused(16, 6, 0)),
        (changed(0, 3, 1), refused(16, 0, 0)),
        (changed(6, 2, 1), refused(16, 6, 0)),
        (changed(0, 1, 2), refused(16, 0, 0)),
        (changed(2, 1, 2), refused(16, 2, 0)),
        (changed(4, 1, 0), refused(16, 4, 0)),
        (changed(5, 1, 15), refused(16, 5, 0)),
        (changed(5, 1, 17), refused(16, 5, 0)),
        (changed(6, 1, 0), refused(16, 6, 0)),
        (changed(0, 34, 1), refused(16, 0, 0)),
        (changed(5, 484, 1), refused(16, 5, 0)),
        (changed(6, 509, 1), refused(16, 6, 0)),
        (changed(0, 8, 1), refused(17, 0, 1)),
        (changed(0, 33, 1), refused(17, 0, 1)),
        (changed(1, 4, 0), refused(17, 1, 1)),
        (changed(1, 4, 21), refused(17, 1, 1)),
        (changed(1, 5, 32), refused(17, 1, 1)),
        (changed(1, 5, 127), refused(17, 1, 1)),
        (changed(1, 24, 1), refused(17, 1, 1)),
        (changed(1, 454, 0), refused(17, 1, 16)),
        (changed(2, 6, 65), refused(17, 2, 1)),
        (changed(3, 4, 9), refused(17, 3, 1)),
        (changed(3, 12, 1), refused(17, 3, 1)),
        (changed(3, 15, 1), refused(17, 3, 1)),
        (changed(3, 35, 33), refused(17, 3, 2)),
        (changed(4, 5, 33), refused(17, 4, 1)),
        (changed(5, 4, b'q'), refused(18, 5, 1)),
        (changed(5, 5, 1), refused(18, 5, 1)),
        (changed(5, 483, 1), refused(18, 5, 16)),
        (changed(6, 6, 1), refused(18, 6, 1)),
        (changed(1, 25, 3), refused(5, 1, 1)),
        (changed(2, 25, 255), refused(5, 2, 1)),
        (changed(1, 31, 2), refused(4, 1, 1)),
        (changed(2, 26, 128), refused(4, 2, 1)),
        (changed(3, 13, 1), refused(3, 3, 1)),
        (changed(4, 14, 65), refused(3, 4, 1)),
        (changed(0, 4, 65), refused(2, 0, 1)),
        (changed(0, 5, 255), refused(2, 0, 1)),
        (changed(0, 6, 65), refused(9, 0, 1)),
        (changed(0, 6, 64), Ok(())),
    ];
    for (damage, answer) in rows {
        let file = sealed(rt.alloc(), &[damage])?;
        assert_eq!(rt; told(file.as_flattened(), 64), answer);
    }
    Ok(())
}

// Each row: two damages of which the one that is looked for first is told.
#[test]
fn neighbouring_checks(rt: HostRuntime) -> Result<(), Fail> {
    let rows = [
        (changed(0, 8, 1), changed(0, 0, b'P'), refused(16, 0, 0)),
        (changed(0, 4, 65), changed(0, 8, 1), refused(17, 0, 1)),
        (changed(1, 0, b'S'), changed(0, 4, 65), refused(2, 0, 1)),
        (changed(1, 5, 1), changed(1, 1, 15), refused(16, 1, 0)),
        (changed(1, 35, 1), changed(1, 5, 1), refused(17, 1, 1)),
        (changed(2, 0, 0), changed(1, 454, 0), refused(17, 1, 16)),
        (changed(3, 0, 0), changed(2, 5, 1), refused(17, 2, 1)),
        (changed(5, 0, 0), changed(4, 5, 33), refused(17, 4, 1)),
        (changed(1, 25, 3), changed(6, 4, 0), refused(18, 6, 1)),
        (changed(1, 31, 2), changed(1, 25, 3), refused(5, 1, 1)),
        (changed(2, 25, 3), changed(1, 31, 2), refused(4, 1, 1)),
        (changed(3, 14, 65), changed(2, 31, 2), refused(4, 2, 1)),
        (changed(0, 6, 65), changed(4, 13, 1), refused(3, 4, 1)),
    ];
    for (first, second, answer) in rows {
        let in_order = sealed(rt.alloc(), &[first, second])?;
        assert_eq!(rt; told(in_order.as_flattened(), 64), answer);
        let reversed = sealed(rt.alloc(), &[second, first])?;
        assert_eq!(rt; told(reversed.as_flattened(), 64), answer);
    }
    Ok(())
}

// A check that differs is told before all else of its block.
#[test]
fn differing_checks(rt: HostRuntime) -> Result<(), Fail> {
    let rows = [
        (changed(0, 0, b'P'), changed(0, 8, 1), refused(15, 0, 0)),
        (changed(6, 4, 0), changed(6, 0, 0), refused(15, 6, 0)),
        (
            changed(6, 510, 255),
            changed(6, 511, 255),
            refused(15, 6, 0),
        ),
    ];
    for (first, second, answer) in rows {
        let file = damaged(rt.alloc(), &[first, second])?;
        assert_eq!(rt; told(file.as_flattened(), 64), answer);
    }
    Ok(())
}

// Each row: parts, signs, acts, the length read, places of the slices, and what is told.
#[test]
fn lengths(rt: HostRuntime) -> Result<(), Fail> {
    let rows = [
        (0, 0, 0, 0, 64, refused(14, 0, 0)),
        (0, 0, 0, 511, 64, refused(14, 0, 0)),
        (0, 0, 0, 512, 0, Ok(())),
        (0, 0, 0, 513, 64, refused(14, 0, 0)),
        (0, 0, 255, 8704, 64, Ok(())),
        (0, 0, 255, 9216, 64, refused(14, 0, 0)),
        (64, 64, 255, 12800, 64, Ok(())),
        (64, 64, 255, 12801, 64, refused(14, 0, 0)),
        (64, 64, 255, 13312, 64, refused(14, 0, 0)),
        (17, 17, 0, 2048, 64, refused(14, 0, 0)),
        (17, 17, 0, 2048, 0, refused(14, 0, 0)),
        (17, 17, 0, 2560, 17, Ok(())),
        (17, 17, 0, 2560, 16, refused(1, 0, 0)),
        (65, 0, 0, 512, 64, refused(2, 0, 1)),
    ];
    for (n, m, acts, length, room, answer) in rows {
        let mut bytes = file(rt.alloc(), n, m, acts)?
            .as_flattened()
            .to_vec(rt.alloc())?;
        bytes.resize(length, 0)?;
        assert_eq!(rt; told(&bytes, room), answer);
    }
    Ok(())
}
