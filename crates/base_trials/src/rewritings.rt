//! A whole rewriting over a disk in memory: what it writes, and each call failing once.

use log_rewrite::{NewSide, Rewriter};
use log_sides::{Batch, make_side};
use outside::{Disk, Failed, MemoryDisk, Side};
use std::alloc::Global;
use std::test::Fail;

// The old side stands, and side B is rewritten with a piece and a mirrored batch.
fn rewrite(disk: &mut MemoryDisk, piece: &Batch) -> Result<NewSide, Failed> {
    let mut rewriter = Rewriter::begin(disk, Side::B, 2)?;
    if rewriter.has_room(piece.len()) {
        rewriter.copy_piece(disk, piece)?;
    }
    if rewriter.has_room(1) {
        rewriter.mirror(disk, b"\x01\0\0\0\0\0\0\0\x01z\0")?;
    }
    rewriter.mirror(disk, b"")?;
    rewriter.finish(disk)
}

fn disk_failing(alloc: Global, failing: &[u64]) -> Result<MemoryDisk, Fail> {
    let old = b"\x01TFL\x01\0\0\0\0\0\0\0\0\0\0\x01\0".to_vec(alloc)?;
    Ok(MemoryDisk::new(alloc, old, Vec::new(alloc), failing.to_vec(alloc)?))
}

#[test]
fn a_new_side_is_written(rt: HostRuntime) -> Result<(), Fail> {
    let alloc = rt.alloc();
    let mut disk = disk_failing(alloc, &[])?;
    let mut piece = Batch::new(alloc)?;
    piece.push(b"xy")?;
    let made = rewrite(&mut disk, &piece);
    assert_eq!(rt;
        made,
        Ok(NewSide {
            side: Side::B,
            generation: 2,
            gate: 37
        })
    );
    let mut bytes = [b'.'; 40];
    assert_eq!(rt; disk.read(Side::B, 0, &mut bytes), Ok(38));
    assert_eq!(rt;
        bytes.as_slice(),
        b"\x01TFL\x03\0\0\0\0\0\0\0\0\0\0\x02\x01\0\0\0\0\0\0\0\x02xy\x01\0\0\0\0\0\0\0\x01z\0..".as_slice()
    );
    Ok(())
}

// The first byte of side B and how many bytes it has.
fn gate_of(disk: &mut MemoryDisk) -> (u8, u64) {
    let mut gate = [0u8];
    match disk.read(Side::B, 0, &mut gate) {
        Ok(_) => (gate[0], disk.len(Side::B).unwrap_or(0)),
        Err(Failed) => (9, 0),
    }
}

#[test]
fn whatever_call_fails_the_new_side_is_shut_or_whole(rt: HostRuntime) -> Result<(), Fail> {
    let alloc = rt.alloc();
    let mut piece = Batch::new(alloc)?;
    piece.push(b"xy")?;
    for failing in 1u64..13 {
        let mut disk = disk_failing(alloc, &[failing])?;
        let made = rewrite(&mut disk, &piece).is_ok();
        for choice in 0u64..27 {
            let mut image = disk.image(disk.moment(), choice)?;
            let (gate, len) = gate_of(&mut image);
            let open = gate == 1 && len >= 17;
            assert!(rt; !open || len == 38, "{failing} {choice} {len}");
            assert!(rt; open || !made);
        }
    }
    Ok(())
}
