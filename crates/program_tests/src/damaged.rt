// Damaged files, with the refusal and the count of records before it.
use program::file::list;
use program::refusal::Refusal;
use std::alloc::Global;
use std::process::Abort;
use std::test::Fail;

const NODE: [u8; 13] = [13, 0, 1, 0, 2, 0xe8, 3, 0, 0, 1, 0, 0, 0];

const LOOP: [u8; 5] = [5, 0, 6, 0, 2];

const TABLE: [u8; 17] = [17, 0, 3, 0, 3, 1, 0, 1, 255, 5, 0, 0, 0, 4, 0, 0, 0];

// The allocator goes beside the handle, since one that may stop a test has none.
fn reads(
    rt: &impl Abort,
    heap: Global,
    bytes: &[u8],
    before: usize,
    refusal: Option<Refusal>,
) -> Result<(), Fail> {
    let listing = list(heap, bytes)?;
    assert_eq!(rt; listing.records.len(), before);
    assert_eq!(rt; listing.refusal, refusal);
    Ok(())
}

// A record is whole with its last byte alone: each shorter beginning, but the empty one, is cut.
fn cuts(rt: &impl Abort, heap: Global, record: &[u8]) -> Result<(), Fail> {
    // counted, as a slice has no method that yields its beginnings
    for n in 1..record.len() {
        reads(rt, heap, &record[..n], 0, Some(Refusal::Cut))?;
    }
    reads(rt, heap, record, 1, None)
}

#[test]
fn cut_short(rt: HostRuntime) -> Result<(), Fail> {
    let heap = rt.alloc();
    reads(&rt, heap, &[], 0, None)?;
    cuts(&rt, heap, &NODE)?;
    cuts(&rt, heap, &TABLE)?;
    reads(&rt, heap, &[5, 0, 6, 0, 2, 5, 0, 6], 1, Some(Refusal::Cut))
}

#[test]
fn wrong_lengths(rt: HostRuntime) -> Result<(), Fail> {
    let heap = rt.alloc();
    let cut = Some(Refusal::Cut);
    let misfit = Some(Refusal::Misfit);
    // each length that is less than what stands before a body
    for length in 0..4u8 {
        reads(&rt, heap, &[length, 0, 6, 0, 2], 0, cut)?;
    }
    reads(&rt, heap, &[6, 0, 6, 0, 2], 0, cut)?;
    reads(&rt, heap, &[0, 5, 6, 0, 2], 0, cut)?;
    reads(&rt, heap, &[4, 0, 6, 0, 2], 0, misfit)?;
    reads(&rt, heap, &[6, 0, 6, 0, 2, 0], 0, misfit)?;
    reads(&rt, heap, &[5, 0, 4, 0, 2], 0, misfit)?;
    reads(&rt, heap, &[6, 0, 3, 0, 1, 0], 0, misfit)?;
    reads(&rt, heap, &[7, 0, 3, 0, 1, 0, 0], 1, None)?;
    reads(&rt, heap, &[7, 0, 3, 0, 1, 1, 0], 0, misfit)?;
    reads(&rt, heap, &[8, 0, 3, 0, 1, 0, 0, 9], 0, misfit)
}

#[test]
fn unknown_kinds(rt: HostRuntime) -> Result<(), Fail> {
    let heap = rt.alloc();
    let unknown = Some(Refusal::Unknown);
    reads(&rt, heap, &[5, 0, 0, 0, 2], 0, unknown)?;
    reads(&rt, heap, &[5, 0, 10, 0, 2], 0, unknown)?;
    reads(&rt, heap, &[5, 0, 0, 6, 2], 0, unknown)?;
    reads(&rt, heap, &[5, 0, 9, 0, 2, 4, 0, 10, 0], 1, unknown)
}

#[test]
fn large(rt: HostRuntime) -> Result<(), Fail> {
    let heap = rt.alloc();
    let mut bytes = Vec::new(heap);
    bytes.extend_from_slice(&NODE)?;
    bytes.extend_from_slice(LOOP.repeat(heap, 6551)?.as_slice())?;
    assert_eq!(rt; bytes.len(), 32_768);
    reads(&rt, heap, bytes.as_slice(), 6552, None)?;
    bytes.push(5)?;
    reads(&rt, heap, bytes.as_slice(), 0, Some(Refusal::Large))
}
