// Records written and read back, and their weights.
use algebra::arc::{Arc, OUT};
use algebra::best::Best;
use algebra::label::Label;
use algebra::ports::Ports;
use algebra::worst::Worst;
use program::file::list;
use program::record::Record;
use program::unwritten::Unwritten;
use program::weights::{count, weight};
use program::write::write;
use std::alloc::Global;
use std::process::Abort;
use std::test::Fail;

const NODE: [u8; 13] = [13, 0, 1, 0, 1, 4, 3, 2, 1, 8, 7, 6, 5];

const PAUSE: [u8; 13] = [13, 0, 2, 0, 2, 255, 255, 255, 255, 1, 0, 0, 128];

const TABLE: [u8; 17] = [17, 0, 3, 0, 3, 1, 0, 1, 255, 0, 7, 0, 0, 0, 0, 4, 0];

// One record, read and written again, is the same bytes.
fn same(rt: &impl Abort, heap: Global, bytes: &[u8]) -> Result<(), Fail> {
    let listing = list(heap, bytes)?;
    assert!(rt; listing.records.len() == 1);
    let again = write(heap, &listing.records[0])?;
    assert!(rt; again.as_slice() == bytes);
    Ok(())
}

#[test]
fn round_trip(rt: HostRuntime) -> Result<(), Fail> {
    let heap = rt.alloc();
    same(&rt, heap, &NODE)?;
    same(&rt, heap, &PAUSE)?;
    same(&rt, heap, &TABLE)?;
    same(&rt, heap, &[6, 0, 4, 0, 1, 2])?;
    same(&rt, heap, &[6, 0, 5, 0, 3, 4])?;
    same(&rt, heap, &[5, 0, 6, 0, 5])?;
    same(&rt, heap, &[6, 0, 7, 0, 6, 7])?;
    same(&rt, heap, &[6, 0, 8, 0, 8, 9])?;
    same(&rt, heap, &[5, 0, 9, 0, 10])
}

#[test]
fn weights(rt: HostRuntime) -> Result<(), Fail> {
    let mut bytes = NODE.to_vec(rt.alloc())?;
    bytes.extend_from_slice(&TABLE)?;
    let listing = list(rt.alloc(), bytes.as_slice())?;
    let records = listing.records.as_slice();
    assert_eq!(rt; count(records), 2);
    assert_eq!(rt; weight::<Worst>(records).cycles, 16_909_060 + 1792);
    assert_eq!(rt; weight::<Ports>(records).bits, 0x0506_0708 | 0x0004_0000);
    bytes.extend_from_slice(&PAUSE)?;
    let listing = list(rt.alloc(), bytes.as_slice())?;
    let records = listing.records.as_slice();
    assert_eq!(rt; count(records), 3);
    assert_eq!(rt; weight::<Worst>(records).cycles, 4_294_967_295);
    assert_eq!(rt; weight::<Best>(records).cycles, 4_294_967_295);
    Ok(())
}

fn with_arcs(heap: Global, count: usize) -> Result<Record, Fail> {
    let arc = Arc {
        from: 0,
        to: OUT,
        label: Label {
            cycles: 1,
            ports: 0,
        },
    };
    let arcs = vec![in heap; arc; count]?;
    Ok(Record::Table { shelf: 0, arcs })
}

#[test]
fn most_arcs(rt: HostRuntime) -> Result<(), Fail> {
    let heap = rt.alloc();
    let most = with_arcs(heap, 6552)?;
    assert_eq!(rt; write(heap, &most)?.len(), 65_527);
    let more = with_arcs(heap, 6553)?;
    assert!(rt; matches!(write(heap, &more), Err(Unwritten::Long)));
    Ok(())
}
