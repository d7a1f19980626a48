// Damaged files, listed: the records before the refusal, and then its number with their count.
use crate::listing::listing;
use std::alloc::Global;
use std::process::Abort;
use std::test::Fail;

const LOOP: [u8; 5] = [5, 0, 6, 0, 2];

fn lists(rt: &impl Abort, heap: Global, bytes: &[u8], lines: &str) -> Result<(), Fail> {
    let mut text = Vec::new(heap);
    listing(heap, bytes, &mut text)?;
    assert_eq!(rt; text.as_slice(), lines.as_bytes());
    Ok(())
}

#[test]
fn refused(rt: HostRuntime) -> Result<(), Fail> {
    let heap = rt.alloc();
    lists(&rt, heap, &[5, 0, 6], "refused 15 record 0\n")?;
    lists(
        &rt,
        heap,
        &[5, 0, 9, 0, 2, 4, 0, 10, 0],
        "record 0 clear shelf 2\nrefused 16 record 1\n",
    )?;
    lists(
        &rt,
        heap,
        &[7, 0, 3, 0, 1, 0, 0, 4, 0, 6, 0],
        "record 0 table shelf 1 arcs 0\nrefused 17 record 1\n",
    )?;
    lists(
        &rt,
        heap,
        LOOP.repeat(heap, 6554)?.as_slice(),
        "refused 14 record 0\n",
    )
}

#[test]
fn empty(rt: HostRuntime) -> Result<(), Fail> {
    lists(
        &rt,
        rt.alloc(),
        &[],
        "records 0\nlabels 0\nworst 0\nbest 0\nports 0\n",
    )
}
