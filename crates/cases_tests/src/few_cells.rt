// Too few cells: asked before a rack is opened, and by an analysis before anything is read.
use algebra::worst::Worst;
use analyser::analyse::analyse;
use shelves::opening::enough;
use std::test::*;

#[test]
fn asked(rt: HostRuntime) {
    let cells: [Option<Worst>; 4096] = [None; 4096];
    assert!(rt; enough(&cells));
    assert!(rt; !enough(&cells[0..4095]));
}

// A node of 7 cycles and no port on shelf 0.
const NODE: [u8; 13] = [13, 0, 1, 0, 0, 7, 0, 0, 0, 0, 0, 0, 0];

// One byte too long.
const LONG: [u8; 32_769] = [0; 32_769];

#[test]
fn analysed(rt: HostRuntime) -> Result<(), Fail> {
    let heap = rt.alloc();
    let mut cells: [Option<Worst>; 4096] = [None; 4096];
    for (file, with_enough) in [(&NODE[..], None), (&LONG[..], Some(14)), (&[], Some(18))] {
        let bytes = file.len();
        let few = analyse(heap, file, &mut cells[0..4095])?.err();
        let told = few.map(|no| (no.why.number(), no.accepted));
        assert_eq!(rt; told, Some((1, 0)), "{bytes} bytes");
        let found = analyse(heap, file, &mut cells)?.err();
        let told = found.map(|no| no.why.number());
        assert_eq!(rt; told, with_enough, "{bytes} bytes");
    }
    Ok(())
}
