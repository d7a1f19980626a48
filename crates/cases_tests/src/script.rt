// A script: calls, each with what it is awaited to answer, played on a rack under each algebra.
use crate::deed::{Deed, perform};
use crate::told::*;
use algebra::best::Best;
use algebra::pair::Pair;
use algebra::ports::Ports;
use algebra::worst::Worst;
use rack::rack::Rack;
use shelves::opening::enough;
use shelves::refusal::Refusal;
use shelves::report::Report;
use std::process::Abort;
use std::test::*;

#[derive(Clone, Copy)]
pub enum Line {
    // a call, and the number it replies
    Done(Deed, usize),
    // a call, and its refusal
    Refused(Deed, Refusal),
    // a shelf's report: figure and tick under worst and under best, the ports, the transient and the period
    Report(u8, (u32, usize), (u32, usize), u32, (usize, usize)),
    // a shelf whose report is refused, and why
    NoReport(u8, Refusal),
}

// On shelf 15 of every rack, where no script changes it.
const PAUSE: Line = Line::Done(Deed::Pause(15, 10), 0);

const ITS_REPORT: Line = Line::Report(15, (10, 0), (0, 1), 0x400, (2, 1));

// Is an answer a report with these figures and this transient and period?
pub fn reports<V: Told>(
    rt: &impl Abort,
    answer: Result<Report<V>, Refusal>,
    awaited: Figures,
    shape: (usize, usize),
) -> Result<(), Fail> {
    let report = answer?;
    assert_eq!(rt; (report.transient, report.period), shape);
    let Some(figure) = report.figure else {
        return Err(Fail::new("no figure"));
    };
    figure.told(rt, report.tick, awaited);
    Ok(())
}

fn refused<T: Drop>(
    rt: &impl Abort,
    answer: Result<T, Refusal>,
    why: Refusal,
    place: usize,
) -> Result<(), Fail> {
    assert_eq!(rt; answer.err(), Some(why), "line {place}");
    Ok(())
}

// Plays one line; a failed check names it by its place in the script.
fn play<V: Told>(
    rt: &impl Abort,
    rack: &mut Rack<V>,
    line: Line,
    place: usize,
) -> Result<(), Fail> {
    // a match, since each case has arguments of its own
    match line {
        Line::Done(deed, number) => {
            assert_eq!(rt; perform(rack, deed)?, number, "line {place}");
            Ok(())
        },
        Line::Refused(deed, why) => refused(rt, perform(rack, deed), why, place),
        Line::Report(shelf, worst, best, ports, shape) => {
            let awaited = Figures { worst, best, ports };
            reports(rt, rack.report(shelf), awaited, shape)
        }
        Line::NoReport(shelf, why) => refused(rt, rack.report(shelf), why, place),
    }
}

// After each line the pause on shelf 15 is reported as before.
pub fn play_all<V: Told>(
    rt: &impl Abort,
    cells: &mut [Option<V>],
    script: &[Line],
) -> Result<(), Fail> {
    assert!(rt; enough(cells));
    let mut rack = Rack::open(cells);
    play(rt, &mut rack, PAUSE, 0)?;
    for (k, line) in script.iter().enumerate() {
        play(rt, &mut rack, *line, k)?;
        play(rt, &mut rack, ITS_REPORT, k)?;
    }
    Ok(())
}

pub fn under_each(rt: &impl Abort, script: &[Line]) -> Result<(), Fail> {
    play_all::<Worst>(rt, &mut [None; 4096], script)?;
    play_all::<Best>(rt, &mut [None; 4096], script)?;
    play_all::<Ports>(rt, &mut [None; 4096], script)?;
    play_all::<Pair<Worst, Ports>>(rt, &mut [None; 4096], script)
}
