// Builds two threads by ticket, and prints the line of their worst tick.
#![tactic(auto)]

mod build;

ghost use Rattle.std.specs.Prelude.{◌≤◌, length, IfOk};
ghost use Rattle.shelves.specs.Promise.{Figured};
ghost use Rattle.shelves.specs.Told.{report_of};
ghost use Rattle.by_ticket.specs.Threads.{side_by_side};

use algebra::algebra::Algebra;
use algebra::arc::Arc;
use algebra::label::Label;
use algebra::worst::Worst;
use build::{build, end};
use lines::line::line;
use shelves::refusal::Refusal;
use shelves::report::Report;
use std::io;
use tickets::ticket_rack::TicketRack;

// The lease sweep, long at odd ticks.
const SWEEP: [Arc; 2] = [
    Arc {
        from: 0,
        to: 1,
        label: Label {
            cycles: 120,
            ports: 1,
        },
    },
    Arc {
        from: 1,
        to: 0,
        label: Label {
            cycles: 700,
            ports: 1,
        },
    },
];

// The radar check, long at even ticks.
const RADAR: [Arc; 2] = [
    Arc {
        from: 0,
        to: 1,
        label: Label {
            cycles: 500,
            ports: 2,
        },
    },
    Arc {
        from: 1,
        to: 0,
        label: Label {
            cycles: 60,
            ports: 2,
        },
    },
];

// Both threads are built, looked at and cleared again: the report is of the two side by side.
fn look<V: Algebra>(
    cells: &mut [Option<V>],
    sweep: &[Arc],
    radar: &[Arc],
) -> Result<Report<V>, Refusal>
    requires { 4096 ≤ length cells.old }
    ensures { IfOk result (λ report. Figured V.model (side_by_side sweep.now radar.now) (report_of V.model V.means report)) }
{
    let mut rack = TicketRack::open(cells);
    let ticket = build(&mut rack, sweep, radar)?;
    let report = rack.report(&ticket);
    end(&mut rack, ticket);
    report
}

fn main(rt: HostRuntime) -> io::Result<()> {
    match look::<Worst>(&mut [None; 4096], &SWEEP, &RADAR) {
        Ok(report) => {
            let text = line(rt.alloc(), Ok(report))?;
            println!(rt; "{text}")
        }
        Err(why) => {
            let number = why.number();
            println!(rt; "refused {number}")
        }
    }
}
