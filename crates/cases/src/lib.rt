// Worked cases: what small plans come to under the definitions, tick by tick.
#![tactic(auto)]

ghost use Rattle.cases.specs.Cases.{Cases};

// Every row of the table of worked cases holds.
pub fn cases_stand() -> ()
    ensures { Cases }
{}
