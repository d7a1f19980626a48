// What a program means: plans, their runs, and the joined weights of runs, in every algebra.
#![tactic(auto)]

ghost use Rattle.runs.specs.Beginnings.{Beginnings};
ghost use Rattle.runs.specs.Weights.{RowsAreOne};
ghost use Rattle.runs.specs.Figure.{FigureCovers, FirstTick};
ghost use Rattle.runs.specs.Computes.{NodeComputes, PauseComputes, TableComputes, ChoiceComputes, SequenceComputes, LoopComputes, ForkComputes, AbortComputes};
ghost use Rattle.runs.specs.OneShape.{RowsHaveOneShape, ShelvesHaveOneShape};
ghost use Rattle.runs.specs.Steps.{SpellingStays, SpellsOne};

use algebra::algebra::Algebra;

pub mod step;

// A proper beginning of a run is a paused run of the same plan.
pub fn beginnings_stand() -> ()
    ensures { Beginnings }
{}

// A plan has one joined weight at each tick, paused and left.
pub fn rows_are_one<V: Algebra>() -> ()
    ensures { RowsAreOne V.model }
{}

// The join of both rows covers every tick of every run.
pub fn figure_stands<V: Algebra>() -> ()
    ensures { FigureCovers V.model }
{}

// A choosing algebra's figure is reached first at the least tick whose coefficients join to it.
pub fn first_tick_stands<V: Algebra>() -> ()
    ensures { FirstTick V.model }
{}

// Each rule computes its plan: over pieces that give the joined weights of plans, its rows are those of the composed plan.
pub fn rules_compute<V: Algebra>() -> ()
    ensures node { NodeComputes V.model }
    ensures pause { PauseComputes V.model }
    ensures table { TableComputes V.model }
    ensures choice { ChoiceComputes V.model }
    ensures sequence { SequenceComputes V.model }
    ensures repeat { LoopComputes V.model }
    ensures fork { ForkComputes V.model }
    ensures abort { AbortComputes V.model }
{}

// One shape for one meaning: rows in their least shape are kept in one way.
pub fn one_shape_stands<V: Algebra>() -> ()
    ensures rows { RowsHaveOneShape V.model }
    ensures shelves { ShelvesHaveOneShape V.model }
{}

// What a step spells: recording more changes no plan that an earlier step spells, and a step spells at most one.
pub fn spelling_stands() -> ()
    ensures stays { SpellingStays }
    ensures one { SpellsOne }
{}
