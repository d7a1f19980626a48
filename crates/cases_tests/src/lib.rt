// The worked cases, run on a rack under each algebra; lists of calls, builds by ticket, and too few cells.
#![tactic(auto)]

#[cfg(test)]
mod builds;
#[cfg(test)]
mod deed;
#[cfg(test)]
mod few_cells;
#[cfg(test)]
mod handed_back;
#[cfg(test)]
mod limits;
#[cfg(test)]
mod lists;
#[cfg(test)]
mod refusals;
#[cfg(test)]
mod script;
#[cfg(test)]
mod ticks;
#[cfg(test)]
mod told;
