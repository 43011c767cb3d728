//! Tests of what no table of words can say: threads, values that the program's one call does not show, and the real
//! things. It holds tests alone.
#![tactic(auto)]

#[cfg(test)]
mod cores;
#[cfg(test)]
mod counters;
#[cfg(test)]
mod crossed_waits;
#[cfg(test)]
mod durables;
#[cfg(test)]
mod hall_ends;
#[cfg(test)]
mod hall_threads;
#[cfg(test)]
mod halls;
#[cfg(test)]
mod journals;
#[cfg(test)]
mod late_works;
#[cfg(test)]
mod loads;
#[cfg(test)]
mod positions;
#[cfg(test)]
mod requests;
#[cfg(test)]
mod seated;
#[cfg(test)]
mod stores;
#[cfg(test)]
mod system;
#[cfg(test)]
mod two_loops;
