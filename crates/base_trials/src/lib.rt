//! Tests of the crates below the core that no request tells of: texts, the plane, values of a world and its plain program, the store, records,
//! replies that are too long, the queues and subscriptions of sessions, streams and disks in memory, a clock and the log.
#![tactic(auto)]

#[cfg(test)]
mod appends;
#[cfg(test)]
mod clocks;
#[cfg(test)]
mod disks;
#[cfg(test)]
mod filters;
#[cfg(test)]
mod globs;
#[cfg(test)]
mod hubs;
#[cfg(test)]
mod journals;
#[cfg(test)]
mod keyspaces;
#[cfg(test)]
mod records;
#[cfg(test)]
mod replies;
#[cfg(test)]
mod rewritings;
#[cfg(test)]
mod runs;
#[cfg(test)]
mod samples;
#[cfg(test)]
mod script_lines;
#[cfg(test)]
mod sessions;
#[cfg(test)]
mod shapes;
#[cfg(test)]
mod streams;
#[cfg(test)]
mod tables;
#[cfg(test)]
mod texts;
#[cfg(test)]
mod trees;
#[cfg(test)]
mod values;
#[cfg(test)]
mod worlds;
