//! Tests of calls that no text of the language shows alone: names, tokens, tables and words; folders, sinks and
//! exporters; closures, which are compared with a slow one (`slow`); and terms, rows, steps, instances and transforms
//! over theories that are read from texts (`given`).
#![tactic(auto)]

#[cfg(test)]
mod closures;
#[cfg(test)]
mod composites;
#[cfg(test)]
mod folders;
#[cfg(test)]
mod given;
#[cfg(test)]
mod handing;
#[cfg(test)]
mod meanings;
#[cfg(test)]
mod memory;
#[cfg(test)]
mod names;
#[cfg(test)]
mod rows;
#[cfg(test)]
mod slow;
#[cfg(test)]
mod steps;
#[cfg(test)]
mod symbols;
#[cfg(test)]
mod tables;
#[cfg(test)]
mod tokens;
#[cfg(test)]
mod words;
