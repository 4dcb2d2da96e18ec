//! The tests of the crates of documents, steps and bytes. They stand apart, since a crate that has tests
//! is proved twice.
#![tactic(auto)]

#[cfg(test)]
mod base;
#[cfg(test)]
mod by_paths;
#[cfg(test)]
mod edge;
#[cfg(test)]
mod plain;
#[cfg(test)]
mod reads;
#[cfg(test)]
mod samples;
#[cfg(test)]
mod serial;
#[cfg(test)]
mod shredding;
#[cfg(test)]
mod steps;
#[cfg(test)]
mod tables;
#[cfg(test)]
mod taken;
