//! Tests of names, the desk, printing, behaviours, normal texts, diagrams, rows and PARs made one, by public calls: that each call that
//! allocates succeeds where memory is there, and what no contract says. They stand here since a crate with tests is proved twice.
#![tactic(auto)]

#[cfg(test)]
mod tests;
