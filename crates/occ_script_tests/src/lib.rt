//! The tests by public calls of what reads texts, of the names of laws, of trails, and of the machine that takes steps. They stand in a
//! crate of their own, since a crate with tests is proved twice. What is expected comes from the rules of the language and of the
//! formats (docs/DEFINITIONS.md, docs/FORMATS.md). Whole texts are tested by the rows of command lines, in occ_tool_rows.
#![tactic(auto)]

#[cfg(test)]
mod laws;
#[cfg(test)]
mod lexing;
#[cfg(test)]
mod lines;
#[cfg(test)]
mod machine;
#[cfg(test)]
mod parts;
#[cfg(test)]
mod paths;
#[cfg(test)]
mod refused;
#[cfg(test)]
mod schedules;
#[cfg(test)]
mod scripts;
#[cfg(test)]
mod steps;
