//! Rows of the words of the command line, and of the outside.
//!
//! The contract of `read_command` says which words give a command by the rules of clap, of which no
//! one would see at a glance what they come to; so words stand here with the command that they give,
//! or with none. The shelf and the sinks in memory, by which all other rows are run, are shown at
//! each call that fails and with small and large steps. What the host's shelf and sink do is the one
//! part of the program that no clause tells: it is shown over real files.
//!
//! They stand apart from the crates that they are of, so that proving them proves none of those
//! anew. A row is a line of a table.
#![tactic(auto)]

#[cfg(test)]
mod shelves;
#[cfg(test)]
mod words;
