// Scripts of the bench program: what their lines say, and what is printed for each.
//
//   line --statements--> NAME = command and its words --tasks--> task --session--> report
//                                                         |               |
//                                                       names <-- kept under NAME
//
// The bench program hands every line of its input to a `Session` and prints the report that it answers. A
// command is a word of `Command`, a `Task` with its words read, and an arm in `session` that does it.
#![tactic(auto)]

pub mod answers;
pub mod arguments;
pub mod command;
pub mod errors;
mod hasher;
pub mod names;
pub mod protocol;
pub mod reading;
pub mod session;
pub mod statements;
pub mod tasks;
