//! The commands of `ifs`, and the top call that runs one.
//!
//! A run has three parts. The crate `ifs_words` reads the words as a command. What it asks for and what the files hold
//! decide on a reply (`stub`): outputs in order, a line on standard error and a status. The reply is delivered
//! (`deliver`). `run` does one after the other, and its contract, `Runs`, says sentence by sentence what comes of it,
//! whatever fails outside.
#![tactic(auto)]

mod deliver;
mod edits;
mod inputs;
mod limits;
mod refusal;
mod reply;
mod stub;
mod top;

pub use top::run;

#[cfg(test)]
mod tests;
