//! What the program does with its words, over files and a sink.
#![tactic(auto)]

mod certificate;
mod check;
mod check_lines;
mod compile;
mod demo;
mod file_lines;
mod finish;
pub mod laws;
mod lines;
mod matrices;
mod migrate;
mod number;
mod outcome;
mod plan;
mod plan_lines;
mod request;
mod run_lines;
mod simulate;
mod source;
mod stage;
mod status;
mod tables;
mod top;
mod words;

pub use status::Status;
pub use top::run;
