//! Worked sources on their way through the layers, from their text to orders, intervals and steps, and
//! worked commands over files in memory: tests alone.
#![tactic(auto)]

#[cfg(test)]
mod commands;
#[cfg(test)]
mod orders;
#[cfg(test)]
mod program;
#[cfg(test)]
mod source;
#[cfg(test)]
mod steps;
#[cfg(test)]
mod tanks;
