//! The tests of the engine and of the prompt, by readers and writers in memory.
#![tactic(auto)]

#[cfg(test)]
mod answers;
#[cfg(test)]
mod jobs;
#[cfg(test)]
mod prompt;
#[cfg(test)]
mod reading;
#[cfg(test)]
mod streams;
#[cfg(test)]
mod writing;
