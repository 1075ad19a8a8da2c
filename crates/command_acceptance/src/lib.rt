//! Whole runs of every command over desks in memory, over desks that fail and over files that are cut, with the bytes that they
//! have to leave; no product code.
#![tactic(auto)]

#[cfg(test)]
mod tests;
