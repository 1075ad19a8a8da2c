//! Runs of `simulate`, `replay-verilog` and `replay-vital`, and what they share.
mod cut_files;
mod cuts;
mod differences;
mod failing_calls;
mod inverter;
mod libraries;
mod refused_files;
mod replays;
mod sections;
mod simulations;
mod traces;
