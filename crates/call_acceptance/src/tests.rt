//! The tests, and what they share.
mod desks;
mod functions;
mod liberty_tokens;
mod own_libraries;
mod state_tables;
mod verilog_scans;
mod written_groups;
