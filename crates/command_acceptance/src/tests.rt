//! The tests, and what they share.
mod audits;
mod cut_libraries;
mod failing_calls;
mod far_reading;
mod floating_cells;
mod limits;
mod refused_cells;
mod runs;
mod runs_on_test_cells;
mod scan_flip_flops;
mod simulation;
mod tied_models;
mod timing_types;
mod translations;
mod words_and_udp;
mod words_runs;
