//! What the tests share: runs of commands over desks in memory, also with each call failing in its turn, and samples of libraries
//! and models with what they come to.
mod desks;
mod fronts;
mod libraries;
mod texts;
mod three_cells;
mod timed_flip_flops;

pub(crate) use desks::{
    AUDIT, Files, Left, Limits, PIECES, REPLAY_VERILOG, REPLAY_VITAL, SIMULATE, TRANSLATE, desk_of,
    edited, library_alone, ran, ran_without_files, simulated, simulated_beside_its_own, translated,
    words_of,
};
pub(crate) use fronts::{Whole, done, leaves_fronts, leaves_fronts_in_pieces, leaves_nothing};
pub(crate) use libraries::{
    CLOCK_GATE, CLOCK_GATE_WITHOUT_KEEP, FLIP_FLOP, REGISTER, REGISTER_WITH_WIDE_OUTPUT, TIE,
};
pub(crate) use texts::entity_text;
pub(crate) use three_cells::{
    CORE_ENTITY, DRIVER_ENTITY, FIRST_ENTITY, FIRST_MODULE, NO_MODULE, SECOND_MODULES,
    THIRD_MODULE, THREE_CELLS, THREE_ENTITIES, THREE_LINES, THREE_MODULES,
};
pub(crate) use timed_flip_flops::{
    GUARDED_FLIP_FLOP, PLAIN_FLIP_FLOP_ENTITY, PLAIN_FLIP_FLOP_MODULE, TIMED_FLIP_FLOP,
    TIMED_FLIP_FLOP_ENTITY, TIMED_FLIP_FLOP_MODULE,
};
pub(crate) use translate_cmd::{Status, run, run_gated, run_sure};
