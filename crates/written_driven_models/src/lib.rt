//! Laws of the texts of models and drivers that this project writes in Verilog and in VHDL: each driver reads back as the driver
//! it was written of, the sections of a text are the drivers, the models stand around them, and both read back. The models and
//! the drivers that are generated for the cells of one library, some of whose outputs may float, are well formed together in both
//! languages, so that they read back from what is written of them. (IEEE 1364-2005, clauses 3, 7.4 and 12; IEEE 1076-1993, 10.3
//! and 13.3.1.)
#![tactic(auto)]

mod library_laws;
mod text_laws;

pub use library_laws::{
    distinct_cells_are_of_one_library, driven_entities_are_well_formed,
    driven_modules_are_well_formed, read_cells_are_numbered, read_cells_have_drivers,
    verilog_drivers_are_well_formed, vital_drivers_are_well_formed,
};
pub use text_laws::{
    driven_entities_read_back, driven_modules_read_back, drivers_apart_are_well_formed,
    entities_have_no_sections, modules_have_no_sections, verilog_drivers_keep_apart,
    verilog_drivers_read_back, vital_drivers_keep_apart, vital_drivers_read_back,
};
