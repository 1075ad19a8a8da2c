//! Laws of written texts, for the proofs of other crates. The functions do nothing.

ghost use Rattle.written_driven_models.specs.Laws.{WrittenDriversReadBack};
ghost use Rattle.written_driven_models.specs.Laws.{WrittenDriversKeepApart, WrittenModelsHaveNoSections, WrittenModelsReadBack};
ghost use Rattle.written_driven_models.specs.ApartDrivers.{DriversApartAreWellFormed};
ghost use Rattle.written_driven_models.specs.Verilog.{written_verilog, well_formed_verilog};
ghost use Rattle.written_driven_models.specs.Vital.{written_vital, well_formed_vital};

/// A law: the Verilog text that is written of a well formed driver, and also without its last line end, is a section of this
/// driver, and of no other. (IEEE 1364-2005, 7.4, 12.1 and 19.1.)
pub fn verilog_drivers_read_back()
    ensures { WrittenDriversReadBack written_verilog well_formed_verilog }
{}

/// The same law of VHDL text. (IEEE 1076-1993, 1.1, 1.2 and 9.6; IEEE 1076.4-2000, `VitalBUFIF1`.)
pub fn vital_drivers_read_back()
    ensures { WrittenDriversReadBack written_vital well_formed_vital }
{}

/// A law: the sections of the text that is written of well formed modules and drivers are the texts of the drivers, each without
/// its last line end, and the text around them is that of the modules, and of no others. (IEEE 1364-2005, A.1 and 19.1.)
pub fn verilog_drivers_keep_apart()
    ensures { WrittenDriversKeepApart written_verilog well_formed_verilog }
{}

/// The same law of entities and drivers. (IEEE 1076-1993, 1.1, 1.2 and 10.4.)
pub fn vital_drivers_keep_apart()
    ensures { WrittenDriversKeepApart written_vital well_formed_vital }
{}

/// A law: the text that is written of well formed modules alone has no section. (IEEE 1364-2005, A.1 and 19.1.)
pub fn modules_have_no_sections()
    ensures { WrittenModelsHaveNoSections written_verilog well_formed_verilog }
{}

/// The same law of entities. (IEEE 1076-1993, 1.1, 1.2 and 10.4.)
pub fn entities_have_no_sections()
    ensures { WrittenModelsHaveNoSections written_vital well_formed_vital }
{}

/// A law: the text that is written of well formed modules and drivers reads as these modules and these drivers. (IEEE 1364-2005,
/// A.1, 12.1 and 19.1.)
pub fn driven_modules_read_back()
    ensures { WrittenModelsReadBack written_verilog well_formed_verilog }
{}

/// The same law of entities and drivers. (IEEE 1076-1993, 1.1, 1.2 and 10.4; IEEE 1076.4-2000.)
pub fn driven_entities_read_back()
    ensures { WrittenModelsReadBack written_vital well_formed_vital }
{}

/// A law: drivers over well formed entities can be declared one behind the other, where no two of the entities and the drivers
/// share a name, whatever the case of its letters. (IEEE 1076-1993, 10.3 and 13.3.1.)
pub fn drivers_apart_are_well_formed()
    ensures { DriversApartAreWellFormed }
{}
