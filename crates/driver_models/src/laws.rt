//! Laws of models of drivers, for the crates above. The functions do nothing.
ghost use Rattle.driver_models.specs.Laws.{CorePortsAreDecided};

/// The law that the test of the ports of a core holds exactly where they are those of a core.
#[tactic(auto, using(crate::proofs::CorePorts::core_ports_are_decided))]
pub fn core_ports_are_decided()
    ensures { CorePortsAreDecided }
{}
