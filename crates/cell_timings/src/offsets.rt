//! Where the timing of the pins of a cell is wrong.
ghost use Rattle.std.specs.Prelude.{◌≡◌};
ghost use Rattle.cell_timings.specs.CellTimings.{lesser_offsets, offsets_in};

use cell_machine::least::lesser;
use timing_arcs::{PinTiming, TimingFault};

/// The least offset at which the timing of some pins is wrong, for each way in which it may be.
#[derive(Drop)]
pub struct LeastOffsets {
    /// Where the text of a condition is malformed.
    pub malformed: Option<usize>,
    /// Where a name is wrong.
    pub names: NameOffsets,
    /// Where a time is none.
    pub number: Option<usize>,
    /// Where a condition has more than 10 names.
    pub wide: Option<usize>,
}

impl LeastOffsets {
    /// Takes in what reading the timing of a pin answers.
    #[tactic(auto, using(cell_machine::proofs::LeastLemmas::lesser_none, crate::proofs::Told::least_told))]
    pub(crate) fn add(&mut self, answer: &Result<PinTiming, TimingFault>)
        ensures { self.new ≡ lesser_offsets self.old (offsets_in answer.now) }
    {
        match answer {
            Ok(timing) => self.wide = lesser(self.wide, timing.wide),
            Err(TimingFault::Malformed(at)) => self.malformed = lesser(self.malformed, Some(*at)),
            Err(TimingFault::UnknownName(at)) => {
                self.names.unknown = lesser(self.names.unknown, Some(*at));
            }
            Err(TimingFault::OwnCondition(at)) => {
                self.names.own = lesser(self.names.own, Some(*at));
            }
            Err(TimingFault::Number(at)) => self.number = lesser(self.number, Some(*at)),
        }
    }
}

/// The least offset at which the timing of some pins names what it may not.
#[derive(Drop)]
pub struct NameOffsets {
    /// Where a related pin or a condition names what is not there.
    pub unknown: Option<usize>,
    /// Where a condition names its own pin.
    pub own: Option<usize>,
}
