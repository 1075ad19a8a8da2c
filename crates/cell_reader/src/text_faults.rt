//! Where the texts of a cell are wrong.
ghost use Rattle.std.specs.Prelude.{◌≡◌};
ghost use Rattle.cell_reader.specs.Told.{wrong_in, wrong_at};

use cell_attributes::state_readings::StateReading;
use cell_attributes::texts::Text;
use cell_machine::least::lesser;
use cell_refusals::Scan;

/// What is wrong with a text of a cell.
#[derive(Clone, Copy)]
pub(crate) enum WrongText {
    /// It is malformed.
    Malformed,
    /// It names nothing of the allowed kind.
    Unknown,
    /// It makes one state hang on another one.
    Coupled,
}

/// The least of the offsets at which a state group and its texts are wrong in one way, which the field and the method of
/// this name tell.
macro_rules! least_of {
    ($reading:expr, $wrong:ident) => {{
        let later = lesser($reading.clear.$wrong(), $reading.preset.$wrong());
        let texts = lesser(
            $reading.data_text.$wrong(),
            lesser($reading.control.$wrong(), later),
        );
        lesser($reading.$wrong, texts)
    }};
}

impl Scan<StateReading> for WrongText {
    ghost places = { wrong_in };

    #[tactic(auto, unfolding(cell_attributes::specs::TextFaults::malformed_in, cell_attributes::specs::TextFaults::unknown_in, cell_attributes::specs::TextFaults::coupled_in), using(cell_machine::proofs::LeastLemmas::least_append, cell_machine::proofs::LeastLemmas::least_option))]
    fn least_in(&self, reading: &StateReading) -> Option<usize> {
        match self {
            WrongText::Malformed => least_of!(reading, malformed),
            WrongText::Unknown => least_of!(reading, unknown),
            WrongText::Coupled => least_of!(reading, coupled),
        }
    }
}

impl Scan<Text> for WrongText {
    ghost places = { wrong_at };

    fn least_in(&self, text: &Text) -> Option<usize> {
        match self {
            WrongText::Malformed => text.malformed(),
            WrongText::Unknown => text.unknown(),
            WrongText::Coupled => text.coupled(),
        }
    }
}
