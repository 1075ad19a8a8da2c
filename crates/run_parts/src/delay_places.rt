//! The places where delays of paths are kept. Each delay says of what it is, so a place that is another one costs only time.
use sqlite_items::at;

/// The places for the delays of the paths to an output: as many as inputs where so many paths lead to it, else as many as paths.
#[derive(Clone, Copy)]
pub struct DelayPlaces {
    /// The first of them.
    pub first: usize,
    /// How many there are.
    pub count: usize,
}

impl DelayPlaces {
    /// No places, before those of the first output.
    pub fn none() -> DelayPlaces {
        DelayPlaces { first: 0, count: 0 }
    }

    /// The places behind these, for an output to which so many paths lead in a model of so many inputs.
    pub fn behind(self, inputs: usize, paths: usize) -> DelayPlaces {
        DelayPlaces {
            first: self.first.saturating_add(self.count),
            count: paths.min(inputs),
        }
    }

    /// The place for an input.
    fn place(self, input: usize) -> usize {
        if input < self.count {
            self.first.saturating_add(input)
        } else if 0 < self.count {
            self.first.saturating_add(input % self.count)
        } else {
            self.first
        }
    }
}

/// How many places there are.
pub fn place_count(rows: &[DelayPlaces]) -> usize {
    match rows.last() {
        Some(last) => last.first.saturating_add(last.count),
        None => 0,
    }
}

/// The place for the delays of the paths from an input to the output with this number.
pub fn delay_place(rows: &[DelayPlaces], output: usize, input: usize) -> usize {
    match at(rows, output) {
        Some(places) => places.place(input),
        None => 0,
    }
}
