//! Runs of words that name no file, or that have no reading.
use crate::tests::runs::{Status, Whole, ran_without_files};
use std::alloc::Global;
use table_tests::Row;

/// Words, and what they come to.
#[derive(Drop)]
pub(crate) struct WordsRun<'a> {
    pub words: &'a [&'a str],
    pub whole: Whole,
}

impl Row for WordsRun<'_> {
    fn holds(&self, alloc: Global) -> bool {
        match &ran_without_files(alloc, self.words) {
            Ok(left) => self.whole.is_left(left),
            Err(_) => false,
        }
    }
}

/// Words that are done with a report.
macro_rules! prints {
    ([$($word:expr),*], $report:expr) => {
        WordsRun {
            words: &[$($word),*],
            whole: done!($report),
        }
    };
}

pub(crate) use prints;

/// What words without a reading come to.
pub(crate) const USAGE: Whole = Whole {
    status: Status::Usage,
    verilog: &[],
    vital: &[],
    report: "",
    faults: "lib2sim: usage\n",
};

/// Words without a reading.
macro_rules! unread {
    ($($word:expr),*) => {
        WordsRun {
            words: &[$($word),*],
            whole: USAGE,
        }
    };
}

pub(crate) use unread;
