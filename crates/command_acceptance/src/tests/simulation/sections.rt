//! Sections on which a cell, its module and its entity show the same.
use super::libraries::{
    BUFFER_WITH_ENABLE, CLEARED, CLEARED_AND_CHECKED, CLEARED_AND_PRESET,
    CLEARED_AND_PRESET_AND_TIMED, CLEARED_LATCH, CLEARED_SCAN_FLIP_FLOP, INVERTER, LATCH, PERIODIC,
    PERIODIC_CLOCK_GATE, TIMED_SCAN_FLIP_FLOP, TOGGLE, TWO_FLIP_FLOPS,
};
use crate::tests::runs::{
    CLOCK_GATE, CLOCK_GATE_WITHOUT_KEEP, FLIP_FLOP, GUARDED_FLIP_FLOP, REGISTER, TIE,
    TIMED_FLIP_FLOP,
};

/// A section: the cell, the lines of the stimulus, and what each of the three shows at the start and behind each of them.
#[derive(Drop)]
pub(crate) struct Section<'a> {
    pub library: &'a str,
    pub cell: &'a str,
    pub start: &'a str,
    pub lines: &'a [(&'a str, &'a str)],
}

/// A section of a clock gate, which takes its enable while its clock is low: the lines behind this.
macro_rules! gated {
    ($library:expr; $($line:expr),*) => {
        Section {
            library: $library,
            cell: "GATE",
            start: "GCK=x",
            lines: &[
                ("10 CK 0", "GCK=0@0"),
                ("20 SE 0", "GCK=0"),
                ("30 E 1", "GCK=0"),
                $($line),*
            ],
        }
    };
}

/// The sections.
pub(crate) const SECTIONS: [Section<'static>; 23] = [
    Section {
        library: TIE,
        cell: "TIE",
        start: "Y=1",
        lines: &[],
    },
    Section {
        library: INVERTER,
        cell: "MUX2",
        start: "Y=x",
        lines: &[("10 A 1", "Y=x"), ("20 B 1", "Y=1@0")],
    },
    Section {
        library: INVERTER,
        cell: "TB",
        start: "Y=x",
        lines: &[("5 A 0", "Y=0@0"), ("6 A 1", "Y=z@0"), ("7 A x", "Y=x@0")],
    },
    Section {
        library: BUFFER_WITH_ENABLE,
        cell: "TBUF",
        start: "Y=x",
        lines: &[
            ("10 A 1", "Y=x"),
            ("20 OE 1", "Y=1@11"),
            ("30 A 0", "Y=0@7"),
            ("40 OE 0", "Y=z@11"),
            ("50 OE 1", "Y=0@13"),
        ],
    },
    Section {
        library: REGISTER,
        cell: "REG2",
        start: "Q_1=x Q_0=x",
        lines: &[
            ("10 D_1 1", "Q_1=x Q_0=x"),
            ("20 D_0 0", "Q_1=x Q_0=x"),
            ("30 CK 0", "Q_1=x Q_0=x"),
            ("40 CK 1", "Q_1=1@0 Q_0=0@0"),
        ],
    },
    Section {
        library: FLIP_FLOP,
        cell: "DFF",
        start: "Q=x",
        lines: &[
            ("10 D 1", "Q=x"),
            ("20 CK 0", "Q=x"),
            ("30 CK 1", "Q=1@0"),
            ("40 CK 0", "Q=1"),
            ("50 CK x", "Q=1"),
            ("60 CK 0", "Q=1"),
            ("70 D 0", "Q=1"),
            ("80 CK x", "Q=x@0"),
        ],
    },
    Section {
        library: CLEARED,
        cell: "DFF",
        start: "Q=x",
        lines: &[
            ("10 C 1", "Q=0@0"),
            ("20 C 0", "Q=0"),
            ("30 C x", "Q=0"),
            ("40 C 0", "Q=0"),
            ("50 D 1", "Q=0"),
            ("60 CK 0", "Q=0"),
            ("70 CK 1", "Q=1@0"),
            ("80 C x", "Q=x@0"),
        ],
    },
    Section {
        library: CLEARED_AND_PRESET,
        cell: "DFF",
        start: "Q=x QN=x",
        lines: &[
            ("10 C 1", "Q=0@0 QN=x"),
            ("20 P 1", "Q=0 QN=0@0"),
            ("30 C 0", "Q=1@0 QN=0"),
        ],
    },
    Section {
        library: LATCH,
        cell: "LAT",
        start: "Q=x",
        lines: &[
            ("10 D 1", "Q=x"),
            ("200 EN 0", "Q=x"),
            ("400 EN 1", "Q=1@0"),
            ("450 EN 0", "Q=x@0 !1"),
        ],
    },
    Section {
        library: CLEARED_AND_CHECKED,
        cell: "DFF",
        start: "Q=x",
        lines: &[
            ("10 C 1", "Q=0@0"),
            ("20 CK 0", "Q=0"),
            ("100 D 1", "Q=0"),
            ("120 CK 1", "Q=0 !1"),
        ],
    },
    Section {
        library: TWO_FLIP_FLOPS,
        cell: "PAIR",
        start: "Q1=x Q2=x",
        lines: &[
            ("10 D1 1", "Q1=x Q2=x"),
            ("20 C1 0", "Q1=x Q2=x"),
            ("30 C1 1", "Q1=1@0 Q2=x"),
            ("40 D2 1", "Q1=1 Q2=x"),
            ("50 C2 0", "Q1=1 Q2=x"),
            ("200 C2 1", "Q1=1 Q2=1@0"),
            ("210 D1 0", "Q1=1 Q2=1"),
            ("220 C2 0", "Q1=1 Q2=1"),
            ("300 D2 0", "Q1=1 Q2=1"),
            ("320 C2 1", "Q1=x@0 Q2=x@0 !1"),
        ],
    },
    Section {
        library: GUARDED_FLIP_FLOP,
        cell: "DFFT",
        start: "Q=x",
        lines: &[
            ("10 CK 0", "Q=x"),
            ("100 D 1", "Q=x"),
            ("149 CK 1", "Q=1@100"),
        ],
    },
    gated!(
        CLOCK_GATE;
        ("40 CK 1", "GCK=1@0"),
        ("50 E 0", "GCK=1"),
        ("60 CK 0", "GCK=0@0"),
        ("70 CK 1", "GCK=0")
    ),
    gated!(
        CLOCK_GATE_WITHOUT_KEEP;
        ("40 CK 1", "GCK=x@0")
    ),
    Section {
        library: TOGGLE,
        cell: "TOGGLE",
        start: "Q=x",
        lines: &[
            ("10 RS 1", "Q=0@0"),
            ("20 CK 0", "Q=0"),
            ("30 RS 0", "Q=0"),
            ("40 CK 1", "Q=1@0"),
            ("50 CK 0", "Q=1"),
            ("60 CK 1", "Q=0@0"),
        ],
    },
    Section {
        library: PERIODIC,
        cell: "DFF",
        start: "Q=x",
        lines: &[
            ("5 D 1", "Q=x"),
            ("10 CK 0", "Q=x"),
            ("20 CK 1", "Q=1@0"),
            ("60 CK 0", "Q=x@0 !1"),
            ("130 CK 1", "Q=1@0"),
            ("150 CK 0", "Q=x@0 !1"),
            ("230 CK 1", "Q=1@0"),
        ],
    },
    Section {
        library: CLEARED,
        cell: "DFF",
        start: "Q=x",
        lines: &[
            ("10 CK 1", "Q=x"),
            ("20 C 1", "Q=0@0"),
            ("30 C 0", "Q=0"),
            ("40 C x", "Q=0"),
            ("50 C 0", "Q=0"),
            ("60 D 1", "Q=0"),
            ("70 CK 0", "Q=0"),
            ("80 CK 1", "Q=1@0"),
            ("90 C x", "Q=x@0"),
        ],
    },
    Section {
        library: TIMED_FLIP_FLOP,
        cell: "DFFT",
        start: "Q=x",
        lines: &[
            ("10 D 1", "Q=x"),
            ("20 CK 0", "Q=x"),
            ("100 CK 1", "Q=1@100"),
            ("110 D 0", "Q=1"),
            ("130 CK 0", "Q=1"),
            ("150 CK 1", "Q=x@120 !1"),
        ],
    },
    Section {
        library: CLEARED_AND_PRESET_AND_TIMED,
        cell: "DFFCP",
        start: "Q=x QN=x",
        lines: &[
            ("10 C 1", "Q=0@0 QN=x"),
            ("20 P 1", "Q=0 QN=0@0"),
            ("30 C 0", "Q=1@0 QN=0"),
            ("40 P 0", "Q=1 QN=0"),
            ("50 CK 0", "Q=1 QN=0"),
            ("60 SE 0", "Q=1 QN=0"),
            ("100 D 0", "Q=1 QN=0"),
            ("150 CK 1", "Q=0@120 QN=1@0"),
            ("200 CK 0", "Q=0 QN=1"),
            ("210 D 1", "Q=0 QN=1"),
            ("259 CK 1", "Q=x@100 QN=x@0 !1"),
        ],
    },
    Section {
        library: CLEARED_SCAN_FLIP_FLOP,
        cell: "SDFFR",
        start: "Q=x",
        lines: &[
            ("10 RN 1", "Q=x"),
            ("20 D 1", "Q=x"),
            ("30 SI 1", "Q=x"),
            ("40 CK 0", "Q=x"),
            ("50 CK 1", "Q=1@0"),
            ("60 RN 0", "Q=0@0"),
        ],
    },
    Section {
        library: CLEARED_LATCH,
        cell: "LATCHC",
        start: "Q=x",
        lines: &[
            ("10 C 1", "Q=0@0"),
            ("20 D 1", "Q=0"),
            ("30 EN 0", "Q=0"),
            ("40 C 0", "Q=0"),
            ("200 EN 1", "Q=1@0"),
            ("210 D 0", "Q=0@8"),
            ("220 D x", "Q=x@7"),
            ("230 D 1", "Q=1@7"),
            ("299 EN 0", "Q=x@0 !1"),
            ("310 C x", "Q=x"),
            ("320 C 1", "Q=0@0"),
            ("400 EN x", "Q=0"),
            ("450 EN 0", "Q=0 !1"),
        ],
    },
    Section {
        library: TIMED_SCAN_FLIP_FLOP,
        cell: "SDFF",
        start: "Q=x",
        lines: &[
            ("10 CK 0", "Q=x"),
            ("20 SE 0", "Q=x"),
            ("30 SI 0", "Q=x"),
            ("100 D 1", "Q=x"),
            ("150 CK 1", "Q=1@120"),
            ("179 D 0", "Q=x@0 !2"),
            ("200 CK 0", "Q=x"),
            ("300 CK 1", "Q=0@80"),
            ("400 CK 0", "Q=0"),
            ("410 SI 1", "Q=0"),
            ("420 SE 1", "Q=0"),
            ("421 D x", "Q=0"),
            ("430 CK 1", "Q=1@110"),
            ("500 CK 0", "Q=1"),
            ("510 SE 0", "Q=1"),
            ("520 D 0", "Q=1"),
            ("569 CK 1", "Q=x@95 !1"),
            ("600 CK 0", "Q=x"),
            ("610 SE x", "Q=x"),
            ("700 CK 1", "Q=x"),
            ("710 D 1", "Q=x"),
            ("800 CK 0", "Q=x"),
            ("900 CK 1", "Q=1@100"),
            ("950 CK x", "Q=1"),
            ("960 CK 1", "Q=1"),
        ],
    },
    gated!(
        PERIODIC_CLOCK_GATE;
        ("40 CK 1", "GCK=1@0"),
        ("50 E 0", "GCK=1"),
        ("110 CK 0", "GCK=0@0"),
        ("120 E x", "GCK=0"),
        ("139 CK 1", "GCK=x@0 !1"),
        ("150 E 0", "GCK=x"),
        ("240 CK 0", "GCK=0@0"),
        ("250 CK 1", "GCK=0")
    ),
];
