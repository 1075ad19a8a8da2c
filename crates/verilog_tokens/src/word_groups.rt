//! The words of Verilog, by their first letters. (IEEE 1364-2005, annex B.)

ghost use Rattle.std.specs.Prelude.{◌≡◌, ◌∷◌, List, ℕ};
ghost use Rattle.std.specs.List.{list_any};
ghost use Rattle.std.specs.Str.{bytes_eq};
ghost use Rattle.verilog_tokens.specs.Words.{is_verilog_word};

use lexer::group_of;

/// The words of Verilog by their first letters: those with `a` first, then those with `b`, and so on.
static GROUPS: [&[&[u8]]; 26] = [
    &[b"always", b"and", b"assign", b"automatic"],
    &[b"begin", b"buf", b"bufif0", b"bufif1"],
    &[b"case", b"casex", b"casez", b"cell", b"cmos", b"config"],
    &[b"deassign", b"default", b"defparam", b"design", b"disable"],
    &[
        b"edge",
        b"else",
        b"end",
        b"endcase",
        b"endconfig",
        b"endfunction",
        b"endgenerate",
        b"endmodule",
        b"endprimitive",
        b"endspecify",
        b"endtable",
        b"endtask",
        b"event",
    ],
    &[b"for", b"force", b"forever", b"fork", b"function"],
    &[b"generate", b"genvar"],
    &[b"highz0", b"highz1"],
    &[
        b"if",
        b"ifnone",
        b"incdir",
        b"include",
        b"initial",
        b"inout",
        b"input",
        b"instance",
        b"integer",
    ],
    &[b"join"],
    &[],
    &[b"large", b"liblist", b"library", b"localparam"],
    &[b"macromodule", b"medium", b"module"],
    &[
        b"nand",
        b"negedge",
        b"nmos",
        b"nor",
        b"noshowcancelled",
        b"not",
        b"notif0",
        b"notif1",
    ],
    &[b"or", b"output"],
    &[
        b"parameter",
        b"pmos",
        b"posedge",
        b"primitive",
        b"pull0",
        b"pull1",
        b"pulldown",
        b"pullup",
        b"pulsestyle_ondetect",
        b"pulsestyle_onevent",
    ],
    &[],
    &[
        b"rcmos",
        b"real",
        b"realtime",
        b"reg",
        b"release",
        b"repeat",
        b"rnmos",
        b"rpmos",
        b"rtran",
        b"rtranif0",
        b"rtranif1",
    ],
    &[
        b"scalared",
        b"showcancelled",
        b"signed",
        b"small",
        b"specify",
        b"specparam",
        b"strong0",
        b"strong1",
        b"supply0",
        b"supply1",
    ],
    &[
        b"table", b"task", b"time", b"tran", b"tranif0", b"tranif1", b"tri", b"tri0", b"tri1",
        b"triand", b"trior", b"trireg",
    ],
    &[b"unsigned", b"use", b"uwire"],
    &[b"vectored"],
    &[
        b"wait", b"wand", b"weak0", b"weak1", b"while", b"wire", b"wor",
    ],
    &[b"xnor", b"xor"],
    &[],
    &[],
];

/// Words of Verilog among which each stands that begins with this byte.
#[tactic(auto, unfolding(crate::specs::Words::is_verilog_word, crate::specs::Words::verilog_words))]
pub fn words_from(first: u8) -> &'static [&'static [u8]]
    ensures { (rest : List ℕ) → list_any (λ word. bytes_eq (first ∷ rest) word.now) result.now ≡ is_verilog_word (first ∷ rest) }
{
    group_of(&GROUPS, first)
}
