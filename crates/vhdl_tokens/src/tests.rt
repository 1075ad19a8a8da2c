//! Texts from outside: corner cases of the tokens of VHDL's subset.

use crate::scan;
use std::test::Fail;

/// A text, its tokens with a blank behind each, and the offset of its lexical fault.
type Case = (&'static [u8], &'static [u8], Option<usize>);

/// Whether the tokens of a text and its lexical fault are these.
fn has_tokens(rt: &HostRuntime, (text, spelled, fault): Case) -> Result<bool, Fail> {
    let found = scan(rt.alloc(), text)?;
    let mut joined = Vec::new(rt.alloc());
    for token in &found.tokens {
        let span = token.span();
        if let Some(bytes) = text.get(span.at..span.end) {
            joined.extend_from_slice(bytes)?;
        }
        joined.push(b' ')?;
    }
    Ok(joined.as_slice() == spelled && found.fault == fault)
}

/// Whether the tokens of each text and its lexical fault are as told.
fn all_have_tokens(rt: &HostRuntime, cases: &[Case]) -> Result<bool, Fail> {
    for case in cases {
        if !has_tokens(rt, *case)? {
            return Ok(false);
        }
    }
    Ok(true)
}

#[test]
fn ticks_and_literals(rt: HostRuntime) -> Result<(), Fail> {
    let cases: [Case; 6] = [
        (b"(CK'last_event,'X')", b"( CK ' last_event , 'X' ) ", None),
        (b"CK -- c'x'\n 'last_event", b"CK ' last_event ", None),
        (b"others=>'''", b"others => ''' ", None),
        (b"T(1)'x'", b"T ( 1 ) 'x' ", None),
        (b"x := 'last_event", b"x := ", Some(5)),
        (b"true'last_event", b"true ", Some(4)),
    ];
    assert!(rt; all_have_tokens(&rt, &cases)?);
    Ok(())
}

#[test]
fn the_longest_token(rt: HostRuntime) -> Result<(), Fail> {
    let cases: [Case; 3] = [
        (
            b"50ps:=x_1<=a/=b=>c=:",
            b"50 ps := x_1 <= a /= b => c = : ",
            None,
        ),
        (b"\"Q\"\"R\" \"--\"", b"\"Q\" \"R\" \"--\" ", None),
        (
            b"IEEE.VITAL_Timing.all;",
            b"IEEE . VITAL_Timing . all ; ",
            None,
        ),
    ];
    assert!(rt; all_have_tokens(&rt, &cases)?);
    Ok(())
}

#[test]
fn lexical_faults(rt: HostRuntime) -> Result<(), Fail> {
    let cases: [Case; 7] = [
        (b"a - b", b"a ", Some(2)),
        (b"= 0000000000000001", b"= ", Some(2)),
        (b"x\"y\n\"", b"x ", Some(1)),
        (b"end\r\n", b"end ", Some(3)),
        (b"_a", b"", Some(0)),
        (b"('\t')", b"( ", Some(1)),
        (b"-- open", b"", None),
    ];
    assert!(rt; all_have_tokens(&rt, &cases)?);
    Ok(())
}
