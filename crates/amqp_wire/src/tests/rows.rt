//! `ROWS`: what each `Program` writes for its input, and how many bytes stay in the reader. The
//! crate's `stdin` and `stdout` have lines of each kind.

use super::*;
use std::test::Fail;

/// Void, a long string, and the length of one that is longer than the limit.
pub(super) const BYTES: &[u8] = &[86, 83, 0, 0, 0, 4, 116, 101, 115, 116, 83, 0, 0, 0, 5];

pub(super) const LINES: &str = "value 56\nvalue 530000000474657374\nrefused TooLarge\n";

/// Lines of each kind.
const MIXED: &[u8] = b"\n7a\n41000000027300\n560a\n550005\n5\nxy\n41ffffffff\n4100000003740756";

/// What is run, what is read, what is written and how many bytes stay in the reader.
const ROWS: &[(Program, &[u8], &str, usize)] = &[
    (Lines, b"7400\r\n", "value 7400 rest 0\n", 0),
    // lines result in lines, in order
    (
        Lines,
        b"56\n\n7a\r\n56",
        "value 56 rest 0\nmore 1\nrefused MapOpt\nvalue 56 rest 0\n",
        0,
    ),
    (Lines, b"", "", 0),
    // bytes are read over a cut
    (
        Split(0),
        b"4100000003740756",
        "value 4100000003740156 rest 0\n",
        0,
    ),
    (
        Split(3),
        b"4100000003740756",
        "value 4100000003740156 rest 0\n",
        0,
    ),
    (
        Split(8),
        b"4100000003740756",
        "value 4100000003740156 rest 0\n",
        0,
    ),
    (
        Split(99),
        b"4100000003740756",
        "value 4100000003740156 rest 0\n",
        0,
    ),
    // values are read within limits
    (
        Within(10, 1),
        b"41000000054100000000\n41\n",
        "refused Eof\nmore 4\n",
        0,
    ),
    (
        Within(9, 2),
        b"41000000054100000000\n",
        "refused TooLarge\n",
        0,
    ),
    (
        Within(10, 2),
        b"41000000054100000000\n",
        "value 41000000054100000000 rest 0\n",
        0,
    ),
    (
        Within(20, 3),
        b"460000000f016141000000054100000000016156\n",
        "value 4600000003016156 rest 0\n",
        0,
    ),
    (
        Within(20, 2),
        b"460000000f016141000000054100000000016156\n",
        "refused Eof\n",
        0,
    ),
    (
        Within(1, 0),
        b"560a\r\n7a",
        "value 56 rest 1\nrefused MapOpt\n",
        0,
    ),
    (Within(5, 0), b"4100000000", "refused Eof\n", 0),
    (Within(5, 1), b"4100000000", "value 4100000000 rest 0\n", 0),
    (Within(4, 1), b"41", "refused TooLarge\n", 0),
    (
        Within(0, 0),
        b"\n56\n7a\n",
        "more 1\nrefused TooLarge\nrefused MapOpt\n",
        0,
    ),
    (Within(9, 2), b"", "", 0),
    // if no limit is passed the lines are those without limits
    (
        Within(4294967295, 1),
        MIXED,
        "more 1\nrefused MapOpt\nrefused Eof\nvalue 56 rest 1\nvalue 730005 rest 0\nnot hex\nnot hex\nrefused TooLarge\nvalue 4100000003740156 rest 0\n",
        0,
    ),
    // a stream's values are written, and no more than that many
    (Stream(9, 2, 9), BYTES, LINES, 0),
    (Stream(9, 2, 3), BYTES, LINES, 0),
    (
        Stream(9, 2, 2),
        BYTES,
        "value 56\nvalue 530000000474657374\n",
        5,
    ),
    (Stream(9, 2, 1), BYTES, "value 56\n", 14),
    (Stream(9, 2, 0), BYTES, "", 15),
    // the last line reports why there are no more
    (Stream(9, 2, 9), &[], "end\n", 0),
    (Stream(9, 2, 9), &[86], "value 56\nend\n", 0),
    (Stream(9, 2, 9), &[65, 0], "truncated\n", 0),
    (Stream(9, 2, 9), &[86, 65, 0], "value 56\ntruncated\n", 0),
    (Stream(9, 2, 9), &[122, 86], "refused MapOpt\n", 1),
    (
        Stream(9, 2, 9),
        &[65, 0, 0, 0, 1, 122, 86],
        "refused Eof\n",
        1,
    ),
    (
        Stream(9, 2, 9),
        &[65, 0, 0, 0, 5, 65, 0, 0, 0, 0],
        "refused TooLarge\n",
        5,
    ),
    (
        Stream(9, 2, 9),
        &[116, 7, 85, 0, 5, 65, 0, 0, 0, 3, 116, 7, 86],
        "value 7401\nvalue 730005\nvalue 4100000003740156\nend\n",
        0,
    ),
    // containers nest no deeper than the limit
    (
        Stream(10, 0, 1),
        &[65, 0, 0, 0, 5, 65, 0, 0, 0, 0],
        "refused Eof\n",
        0,
    ),
    (
        Stream(10, 1, 1),
        &[65, 0, 0, 0, 5, 65, 0, 0, 0, 0],
        "refused Eof\n",
        0,
    ),
    (
        Stream(10, 2, 1),
        &[65, 0, 0, 0, 5, 65, 0, 0, 0, 0],
        "value 41000000054100000000\n",
        0,
    ),
];

// What is written for the input, and what stays in the reader.
fn prints(
    rt: &impl Abort,
    alloc: Global,
    program: Program,
    input: &[u8],
    written: &[u8],
    left: usize,
) {
    let mut reader = input;
    let mut out = Vec::new(alloc);
    let outcome = run_program(rt, alloc, program, &mut reader, &mut out);
    assert_eq!(rt; outcome, Ok(()), "for {input:?}");
    assert_eq!(rt; out.as_slice(), written, "for {input:?}");
    assert_eq!(rt; reader.len(), left, "for {input:?}");
}

#[test]
fn what_is_read_has_its_result(rt: HostRuntime) {
    for (program, input, written, left) in ROWS {
        prints(&rt, rt.alloc(), *program, input, written.as_bytes(), *left);
    }
}

#[test]
fn a_long_stream_has_a_line_for_each_value(rt: HostRuntime) -> Result<(), Fail> {
    let bytes = vec![in rt.alloc(); 86u8; 1002]?;
    let mut lines = Vec::new(rt.alloc());
    for _ in 0..1001 {
        lines.extend_from_slice(b"value 56\n")?;
    }
    prints(
        &rt,
        rt.alloc(),
        Stream(9, 2, 1001),
        &bytes,
        lines.as_slice(),
        1,
    );
    Ok(())
}

/// A table with an entry of nearly every type, keys in order.
const TABLE: &str = "46000000c2\
    0461616161622a\
    036261724600000000\
    04626262624240\
    04626c61687400\
    0463636363730020\
    0464646464750084\
    046565656549ffffffcb\
    0466666666690001046a\
    03666f6f4100000003740156\
    04676767676cffffffffffffd8f1\
    046868686878000000042a010203\
    0469696969664229ae14\
    046a6a6a6a64404535c28f5c28f6\
    046b6b6b6b5400000000499602d2\
    046c6c6c6c56\
    036f6f664100000000\
    047461626c4600000019\
    0362617a5300000006626c61683432\
    03666f6f4437000003e7";

#[test]
fn a_table_is_read_over_each_cut(rt: HostRuntime) -> Result<(), Fail> {
    let want = format!(in rt.alloc(); "value {TABLE} rest 0\n")?;
    for at in 0..200 {
        prints(
            &rt,
            rt.alloc(),
            Split(at),
            TABLE.as_bytes(),
            want.as_bytes(),
            0,
        );
    }
    Ok(())
}

/// Of each proper prefix of the table its type tag, its length or its body isn't complete.
#[test]
fn each_prefix_of_a_table_needs_more(rt: HostRuntime) -> Result<(), Fail> {
    let alloc = rt.alloc();
    let digits = TABLE.as_bytes();
    let (mut lines, mut want) = (Vec::new(alloc), String::new(alloc));
    for n in 0..digits.len() / 2 {
        let needed = match n {
            0 => 1,
            1..5 => 5_usize.saturating_sub(n),
            _ => 199_usize.saturating_sub(n),
        };
        let end = n.saturating_mul(2).min(digits.len());
        lines.extend_from_slice(digits.split_at(end).0)?;
        lines.push(b'\n')?;
        want.push_str(format!(in alloc; "more {needed}\n")?.as_str())?;
    }
    prints(&rt, alloc, Lines, lines.as_slice(), want.as_bytes(), 0);
    Ok(())
}
