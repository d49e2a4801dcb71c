// Inputs of which it is known what a run over them returns and writes. In the texts control
// pictures stand for control characters, as `␊` for a line feed. A loop over the lines of a text is
// proved in far less time than an array of as many rows.
use crate::tests::{ALL, OF_DOCUMENTS, Tested, run_over};
use jtape::{Mode, status};
use std::alloc::{AllocError, Global};
use std::process::Abort;

// A line for each input that is printed: mode and depth limit, the input, and what is written.
const PRINTED: &str = r#"tape 1024 @ [1,[2,3],4] @ Array 3 5␊U64 1␊Array 2 2␊U64 2␊U64 3␊U64 4␊
tape 1024 @  null  @ Null␊
tape 1024 @ -0 @ I64 0␊
tape 1024 @ [] @ Array 0 0␊
tape 1024 @ [true,false] @ Array 2 2␊Bool true␊Bool false␊
tape 1024 @ -9223372036854775808 @ I64 -9223372036854775808␊
tape 1024 @ -9223372036854775809 @ I128 -9223372036854775809␊
tape 1024 @ 18446744073709551615 @ U64 18446744073709551615␊
tape 1024 @ 18446744073709551616 @ U128 18446744073709551616␊
tape 1024 @ [-9223372036854775809,18446744073709551616] @ Array 2 2␊I128 -9223372036854775809␊U128 18446744073709551616␊
tape 1024 @ -170141183460469231731687303715884105728 @ I128 -170141183460469231731687303715884105728␊
tape 1024 @ ␉[ [ ] , null␍␊, [[1]] ]  @ Array 3 5␊Array 0 0␊Null␊Array 1 2␊Array 1 1␊U64 1␊
tape 1024 @ {"a":[true,1.5e3,"x\u0041"]} @ Object 1 5␊String "a"␊Array 3 3␊Bool true␊Decimal 1.5e3␊String "xA"␊
tape 1024 @ {"a\n":[true,null,-1,1.5]} @ Object 1 6␊String "a\n"␊Array 4 4␊Bool true␊Null␊I64 -1␊Decimal 1.5␊
tape 1024 @ {"":""} @ Object 1 2␊String ""␊String ""␊
tape 1024 @ {} @ Object 0 0␊
tape 1024 @ [1e309,-0.0] @ Array 2 2␊Decimal 1e309␊Decimal -0.0␊
tape 1024 @ [-0,0,1e309,1.50] @ Array 4 4␊I64 0␊U64 0␊Decimal 1e309␊Decimal 1.50␊
tape 1024 @ {"the_answer": 42} @ Object 1 2␊String "the_answer"␊U64 42␊
tape 1024 @ "\ud83d\ude00" @ String "😀"␊
tape 0 @ 7 @ U64 7␊
tape 7 @ 7 @ U64 7␊
tape 2 @ [[]] @ Array 1 1␊Array 0 0␊
positions 1024 @  { "k\u0009" : [ -0 , 1E5 , "\u00e9" ] , "" : {} }  @ 1␊3␊13␊15␊17␊20␊22␊26␊28␊37␊39␊41␊44␊46␊47␊49␊
positions 1024 @ {"the_answer": 42} @ 0␊1␊13␊15␊17␊
positions 1024 @ [                                                              ] @ 0␊63␊
compact 1024 @  { "k\u0009" : [ -0 , 1E5 , "\u00e9" ] , "" : {} }  @ {"k\t":[0,1E5,"é"],"":{}}␊
compact 1024 @ "\"\\\/\b\f\n\r\t\u0001␡" @ "\"\\/\b\f\n\r\t\u0001␡"␊
compact 1024 @ [{},[],true] @ [{},[],true]␊
compact 1024 @ [-0,0,1e309,1.50] @ [0,0,1e309,1.50]␊
pretty 1024 @  { "k\u0009" : [ -0 , 1E5 , "\u00e9" ] , "" : {} }  @ {␊  "k\t": [␊    0,␊    1E5,␊    "é"␊  ],␊  "": {}␊}␊
pretty 1024 @ [{},[],true] @ [␊  {},␊  [],␊  true␊]␊
pretty 1024 @ [] @ []␊
pretty 1024 @ {"a":[1],"b":{}} @ {␊  "a": [␊    1␊  ],␊  "b": {}␊}␊
lines 1024 @ 1 @ 1␊
lines 1024 @ 1␊ @ 1␊
lines 1024 @ 1␊␊␊[ ] @ 1␊[]␊
lines 1024 @ 1␍␊2␊ @ 1␊2␊
lines 1024 @ {"a":␍ 1}␍␊␍␊[␉2 ]␍␊ @ {"a":1}␊[2]␊
lines 2 @ [[]]␊[1]␊ @ [[]]␊[1]␊"#;

// The same for streams with lines that are rejected.
const PRINTED_WITH_ERRORS: &str =
    r#"lines 1024 @ {"a": 1}␊␊[1,]␊ 2  @ {"a":1}␊! InternalError at character 3 (']')␊2␊
lines 1024 @ [1,]␊[1,] @ ! InternalError at character 3 (']')␊! InternalError at character 3 (']')␊
lines 1024 @ ␊␊␊  [1,]␊ @ ! InternalError at character 5 (']')␊
lines 1024 @ [␊1 @ ! Syntax at character 0 ('[')␊1␊
lines 1024 @ "a␊b" @ ! Syntax at character 0␊! Syntax at character 0␊
lines 1024 @ 1␊1a␊01␊4 @ 1␊! InvalidNumber at character 1 ('a')␊! InvalidNumber at character 1 ('1')␊4␊
lines 1024 @ [ 340282366920938463463374607431768211455, -170141183460469231731687303715884105728 ]␊340282366920938463463374607431768211456␊-170141183460469231731687303715884105729␊ @ [340282366920938463463374607431768211455,-170141183460469231731687303715884105728]␊! InvalidNumber at character 38 ('6')␊! InvalidNumber at character 40 (' ')␊
lines 0 @ 7␊[]␊ @ 7␊! DepthLimitExceeded at character 0 ('[')␊
lines 1 @ [[]]␊[1]␊ @ ! DepthLimitExceeded at character 1 ('[')␊[1]␊
lines 1 @ [[]]␊[] @ ! DepthLimitExceeded at character 1 ('[')␊[]␊"#;

// A line for each input that every mode rejects: the depth limit, the input, and its error.
const REJECTED: &str = r#"0 @ [] @ DepthLimitExceeded at character 0 ('[')
1 @ [[]] @ DepthLimitExceeded at character 1 ('[')
1024 @ x "a @ Syntax at character 0
1024 @ [1 @ Syntax at character 1 ('1')
1024 @ [ @ Syntax at character 0 ('[')
1024 @ {"a" @ Syntax at character 1 ('"')
1024 @ [[] @ Syntax at character 2 (']')
1024 @ \"" @ Syntax at character 0
1024 @ \" @ InternalError at character 0 ('\')
1024 @ [1] 2 @ InternalError at character 2 (']')
1024 @ 1 2 @ TrailingData at character 0 ('1')
1024 @ true] @ TrailingData at character 0 ('t')
1024 @ [1,] @ InternalError at character 3 (']')
1024 @ {"a":1,} @ ExpectedObjectKey at character 7 ('}')
1024 @ [1 2] @ ExpectedArrayContent at character 3 ('2')
1024 @ 01 @ InvalidNumber at character 1 ('1')
1024 @ 1a @ InvalidNumber at character 1 ('a')
1024 @ 1"a" @ InvalidNumber at character 1 ('"')
1024 @ 18446744073709551616x @ InvalidNumber at character 20 ('x')
1024 @ 340282366920938463463374607431768211456 @ InvalidNumber at character 38 ('6')
1024 @ -170141183460469231731687303715884105729 @ InvalidNumber at character 40 (' ')
1024 @ "\ud800" @ InvalidUnicodeCodepoint at character 1 ('u')
1024 @ "\u12" @ InvalidUnicodeCodepoint at character 1 ('u')
1024 @ "\q" @ InvalidEscape at character 1 ('q')
1024 @ "\é" @ InvalidEscape at character 1 ('Ã')
1024 @ time @ ExpectedTrue at character 0 ('t')
1024 @ [true, falsy] @ ExpectedFalse at character 7 ('f')"#;

fn mode_named(rt: &impl Abort, word: &str) -> Mode {
    match word {
        "tape" => Mode::Tape,
        "positions" => Mode::Positions,
        "compact" => Mode::Compact,
        "pretty" => Mode::Pretty,
        "lines" => Mode::Lines,
        _ => panic!(rt; "{word} is no mode"),
    }
}

// A text with control characters in place of their pictures.
fn controlled(alloc: Global, text: &str) -> Result<String, AllocError> {
    let mut controlled = String::new(alloc);
    for character in text.chars() {
        controlled.push(match character {
            '␉' => '\t',
            '␊' => '\n',
            '␍' => '\r',
            '␡' => '\u{7f}',
            _ => character,
        })?;
    }
    Ok(controlled)
}

// What a run returns where all is printed, or all but the lines that are rejected.
fn assert_printed(
    rt: &(impl AllocGlobal + Abort),
    mode: Mode,
    depth: usize,
    input: &[u8],
    is_clean: bool,
    output: &[u8],
) {
    let ran = run_over(rt, mode, depth, input);
    assert!(rt; ran.reader.ended(), "{input:?}");
    assert_eq!(rt;
        status(&ran.answer),
        if is_clean { 0 } else { 1 },
        "{input:?}"
    );
    assert_eq!(rt; ran.answer, Ok(is_clean), "{input:?}");
    assert_eq!(rt; ran.writer.into_inner().as_slice(), output, "{input:?}");
}

fn assert_all_printed(rt: &(impl AllocGlobal + Abort), table: &str, is_clean: bool) -> Tested {
    for line in table.lines() {
        let (asked, row) = line.split_once(" @ ").expect(rt, "it has a mode");
        let (input, output) = row.split_once(" @ ").expect(rt, "it has both");
        let (word, depth) = asked.split_once(" ").expect(rt, "it has a limit");
        let mode = mode_named(rt, word);
        let input = controlled(rt.alloc(), input)?;
        let output = controlled(rt.alloc(), output)?;
        assert_printed(
            rt,
            mode,
            depth.parse()?,
            input.as_bytes(),
            is_clean,
            output.as_bytes(),
        );
    }
    Ok(())
}

#[test]
fn known_inputs_are_printed(rt: HostRuntime) -> Tested {
    assert_all_printed(&rt, PRINTED, true)?;
    assert_all_printed(&rt, PRINTED_WITH_ERRORS, false)?;
    let not_text = b"\xff\n[ 1 ]";
    assert_printed(
        &rt,
        Mode::Lines,
        1024,
        not_text,
        false,
        b"! InvalidUtf8 at character 0\n[1]\n",
    );
    let not_text = b"\"\xff\"\n3";
    assert_printed(
        &rt,
        Mode::Lines,
        1024,
        not_text,
        false,
        b"! InvalidUtf8 at character 0\n3\n",
    );
    Ok(())
}

// A blank input is not a document, but a stream without lines.
#[test]
fn blanks_are_no_documents(rt: HostRuntime) -> Tested {
    let rows: [&[u8]; 2] = [b"", b" \t\r\n"];
    for input in rows {
        for mode in OF_DOCUMENTS {
            assert_rejected(&rt, mode, 1024, input, "Eof at character 0")?;
        }
    }
    let rows: [&[u8]; 4] = [b"", b"\n", b" \t\r\n\n \n\t", b"\n  \n \n\n"];
    for input in rows {
        assert_printed(&rt, Mode::Lines, 1024, input, true, b"");
    }
    Ok(())
}

// In mode `lines` the error is a line.
fn assert_rejected(
    rt: &(impl AllocGlobal + Abort),
    mode: Mode,
    depth: usize,
    input: &[u8],
    error: &str,
) -> Tested {
    if mode == Mode::Lines {
        let line = format!(in rt.alloc(); "! {error}\n")?;
        assert_printed(rt, mode, depth, input, false, line.as_bytes());
        return Ok(());
    }
    let ran = run_over(rt, mode, depth, input);
    assert!(rt; ran.reader.ended(), "{input:?}");
    assert_eq!(rt; status(&ran.answer), 1, "{input:?}");
    assert_eq!(rt; ran.writer.into_inner().len(), 0, "{input:?}");
    match ran.answer {
        Ok(_) => panic!(rt; "printed, and not {error}"),
        Err(fault) => {
            let printed = format!(in rt.alloc(); "{fault}")?;
            assert_eq!(rt; printed.as_str(), error, "{input:?}");
        }
    }
    Ok(())
}

fn assert_rejected_by_all(
    rt: &(impl AllocGlobal + Abort),
    depth: usize,
    input: &[u8],
    error: &str,
) -> Tested {
    for mode in ALL {
        assert_rejected(rt, mode, depth, input, error)?;
    }
    Ok(())
}

#[test]
fn known_inputs_are_rejected(rt: HostRuntime) -> Tested {
    for line in REJECTED.lines() {
        let (depth, row) = line.split_once(" @ ").expect(&rt, "it has a limit");
        let (input, error) = row.split_once(" @ ").expect(&rt, "it has both");
        assert_rejected_by_all(&rt, depth.parse()?, input.as_bytes(), error)?;
    }
    let rows: [&[u8]; 2] = [b"[\xff]", b"[\"\xff"];
    for input in rows {
        assert_rejected_by_all(&rt, 1024, input, "InvalidUtf8 at character 0")?;
    }
    let marked = b"\xef\xbb\xbf1";
    assert_rejected_by_all(&rt, 1024, marked, "InternalError at character 0 ('\u{ef}')")
}
