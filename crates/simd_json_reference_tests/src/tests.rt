use crate::reference;
use simd_json::{Buffers, DEFAULT_MAX_DEPTH, Tape, fill_tape, to_tape};
use std::alloc::Global;
use std::fs;
use std::process::Abort;
use std::rt::Files;
use std::test::Fail;

mod changes;
mod mutations;
mod tokens;

type Tested = std::result::Result<(), Fail>;

// Whether long tests take all of their inputs, and not a few: where the tests' folder has a file
// `long`, as before a release (`make test-long`).
fn takes_all(rt: &(impl Files + Abort)) -> bool {
    fs::exists(rt, "long").expect(rt, "the folder can be read")
}

// Short documents and rejected inputs of each sort, and one that is longer than a block of 64
// bytes.
fn inputs() -> [&'static [u8]; 20] {
    [
        b"{\"the_answer\": 42}",
        b"[1,[2,3],4]",
        b"\"\\ud83d\\ude00\"",
        b"\"\\ud800\"",
        b"\"\\q\"",
        b"\"\\u12\"",
        b"[\xff]",
        b"[\"\xff",
        b"\"\n\"",
        b"\xef\xbb\xbf1",
        b"x \"a",
        b"[-0,0,1e309,1.50]",
        b"1\"a\"",
        b"{\"a\n\":[true,null,-1,1.5]}",
        b"{\"a\\n\":[true,null,-1,1.5]}",
        b"[-9223372036854775809,18446744073709551616]",
        b"[-170141183460469231731687303715884105728,340282366920938463463374607431768211455]",
        b"-170141183460469231731687303715884105729",
        b"340282366920938463463374607431768211456",
        b"{\"content\":\"aaaaaaaaaaaaaaaaaaaaaaaaaaaaaaaaaaaaaaaaaaaaaaaaa\\\\\\\"\",\
        \"\xc3\xa9\":[ [{}], false ]}",
    ]
}

// Buffers that are kept from one comparison to the next.
#[derive(Drop)]
struct Kept {
    usual: Buffers,
    // Within which one container may be open.
    shallow: Buffers,
}

impl Kept {
    fn new(alloc: Global) -> simd_json::Result<Kept> {
        Ok(Kept {
            usual: Buffers::new(alloc, 0)?,
            shallow: Buffers::with_max_depth(alloc, 0, 1)?,
        })
    }
}

// Compares a parse into a tape that holds another document with the reference: error, nodes and
// structural indexes.
fn compare_within(
    rt: &(impl AllocGlobal + Abort),
    input: &[u8],
    limit: usize,
    kept: &mut Buffers,
) -> Tested {
    let wanted = reference::read(rt.alloc(), input, limit)?;
    let mut read = Vec::from_slice(rt.alloc(), input)?;
    let mut tape = Tape::null(rt.alloc())?;
    let fault = fill_tape(read.as_mut_slice(), kept, &mut tape).err();
    assert_eq!(rt; fault, wanted.fault, "{input:?} within {limit}");
    assert!(rt; wanted.has_nodes(input, tape.nodes()), "{input:?}");
    assert_eq!(rt;
        kept.structural_indexes(),
        wanted.positions.as_slice(),
        "{input:?}"
    );
    Ok(())
}

// The same by new buffers, by buffers that are kept, and within a low limit.
fn compare(rt: &(impl AllocGlobal + Abort), input: &[u8], kept: &mut Kept) -> Tested {
    let wanted = reference::read(rt.alloc(), input, DEFAULT_MAX_DEPTH)?;
    let mut fresh = Vec::from_slice(rt.alloc(), input)?;
    match to_tape(rt.alloc(), fresh.as_mut_slice()) {
        Ok(tape) => {
            assert_eq!(rt; None, wanted.fault, "{input:?}");
            assert!(rt; wanted.has_nodes(input, tape.nodes()), "{input:?}");
        }
        Err(e) => assert_eq!(rt; Some(e), wanted.fault, "{input:?}"),
    }
    compare_within(rt, input, DEFAULT_MAX_DEPTH, &mut kept.usual)?;
    compare_within(rt, input, 1, &mut kept.shallow)
}
