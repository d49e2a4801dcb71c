// Reservations, and what is found without memory.
use linked_list_allocator::LocalHeap;
use simd_json::{
    Buffers, Error, ErrorType, Node, Result, StaticNode, Tape, fill_tape, refill_tape, reserve,
};
use std::alloc::Allocator;
use std::io::{self, BufRead};
use std::process::Abort;

// Why a test goes on: the allocations that are not to fail.
pub(super) const MEMORY: &str = "there is memory";

type Ballast<'h> = Vec<Vec<u8, &'h LocalHeap>>;

// Takes all free memory of the heap but this many bytes in one block.
pub(super) fn ballast<'h>(
    rt: &(impl AllocGlobal + Abort),
    heap: &'h LocalHeap,
    left: usize,
) -> Ballast<'h> {
    let spare = Vec::<u8, &LocalHeap>::with_capacity(heap, left).expect(rt, MEMORY);
    let mut pieces = Vec::new(rt.alloc());
    let mut size = 32_768;
    for _ in 0..12 {
        for _ in 0..8 {
            if let Ok(piece) = Vec::with_capacity(heap, size) {
                pieces.push(piece).expect(rt, MEMORY);
            }
        }
        size /= 2;
    }
    drop(spare);
    pieces
}

const DOCUMENT: &[u8] = b"{\"the_answer\": 42}";

const REJECTED: &[u8] = b"[[[[[[[[[[[[[[[[[[";

fn alternating(rt: &(impl AllocGlobal + Abort)) -> Vec<u8> {
    let mut pieces = Vec::new(rt.alloc());
    for _ in 0..50 {
        pieces.extend_from_slice(DOCUMENT).expect(rt, MEMORY);
        pieces.extend_from_slice(REJECTED).expect(rt, MEMORY);
    }
    pieces
}

fn assert_document(rt: &impl Abort, answer: &Result<()>, nodes: usize, positions: &[u32]) {
    assert_eq!(rt; answer, &Ok(()));
    assert_eq!(rt; nodes, 3);
    assert_eq!(rt; positions, [0, 1, 13, 15, 17].as_slice());
}

fn assert_rejected(rt: &impl Abort, answer: &Result<()>, nodes: usize, positions: &[u32]) {
    assert_eq!(rt; answer, &Err(Error::new(17, Some('['), ErrorType::Syntax)));
    assert_eq!(rt; nodes, 0);
    assert_eq!(rt; positions.len(), 18);
}

// With capacity for their bytes, documents and rejected inputs alternate while every growth fails.
#[test]
fn reserved_parses_take_no_memory(rt: HostRuntime) {
    let mut pieces = alternating(&rt);
    let heap = LocalHeap::new(rt.alloc(), 1 << 16).expect(&rt, MEMORY);
    let mut buffers = Buffers::new(&heap, 0).expect(&rt, MEMORY);
    let mut tape = Tape::null(&heap).expect(&rt, MEMORY);
    buffers.reserve(18).expect(&rt, MEMORY);
    tape.reserve(18).expect(&rt, MEMORY);
    let _ballast = ballast(&rt, &heap, 0);
    assert_eq!(rt; heap.free(), 0);
    let mut documents = 0u32;
    for piece in pieces.chunks_exact_mut(18) {
        let is_document = piece[0] == b'{';
        let answer = fill_tape(piece, &mut buffers, &mut tape);
        let (nodes, positions) = (tape.nodes().len(), buffers.structural_indexes());
        if is_document {
            assert_document(&rt, &answer, nodes, positions);
            documents = documents.saturating_add(1);
        } else {
            assert_rejected(&rt, &answer, nodes, positions);
        }
    }
    assert_eq!(rt; documents, 50);
}

// Of 10 nodes, of 9, and two that are rejected.
const LINES: &[u8] = b"{\"level\":\"info\",\"text\":\"\\u0041\\n\",\"n\":[1,-2,3.5]}\n\
    [[[[[[[[[]]]]]]]]]\n[1,]\n\"\n";

// A log of 10,000 lines.
fn log(rt: &(impl AllocGlobal + Abort)) -> Vec<u8> {
    let mut log = Vec::new(rt.alloc());
    for _ in 0..2_500 {
        log.extend_from_slice(LINES).expect(rt, MEMORY);
    }
    log
}

// A log over one pair that was reserved once: no allocation is made, since none could be.
#[test]
fn a_log_takes_no_memory(rt: HostRuntime) {
    let mut log = log(&rt);
    let heap = LocalHeap::new(rt.alloc(), 1 << 16).expect(&rt, MEMORY);
    let mut buffers = Buffers::with_max_depth(&heap, 0, 16).expect(&rt, MEMORY);
    let mut tape = Tape::null(&heap).expect(&rt, MEMORY);
    reserve(64, &mut buffers, &mut tape).expect(&rt, MEMORY);
    let _ballast = ballast(&rt, &heap, 0);
    let used = heap.used();
    let (mut nodes, mut rejected, mut bad) = (0u32, 0u32, 0u32);
    for line in log.split_mut(|byte| *byte == b'\n') {
        match fill_tape(line, &mut buffers, &mut tape) {
            Ok(()) => nodes = nodes.saturating_add(tape.nodes().len() as u32),
            Err(e) if *e.error() == ErrorType::InternalError => {
                rejected = rejected.saturating_add(1)
            }
            Err(e) if *e.error() == ErrorType::Syntax => bad = bad.saturating_add(1),
            Err(e) => assert_eq!(rt; e, Error::generic(ErrorType::Eof)),
        }
        assert_eq!(rt; heap.free(), 0);
    }
    assert_eq!(rt; (nodes, rejected, bad), (2_500 * (10 + 9), 2_500, 2_500));
    assert_eq!(rt; heap.used(), used);
}

// Reads each line into one buffer, and parses it over one tape; how many nodes the lines have, and
// how many of them are rejected.
fn count<R: BufRead, A: Allocator, B: Allocator, C: Allocator>(
    reader: &mut R,
    line: &mut Vec<u8, A>,
    buffers: &mut Buffers<B>,
    tape: Tape<'static, C>,
) -> (io::Result<(usize, usize)>, Tape<'static, C>) {
    let mut kept = tape;
    let (mut nodes, mut rejected) = (0usize, 0usize);
    for _ in 0..u64::MAX {
        line.clear();
        match reader.read_until(b'\n', line) {
            Ok(0) => break,
            Ok(_) => {}
            Err(e) => return (Err(e), kept),
        }
        let (answer, tape) = refill_tape(line.as_mut_slice(), buffers, kept);
        match answer {
            Ok(()) => nodes = nodes.saturating_add(tape.nodes().len()),
            Err(_) => rejected = rejected.saturating_add(1),
        }
        kept = tape.reset();
    }
    (Ok((nodes, rejected)), kept)
}

// The same as a stream through one buffer, after one reservation.
#[test]
fn a_stream_takes_no_memory(rt: HostRuntime) {
    let log = log(&rt);
    let heap = LocalHeap::new(rt.alloc(), 1 << 16).expect(&rt, MEMORY);
    let mut line: Vec<u8, &LocalHeap> = Vec::with_capacity(&heap, 64).expect(&rt, MEMORY);
    let mut buffers = Buffers::with_max_depth(&heap, 0, 16).expect(&rt, MEMORY);
    let mut tape = Tape::null(&heap).expect(&rt, MEMORY);
    reserve(64, &mut buffers, &mut tape).expect(&rt, MEMORY);
    let _ballast = ballast(&rt, &heap, 0);
    let used = heap.used();
    let mut reader = log.as_slice();
    let (counts, tape) = count(&mut reader, &mut line, &mut buffers, tape);
    assert_eq!(rt; counts.ok(), Some((2_500 * (10 + 9), 5_000)));
    assert!(rt; tape.is_empty());
    assert_eq!(rt; (heap.used(), heap.free()), (used, 0));
}

// A tape is filled again for an input of another lifetime. What it listed is gone, after an error
// too, and a growth that fails leaves its capacity.
#[test]
fn a_tape_is_refilled(rt: HostRuntime) {
    let heap = LocalHeap::new(rt.alloc(), 1 << 16).expect(&rt, MEMORY);
    let mut buffers = Buffers::with_max_depth(&heap, 64, 1).expect(&rt, MEMORY);
    let mut small = *b"[\"\\u0041\",2]";
    let (answer, tape) = refill_tape(
        &mut small,
        &mut buffers,
        Tape::null(&heap).expect(&rt, MEMORY),
    );
    assert_eq!(rt; answer, Ok(()));
    let wanted = [
        Node::Array { len: 2, count: 2 },
        Node::String("A"),
        Node::Static(StaticNode::U64(2)),
    ];
    assert_eq!(rt; tape.nodes(), wanted.as_slice());
    assert_eq!(rt; buffers.structural_indexes(), [0, 1, 9, 10, 11].as_slice());
    let mut rejected = *b"[1,]";
    let (answer, tape) = refill_tape(&mut rejected, &mut buffers, tape);
    assert_eq!(rt;
        answer,
        Err(Error::new(3, Some(']'), ErrorType::InternalError))
    );
    assert!(rt; tape.is_empty());
    assert_capacity_stays(&rt, &heap, &mut buffers, tape)
}

// A growth that fails leaves the capacity of three nodes.
fn assert_capacity_stays(
    rt: &(impl AllocGlobal + Abort),
    heap: &LocalHeap,
    buffers: &mut Buffers<&LocalHeap>,
    tape: Tape<'_, &LocalHeap>,
) {
    let full = ballast(rt, heap, 0);
    let mut large = *b"[1,2,3,4,5,6,7,8,9,0]";
    let (answer, tape) = refill_tape(&mut large, buffers, tape);
    assert_no_memory(rt, answer);
    assert!(rt; tape.is_empty());
    let mut again = *b"[1,2]";
    let (answer, tape) = refill_tape(&mut again, buffers, tape);
    assert_eq!(rt; (answer, tape.nodes().len()), (Ok(()), 3));
    drop(full);
    let mut larger = *b"[1,2,3,4,5,6,7,8,9,0]";
    let (answer, tape) = refill_tape(&mut larger, buffers, tape);
    assert_eq!(rt; (answer, tape.nodes().len()), (Ok(()), 11));
}

// After a reset a parse within the capacity takes no memory, and one beyond it finds none.
#[test]
fn capacity_outlives_a_reset(rt: HostRuntime) {
    let heap = LocalHeap::new(rt.alloc(), 1 << 16).expect(&rt, MEMORY);
    let mut buffers = Buffers::with_max_depth(&heap, 0, 1).expect(&rt, MEMORY);
    let mut tape: Tape<'static, &LocalHeap> = Tape::null(&heap).expect(&rt, MEMORY);
    buffers.reserve(64).expect(&rt, MEMORY);
    tape.reserve(8).expect(&rt, MEMORY);
    let _ballast = ballast(&rt, &heap, 0);
    let mut small = *b"[1,2,3,4,5,6]";
    let mut filled = tape.reset();
    assert!(rt; filled.is_empty());
    assert_eq!(rt; fill_tape(&mut small, &mut buffers, &mut filled), Ok(()));
    assert_eq!(rt; filled.nodes().len(), 7);
    let mut large = *b"[1,2,3,4,5,6,7,8,9,0]";
    let mut more = filled.reset();
    assert_no_memory(&rt, fill_tape(&mut large, &mut buffers, &mut more));
    assert!(rt; more.is_empty());
}

fn assert_no_memory(rt: &impl Abort, answer: Result<()>) {
    assert_eq!(rt; answer, Err(Error::generic(ErrorType::OutOfMemory)));
}

// A reservation that fails changes nothing that is listed.
#[test]
fn reservations_fail(rt: HostRuntime) {
    let mut input = *b"[1,2]";
    let heap = LocalHeap::new(rt.alloc(), 1 << 16).expect(&rt, MEMORY);
    let mut buffers = Buffers::new(&heap, 0).expect(&rt, MEMORY);
    let mut tape = Tape::null(&heap).expect(&rt, MEMORY);
    fill_tape(&mut input, &mut buffers, &mut tape).expect(&rt, MEMORY);
    assert_no_memory(&rt, tape.reserve(usize::MAX));
    let full = ballast(&rt, &heap, 0);
    assert_no_memory(&rt, buffers.reserve(1000));
    assert_no_memory(&rt, tape.reserve(500));
    assert_no_memory(&rt, reserve(1000, &mut buffers, &mut tape));
    assert_eq!(rt; buffers.structural_indexes(), [0, 1, 2, 3, 4].as_slice());
    assert_eq!(rt; tape.nodes().len(), 3);
    drop(full);
    assert_eq!(rt; buffers.reserve(1000), Ok(()));
    assert_eq!(rt; tape.reserve(500), Ok(()));
    assert_eq!(rt; buffers.structural_indexes(), [0, 1, 2, 3, 4].as_slice());
    assert_eq!(rt; tape.nodes().len(), 3);
}

// Over an empty tape a reservation succeeds where there is memory, and the next one of as much
// takes none.
#[test]
fn an_empty_tape_is_reserved(rt: HostRuntime) {
    let mut input = *b"[1,2]";
    let heap = LocalHeap::new(rt.alloc(), 1 << 16).expect(&rt, MEMORY);
    let mut buffers = Buffers::empty(&heap, 16);
    let mut tape = Tape::empty(&heap);
    assert_eq!(rt; reserve(1500, &mut buffers, &mut tape), Ok(()));
    assert!(rt; heap.used() >= 1500 * 28 + 16 * 48);
    let _full = ballast(&rt, &heap, 0);
    assert_eq!(rt; reserve(1500, &mut buffers, &mut tape), Ok(()));
    assert_eq!(rt; fill_tape(&mut input, &mut buffers, &mut tape), Ok(()));
    assert_eq!(rt; tape.nodes().len(), 3);
}

// Where memory suffices for the buffers alone, these are reserved, and the tape stays empty.
#[test]
fn an_empty_tape_lacks_memory(rt: HostRuntime) {
    let mut input = *b"[1,2]";
    let heap = LocalHeap::new(rt.alloc(), 1 << 13).expect(&rt, MEMORY);
    let mut buffers = Buffers::empty(&heap, 16);
    let mut tape = Tape::empty(&heap);
    assert_no_memory(&rt, reserve(1500, &mut buffers, &mut tape));
    assert!(rt; heap.used() >= 1500 * 4 + 24 * 4 + 16 * 24);
    assert!(rt; tape.is_empty());
    let full = ballast(&rt, &heap, 0);
    assert_eq!(rt; buffers.reserve(1500), Ok(()));
    assert_no_memory(&rt, reserve(1, &mut buffers, &mut tape));
    drop(full);
    assert_eq!(rt; reserve(16, &mut buffers, &mut tape), Ok(()));
    assert_eq!(rt; fill_tape(&mut input, &mut buffers, &mut tape), Ok(()));
    assert_eq!(rt; tape.nodes().len(), 3);
}

// Buffers know the depth limit, so a reservation of both takes fewer nodes than one of the tape for
// as many bytes: half as many, and half as many as containers may be open.
#[test]
fn both_are_reserved_by_the_depth_limit(rt: HostRuntime) {
    let heap = LocalHeap::new(rt.alloc(), 1 << 16).expect(&rt, MEMORY);
    let mut buffers = Buffers::with_max_depth(&heap, 0, 16).expect(&rt, MEMORY);
    let mut tape = Tape::null(&heap).expect(&rt, MEMORY);
    assert_eq!(rt; reserve(1500, &mut buffers, &mut tape), Ok(()));
    assert!(rt; heap.used() >= 1500 * 28 + 16 * 48);
    assert!(rt; heap.used() < 1500 * 30);
    assert_eq!(rt; tape.nodes().len(), 1);
    let used = heap.used();
    assert_eq!(rt; reserve(1499, &mut buffers, &mut tape), Ok(()));
    assert_eq!(rt; heap.used(), used);
    assert_no_memory(&rt, tape.reserve(1500));
}

// An error of size, padding or encoding is returned also where no memory is left.
#[test]
fn encoding_is_tested_without_memory(rt: HostRuntime) {
    let mut input = *b"[\xff]";
    let heap = LocalHeap::new(rt.alloc(), 1 << 10).expect(&rt, MEMORY);
    let mut buffers = Buffers::new(&heap, 0).expect(&rt, MEMORY);
    let mut tape: Tape<'_, &LocalHeap> = Tape::null(&heap).expect(&rt, MEMORY).reset();
    let _ballast = ballast(&rt, &heap, 0);
    let answer = fill_tape(&mut input, &mut buffers, &mut tape);
    assert_eq!(rt; answer, Err(Error::generic(ErrorType::InvalidUtf8)));
    assert_eq!(rt; tape.nodes(), [].as_slice());
}
