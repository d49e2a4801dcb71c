//! The lists that calls with a parser use one after another, and what is done with them.
ghost use Rattle.std.specs.Prelude.{◌≡◌, ◌<◌, ◌⊎◌, List, IfOk, IfErr, IsUtf8, None, Some, length};
ghost use Rattle.std.specs.Prelude.{pos};
ghost use Rattle.std.specs.Ptr.{as_mut_ptr, as_ptr};
ghost use Rattle.std.specs.Result.{result_err};
ghost use Rattle.std.specs.Vec.{vec_capacity};
ghost use Rattle.simd_json_check.specs.Checkers.{KeepsChecker, check_capacity};
ghost use Rattle.simd_json_parts.specs.Document.{Document};
ghost use Rattle.simd_json_parts.specs.Listing.{listing};
ghost use Rattle.simd_json_parts.specs.Nodes.{Item};
ghost use Rattle.simd_json_c.specs.Calls.{IsCheckOf, IsCheckReported};
ghost use Rattle.simd_json_parts.specs.InputFaults.{input_fault};
ghost use Rattle.simd_json_stages.specs.Capacities.{capacity};
ghost use Rattle.simd_json_c.specs.Chosen.{IsChosenPut, IsTapedWith};
ghost use Rattle.simd_json_c.specs.Fields.{AreFieldsPut, wanted};
ghost use Rattle.simd_json_c.specs.Indexed.{IsUnscanned};
ghost use Rattle.simd_json_c.specs.Kept.{AreNew, IsReadWith, KeepsLists};
ghost use Rattle.simd_json_c.specs.Lent.{AreLent};
ghost use Rattle.simd_json_c.specs.Statuses.{missing_status};

use crate::cells::Cell;
use crate::fields::{Field, put_fields};
use crate::lent::Lent;
use crate::pointer::missing;
use crate::print::print_at;
use crate::scanned::ScannedInput;
use crate::status::{ErrorPlace, OUT_OF_MEMORY, reported};
use simd_json::{Buffers, Result, Tape, keep_spans, refill_tape};
use simd_json_check::Checker;
use simd_json_ondemand::PreparedPointer;
use simd_json_print::document::{Layout, Level};
use std::alloc::Global;
use std::mem::replace;

/// Whether the input is a document with at most `max_depth` containers open at a time.
#[unsafe(no_mangle)]
pub extern "C" fn simd_json_check(
    alloc: Global,
    input: &[u8],
    max_depth: usize,
    place: &mut ErrorPlace,
) -> i32
    ensures { IsCheckReported input.now max_depth 0 result place.new }
{
    let mut checker = Checker::empty(alloc);
    reported(check(&mut checker, input, max_depth), place)
}

// Returns 0 if the input is a document, or its error.
fn check(checker: &mut Checker, input: &[u8], max_depth: usize) -> Result<i32>
    ensures checked { IsCheckOf input.now max_depth
        (check_capacity max_depth checker.old) (result_err result) }
    ensures zero { IfOk result (λ status. status ≡ pos 0) }
    ensures kept { KeepsChecker checker.old checker.new }
{
    match checker.check(input, max_depth) {
        Ok(()) => Ok(0),
        Err(e) => Err(e),
    }
}

/// Buffers whose memory the next parse uses.
#[derive(Drop)]
pub struct Lists {
    // the lists of the first stage, the stack of the second, and the depth limit
    pub(crate) buffers: Buffers,
    // those of a check
    pub(crate) checker: Checker,
    // the tape of a document that is printed, empty between calls, and its text
    pub(crate) tape: Tape<'static>,
    pub(crate) printed: Vec<u8>,
    // what is open while it is printed, past a few containers
    pub(crate) levels: Vec<Level>,
    // the nodes that are lent
    pub(crate) nodes: Vec<Cell>,
    // the input in which values are found
    pub(crate) source: ScannedInput,
    // the pointers whose values are found together
    pub(crate) wanted: Vec<PreparedPointer>,
}

impl Lists {
    // Lists with this depth limit, which hold no memory yet.
    pub(crate) fn new(alloc: Global, max_depth: usize) -> Lists
        ensures { AreNew max_depth result }
    {
        Lists {
            buffers: Buffers::empty(alloc, max_depth),
            checker: Checker::empty(alloc),
            tape: Tape::empty(alloc),
            printed: Vec::new(alloc),
            levels: Vec::new(alloc),
            nodes: Vec::new(alloc),
            source: ScannedInput::new(alloc),
            wanted: Vec::new(alloc),
        }
    }

    // Returns 0 if the input is a document, or its error.
    pub(crate) fn check(&mut self, input: &[u8]) -> Result<i32>
        ensures checked { IsCheckOf input.now self.old.buffers.limit
            (check_capacity self.old.buffers.limit self.old.checker) (result_err result) }
        ensures zero { IfOk result (λ status. status ≡ pos 0) }
        ensures kept { KeepsLists self.old self.new }
    {
        check(&mut self.checker, input, self.buffers.max_depth())
    }

    // Prints the value that a pointer names in a document to the caller's memory. Returns 0,
    // `TOO_LITTLE_ROOM`, `INVALID_POINTER`, `NO_VALUE` or `OUT_OF_MEMORY`.
    pub(crate) fn print(
        &mut self,
        alloc: Global,
        input: &mut [u8],
        pointer: &str,
        layout: Layout,
        out: &mut [u8],
        needed: &mut usize,
    ) -> Result<i32>
        ensures printed { IfOk result (λ status. (ns : List Item) × (d : Document)
            × IsTapedWith self.old input.old None ns self.new × (listing d ≡ ns)
            × IsChosenPut (vec_capacity self.old.printed) (length self.old.levels.items)
            layout pointer.now d status needed.old needed.new out.old out.new) }
        ensures rejected { IfErr result (λ e. (ns : List Item)
            × IsTapedWith self.old input.old (Some e) ns self.new
            × (needed.new ≡ needed.old) × (out.new ≡ out.old)) }
        ensures kept { KeepsLists self.old self.new }
    {
        let kept = replace(&mut self.tape, Tape::empty(alloc));
        let (parsed, tape) = refill_tape(input, &mut self.buffers, kept);
        match parsed {
            Ok(()) => {
                let value = tape.as_value();
                let status = print_at(
                    value,
                    pointer,
                    layout,
                    &mut self.printed,
                    &mut self.levels,
                    out,
                    needed,
                );
                drop(replace(&mut self.tape, tape.reset()));
                Ok(status)
            }
            Err(e) => {
                drop(replace(&mut self.tape, tape.reset()));
                Err(e)
            }
        }
    }

    // The same for a pointer that may not be UTF-8, and then names no value: the input is not read.
    pub(crate) fn print_from(
        &mut self,
        alloc: Global,
        input: &mut [u8],
        pointer: &[u8],
        layout: Layout,
        out: &mut [u8],
        needed: &mut usize,
    ) -> Result<i32>
        ensures printed { IfOk result (λ status. (IsUtf8 pointer.now
            × ((ns : List Item) × (d : Document)
            × IsTapedWith self.old input.old None ns self.new × (listing d ≡ ns)
            × IsChosenPut (vec_capacity self.old.printed) (length self.old.levels.items)
            layout pointer.now d status needed.old needed.new out.old out.new))
            ⊎ ((IsUtf8 pointer.now → ⊥) × (status ≡ missing_status pointer.now)
            × (needed.new ≡ needed.old) × (out.new ≡ out.old))) }
        ensures rejected { IfErr result (λ e. IsUtf8 pointer.now × ((ns : List Item)
            × IsTapedWith self.old input.old (Some e) ns self.new
            × (needed.new ≡ needed.old) × (out.new ≡ out.old))) }
        ensures kept { KeepsLists self.old self.new }
    {
        match str::from_utf8(pointer) {
            Ok(pointer) => self.print(alloc, input, pointer, layout, out, needed),
            Err(_) => Ok(missing(pointer)),
        }
    }

    // Finds what the pointers that are wanted name in an input. Returns 0.
    pub(crate) fn find(&mut self, input: &[u8], fields: &mut [Field]) -> Result<i32>
        ensures found { IfOk result (λ status. (status ≡ pos 0) × (input_fault input.now ≡ None)
            × AreFieldsPut (wanted self.old) input.now fields.old fields.new) }
        ensures fault { IfErr result (λ e. (fields.new ≡ fields.old)
            × IsUnscanned (capacity self.old.checker.index) input.now e) }
        ensures kept { KeepsLists self.old self.new }
    {
        self.checker.index.scan(input)?;
        let document = simd_json_ondemand::Document::new(&self.checker.index, input);
        put_fields(document.as_value(), self.wanted.as_slice(), fields);
        Ok(0)
    }

    // Keeps the nodes of a document, and lends them. Returns 0 or `OUT_OF_MEMORY`.
    pub(crate) fn parse(&mut self, input: &mut [u8], lent: &mut Lent) -> Result<i32>
        ensures lent { IfOk result (λ status. (ns : List Item)
            × IsReadWith self.old input.old None ns × AreLent ns (as_mut_ptr input.entry) input.new
            self.old self.new status lent.old lent.new) }
        ensures rejected { IfErr result (λ e. (ns : List Item)
            × IsReadWith self.old input.old (Some e) ns × (lent.new ≡ lent.old)) }
        ensures kept { KeepsLists self.old self.new }
    {
        self.nodes.clear();
        if !keep_spans(input, &mut self.buffers, &mut self.nodes)? {
            return Ok(OUT_OF_MEMORY);
        }
        *lent = Lent {
            nodes: self.nodes.as_ptr(),
            nodes_len: self.nodes.len(),
            text: address(input),
            text_len: input.len(),
        };
        Ok(0)
    }
}

// The address of an input that is not empty.
fn address(input: &[u8]) -> *const u8
    requires { 0 < length input.now }
    ensures { result ≡ as_ptr input.entry }
{
    std::ptr::from_ref(&input[0])
}
