//! A parser that C keeps: its lists are used by one parse after another.
//!
//! It is a box, held as a pointer and a flag. A struct of zeros is a closed parser, so null is
//! never tested, and `open` returns no pointer. Small functions turn the pointer into the box and
//! back, each proved by hand; the rest is safe code.
ghost use Rattle.std.specs.Prelude.{◌≡◌, ◌≢◌, Option, Some, None, is_some, MatchOption, IfSome};
ghost use Rattle.simd_json_c.specs.Kept.{AreNew, IsCheckedWith, IsOpened};
ghost use Rattle.simd_json_c.specs.Holding.{held};
ghost use Rattle.simd_json_c.specs.declared.lists.Lists.{Lists};
ghost use Rattle.std.specs.Box.Ownership.{box_owns};

use crate::lists::Lists;
use crate::status::{ErrorPlace, OUT_OF_MEMORY, PARSER_CLOSED, reported};
use std::alloc::{Allocator, Global};
use std::marker::Model;
use std::mem::replace;

/// An open or a closed parser; one of zeros is closed.
#[repr(C)]
#[derive(Drop)]
pub struct Parser {
    held: Held,
    is_open: bool,
    ghost agrees: { is_open ≡ is_some held.value },
}

impl Parser {
    pub(crate) fn closed(alloc: Global) -> Parser
        ensures { result.held.value ≡ None }
    {
        Parser {
            held: Held::empty(alloc),
            is_open: false,
        }
    }

    pub(crate) fn open(lists: Box<Lists>) -> Parser
        ensures { result.held.value ≡ Some lists.value }
    {
        Parser {
            held: Held::full(Loose::of(lists)),
            is_open: true,
        }
    }

    pub(crate) fn into_lists(self) -> Option<Box<Lists>>
        ensures { MatchOption result (self.held.value ≡ None)
            (λ lists. self.held.value ≡ Some lists.value) }
    {
        let Parser { held, is_open } = self;
        if is_open {
            return Some(held.into_loose().into_box());
        }
        None
    }
}

fn opened(alloc: Global, max_depth: usize) -> Option<Parser>
    ensures { IfSome result
        (λ parser. (lists : Lists) × (parser.held.value ≡ Some lists) × AreNew max_depth lists) }
{
    let lists = Lists::new(alloc, max_depth);
    Some(Parser::open(Box::new(alloc, lists).ok()?))
}

/// Opens a parser. One that is open is closed first.
#[unsafe(no_mangle)]
pub extern "C" fn simd_json_open(alloc: Global, parser: &mut Parser, max_depth: usize) -> i32
    ensures { IsOpened max_depth result parser.new.held.value }
{
    simd_json_close(alloc, parser);
    match opened(alloc, max_depth) {
        Some(open) => {
            *parser = open;
            0
        }
        None => OUT_OF_MEMORY,
    }
}

/// Whether the input is a document within the depth limit that the parser was opened with.
#[unsafe(no_mangle)]
pub extern "C" fn simd_json_parser_check(
    alloc: Global,
    parser: &mut Parser,
    input: &[u8],
    place: &mut ErrorPlace,
) -> i32
    ensures { IsCheckedWith parser.old.held.value parser.new.held.value input.now result place.new }
{
    match replace(parser, Parser::closed(alloc)).into_lists() {
        Some(mut lists) => {
            let outcome = lists.check(input);
            *parser = Parser::open(lists);
            reported(outcome, place)
        }
        None => reported(Ok(PARSER_CLOSED), place),
    }
}

/// Frees what the parser keeps, and closes it.
#[unsafe(no_mangle)]
pub extern "C" fn simd_json_close(alloc: Global, parser: &mut Parser)
    ensures { parser.new.held.value ≡ None }
{
    let _lists = replace(parser, Parser::closed(alloc)).into_lists();
}

/// An optional box of lists, as C holds it: it owns the lists that its pointer refers to, if any.
/// Not exported.
// Dropping it would leak them: only one without lists is dropped.
#[repr(C)]
#[derive(Drop)]
pub struct Held {
    at: *mut u8,
    alloc: Global,
    pub(crate) ghost value: { Option Lists },
}

impl Model for Held {
    ghost also_owns = { λ h. held h.alloc h.at h.value };
}

impl Held {
    pub(crate) fn empty(alloc: Global) -> Held
        ensures { result.value ≡ None }
    {
        Held {
            at: std::ptr::null_mut(),
            alloc,
        }
    }

    pub(crate) fn full(lists: Loose<Lists, Global>) -> Held
        ensures { result.value ≡ Some lists.value }
    {
        let Loose { at, alloc } = lists;
        Held {
            at: at as *mut u8,
            alloc,
        }
    }

    pub(crate) fn into_loose(self) -> Loose<Lists, Global>
        requires { self.value ≢ None }
        ensures { Some result.value ≡ self.value }
    {
        let Held { at, alloc } = self;
        Loose {
            at: at as *mut Lists,
            alloc,
        }
    }
}

// A box as its pointer.
pub(crate) struct Loose<T, A: Allocator> {
    pub(crate) at: *mut T,
    pub(crate) alloc: A,
    pub(crate) ghost value: { T },
}

impl<T, A: Allocator> Model for Loose<T, A> {
    ghost also_owns = { λ l. box_owns (A.dealloc_token l.alloc) T.row l.at l.value };
}

impl<T: Drop, A: Allocator> Loose<T, A> {
    pub(crate) fn of(value: Box<T, A>) -> Loose<T, A>
        ensures { result.value ≡ value.value }
    {
        let (at, alloc) = Box::into_raw_with_allocator(value);
        Loose { at, alloc }
    }

    pub(crate) fn into_box(self) -> Box<T, A>
        ensures { result.value ≡ self.value }
    {
        let Loose { at, alloc } = self;
        unsafe { Box::from_raw(alloc, at) }
    }
}
