//! The machine: a loop for the elements of an array, one for the members of an object, and one
//! round both, which chooses between them when a container has opened or closed. So inside one
//! container its kind is known beforehand. Between two tokens the machine is in one of three
//! states:
//!
//! ```text
//! value         read a scalar, an empty array or an empty object  →  after a value
//!               open a container                                  →  value (array), key (object)
//! key           read a string and a colon                         →  value
//! after a value a comma, in a container                           →  value (array), key (object)
//!               the closing bracket of the container              →  after a value
//!               the end of the tokens, in no container            →  done
//! ```
ghost use Rattle.std.specs.Prelude.{◌≡◌, ◌<◌, ◌≤◌, ◌+◌, [], length, map, IfOk, IfErr};
ghost use Rattle.std.specs.Prelude.{vec_capacity};
ghost use Rattle.simd_json_stages.specs.Members.{AfterMember, AtElement, AtFirst, AtOpening};
ghost use Rattle.simd_json_stages.specs.Members.{AtPair, HasCapacity, HasCome, HasFollowed};
ghost use Rattle.simd_json_stages.specs.Members.{IsAtMember, IsFault, IsFrom, IsTape};
ghost use Rattle.simd_json_stages.specs.Progresses.{AdvancesPastMember, AdvancesPastValue};
ghost use Rattle.simd_json_stages.specs.Progresses.{IsForCopy, IsOnRoute, reached};
ghost use Rattle.simd_json_stages.specs.Put.{SameSink};
ghost use Rattle.simd_json_stages.specs.Scans.{IsScanOf};

use super::Scanned;
use super::builder::{Builder, FromNode, TapeBuilder};
use super::fault::{Fault, FaultKind};
use super::input::{Original, Unread};
use super::progress::{Following, NextMember, Progress, Route, Step};
use super::scalar::{push_scalar, push_string};
use super::stack::{Container, StackState, close};
use std::alloc::Allocator;
use std::result::Result;

// What the machine changes besides the builder. All functions that take the machine are inlined, so
// that its fields stay in registers.
#[derive(Drop)]
pub(crate) struct Machine<'m> {
    // the open containers: the first `depth` entries (see `Progress`) are in use
    pub(crate) stack: &'m mut [StackState],
}

impl Machine<'_> {
    // Appends the key at the last token, reads its colon, and moves to the first token of the
    // value. If the last token is not a string, the fault is of this kind.
    #[inline(always)]
    fn read_key<K: Original, B: Builder>(
        &mut self,
        route: Route,
        builder: &mut B,
        p: Progress,
        kind: FaultKind,
    ) -> Result<Progress, Fault>
        requires { AtPair K.bytes route self.old (B.reads K.bytes builder.old)
            (B.node_room builder.old)
            (B.held_nodes builder.old) p kind }
        ensures sink { SameSink B.node_room B.lender builder.old builder.new }
        ensures stack { self.new.stack ≡ self.old.stack }
        ensures value { IfOk result (AtFirst K.bytes route.entry self.new
            (B.reads K.bytes builder.new)
            (B.node_room builder.new) (B.held_nodes builder.new)) }
        ensures advances { IfOk result (λ q. (p.read < q.read) × (q.depth ≡ p.depth)
            × (q.container ≡ p.container)) }
        ensures rejected { IfErr result (IsFault K.bytes route.entry) }
    {
        if p.byte != b'"' {
            return Err(p.fault(kind));
        }
        push_string::<K, B>(builder, route, p)?;
        let colon = p.next_token::<K, B>(builder, route)?;
        if colon.byte != b':' {
            return Err(colon.fault(FaultKind::ExpectedObjectColon));
        }
        let value = colon.next_token::<K, B>(builder, route)?;
        Ok(value)
    }

    // Opens the container whose opening bracket is the last token. An empty one is complete at
    // once, as the next token shows, and takes no entry of the stack.
    #[inline(always)]
    #[tactic(auto, unfolding(crate::specs::NodesEnough::nodes_enough))]
    fn open<K: Original, B: Builder>(
        &mut self,
        route: Route,
        builder: &mut B,
        p: Progress,
        container: Container,
    ) -> Result<Step, Fault>
        requires { AtOpening K.bytes route self.old (B.reads K.bytes builder.old)
            (B.node_room builder.old)
            (B.held_nodes builder.old) p container }
        ensures sink { SameSink B.node_room B.lender builder.old builder.new }
        ensures stack { length self.new.stack.now ≡ length self.old.stack.now }
        ensures came { IfOk result (HasCome K.bytes route.entry self.new
            (B.reads K.bytes builder.new)
            (B.node_room builder.new) (B.held_nodes builder.new)) }
        ensures advances { IfOk result (AdvancesPastValue p) }
        ensures rejected { IfErr result (IsFault K.bytes route.entry) }
    {
        if p.depth == route.max_depth {
            return Err(p.fault(FaultKind::DepthLimitExceeded));
        }
        let q = p.next_token::<K, B>(builder, route)?;
        if q.byte == container.closer() {
            builder.push_header(container);
            return Ok(Step::Read(Progress {
                len: q.len + 1,
                ..q
            }));
        }
        self.stack[p.depth] = StackState {
            header: builder.len(),
            outer: p.container,
            len: p.len,
        };
        builder.push_header(container);
        Ok(Step::Opened(Progress {
            depth: p.depth + 1,
            container,
            len: 0,
            ..q
        }))
    }

    // Reads the value whose first token is the last one: a scalar whole, a container up to its
    // first member.
    #[inline(always)]
    fn read_value<K: Original, B: Builder>(
        &mut self,
        route: Route,
        builder: &mut B,
        p: Progress,
    ) -> Result<Step, Fault>
        requires { AtFirst K.bytes route self.old (B.reads K.bytes builder.old)
            (B.node_room builder.old)
            (B.held_nodes builder.old) p }
        ensures sink { SameSink B.node_room B.lender builder.old builder.new }
        ensures stack { length self.new.stack.now ≡ length self.old.stack.now }
        ensures came { IfOk result (HasCome K.bytes route.entry self.new
            (B.reads K.bytes builder.new)
            (B.node_room builder.new) (B.held_nodes builder.new)) }
        ensures advances { IfOk result (AdvancesPastValue p) }
        ensures rejected { IfErr result (IsFault K.bytes route.entry) }
    {
        if p.byte == b'{' {
            return self.open::<K, B>(route, builder, p, Container::Object);
        }
        if p.byte == b'[' {
            return self.open::<K, B>(route, builder, p, Container::Array);
        }
        if p.byte == b'"' {
            push_string::<K, B>(builder, route, p)?;
        } else {
            push_scalar::<K, B>(builder, p)?;
        }
        Ok(Step::Read(Progress {
            len: p.len + 1,
            ..p
        }))
    }

    // Reads on after a member of a container of this kind: a comma and the first token of the next
    // member, or the closing bracket.
    #[inline(always)]
    fn after_member<K: Original, B: Builder>(
        &self,
        route: Route,
        builder: &mut B,
        p: Progress,
        container: Container,
    ) -> Result<Following, Fault>
        requires { AfterMember K.bytes route self.now (B.reads K.bytes builder.old)
            (B.node_room builder.old)
            (B.held_nodes builder.old) p container }
        ensures sink { SameSink B.node_room B.lender builder.old builder.new }
        ensures advances { IfOk result (AdvancesPastMember p) }
        ensures followed { IfOk result (HasFollowed K.bytes route.entry self.now
            (B.reads K.bytes builder.new)
            (B.node_room builder.new) (B.held_nodes builder.new)) }
        ensures rejected { IfErr result (IsFault K.bytes route.entry) }
    {
        let q = p.next_token::<K, B>(builder, route)?;
        if q.byte == b',' {
            return Ok(Following::Next(q.next_token::<K, B>(builder, route)?));
        }
        if q.byte != container.closer() {
            return Err(q.fault(container.content_kind()));
        }
        Ok(Following::Closed(close(self.stack, builder, q, container)))
    }

    // Closes containers up to the next comma and reads the token after it, or reports the end of
    // the root. Does nothing in a container that was just opened.
    #[inline(always)]
    fn next_member<K: Original, B: Builder>(
        &self,
        route: Route,
        builder: &mut B,
        value: Step,
    ) -> Result<NextMember, Fault>
        requires { HasCome K.bytes route self.now (B.reads K.bytes builder.old)
            (B.node_room builder.old)
            (B.held_nodes builder.old) value }
        ensures sink { SameSink B.node_room B.lender builder.old builder.new }
        ensures member { IfOk result (IsAtMember K.bytes route.entry self.now
            (B.reads K.bytes builder.new)
            (B.node_room builder.new) (B.held_nodes builder.new)) }
        ensures further { IfOk result (IsFrom (reached value).read) }
        ensures rejected { IfErr result (IsFault K.bytes route.entry) }
    {
        let mut p = match value {
            Step::Opened(p) => return Ok(NextMember::Next(p, FaultKind::ExpectedObjectContent)),
            Step::Read(p) => p,
        };
        while p.depth > 0 {
            match self.after_member::<K, B>(route, builder, p, p.container)? {
                Following::Next(next) => {
                    return Ok(NextMember::Next(next, FaultKind::ExpectedObjectKey));
                }
                Following::Closed(closed) => p = closed,
            }
        }
        if p.read < route.indexes.len() {
            return Err(p.fault_after_root());
        }
        Ok(NextMember::End)
    }

    // The loops have a copy for each caller of `build_copy`, since what has one caller alone is
    // inlined. With one for all callers a parse takes a sixth longer.

    // Reads the elements of an array, from the first token of one on, up to a container that opens
    // in it or to its end.
    #[inline(always)]
    fn elements<K: Original, B: Builder, const COPY: usize>(
        &mut self,
        route: Route,
        builder: &mut B,
        first: Progress,
    ) -> Result<Step, Fault>
        requires { AtElement K.bytes route self.old (B.reads K.bytes builder.old)
            (B.node_room builder.old)
            (B.held_nodes builder.old) first }
        ensures sink { SameSink B.node_room B.lender builder.old builder.new }
        ensures stack { length self.new.stack.now ≡ length self.old.stack.now }
        ensures came { IfOk result (HasCome K.bytes route.entry self.new
            (B.reads K.bytes builder.new)
            (B.node_room builder.new) (B.held_nodes builder.new)) }
        ensures further { IfOk result (λ value. first.read < (reached value).read) }
        ensures rejected { IfErr result (IsFault K.bytes route.entry) }
    {
        let mut p = first;
        'values: loop {
            match self.read_value::<K, B>(route, builder, p)? {
                Step::Opened(opened) => return Ok(Step::Opened(opened)),
                Step::Read(read) => {
                    match self.after_member::<K, B>(route, builder, read, Container::Array)? {
                        Following::Next(next) => p = next,
                        Following::Closed(closed) => return Ok(Step::Read(closed)),
                    }
                }
            }
        }
    }

    // Reads the members of an object, likewise. If the first has no key, the fault is of this kind.
    #[inline(always)]
    fn members<K: Original, B: Builder, const COPY: usize>(
        &mut self,
        route: Route,
        builder: &mut B,
        first: Progress,
        kind: FaultKind,
    ) -> Result<Step, Fault>
        requires { AtPair K.bytes route self.old (B.reads K.bytes builder.old)
            (B.node_room builder.old)
            (B.held_nodes builder.old) first kind }
        ensures sink { SameSink B.node_room B.lender builder.old builder.new }
        ensures stack { length self.new.stack.now ≡ length self.old.stack.now }
        ensures came { IfOk result (HasCome K.bytes route.entry self.new
            (B.reads K.bytes builder.new)
            (B.node_room builder.new) (B.held_nodes builder.new)) }
        ensures further { IfOk result (λ value. first.read < (reached value).read) }
        ensures rejected { IfErr result (IsFault K.bytes route.entry) }
    {
        let mut p = first;
        let mut kind = kind;
        'pairs: loop {
            let value = self.read_key::<K, B>(route, builder, p, kind)?;
            match self.read_value::<K, B>(route, builder, value)? {
                Step::Opened(opened) => return Ok(Step::Opened(opened)),
                Step::Read(read) => {
                    match self.after_member::<K, B>(route, builder, read, Container::Object)? {
                        Following::Next(next) => p = next,
                        Following::Closed(closed) => return Ok(Step::Read(closed)),
                    }
                }
            }
            kind = FaultKind::ExpectedObjectKey;
        }
    }
}

// The machine is compiled three times, so that its loops need not test what is known beforehand.

// The input has no backslash, so it is borrowed whole. Its last token is a closing bracket, so
// another token follows each one that is not.
pub(super) const PLAIN: usize = 0;

// The input has backslashes. Its last token is a closing bracket.
pub(super) const CLOSED: usize = 1;

// Any other input, such as a scalar by itself.
pub(super) const ANY: usize = 2;

// Appends the nodes of the tokens at the structural indexes to a list, from the root's first token
// on, by the copy of the machine with number `COPY`.
#[inline(always)]
pub(super) fn build_copy<'de, K: Original, N: FromNode<'de>, A: Allocator, const COPY: usize>(
    input: &'de mut [u8],
    scanned: Scanned<'_>,
    stack: &mut [StackState],
    list: &mut Vec<N, A>,
    max_depth: usize,
) -> Result<(), Fault>
    requires input { input.old ≡ K.bytes }
    requires scanned { IsScanOf K.bytes scanned }
    requires copy { IsForCopy COPY K.bytes scanned.structural_indexes.now }
    requires capacities { HasCapacity scanned.structural_indexes.now max_depth stack.old
        (vec_capacity list.old) }
    requires empty { list.old.items ≡ [] }
    ensures room { vec_capacity list.new ≡ vec_capacity list.old }
    ensures tape { IsTape K.bytes scanned.entry.structural_indexes.now max_depth
        (map N.item list.new.items) result }
{
    let end = input.len();
    let mut input = if COPY == PLAIN {
        Unread::plain(input)
    } else {
        Unread::with_escapes(input, scanned.escape_blocks)
    };
    let mut builder = TapeBuilder {
        input: &mut input,
        list,
    };
    let route = Route {
        indexes: scanned.structural_indexes,
        end,
        ends_closed: COPY != ANY,
        max_depth,
    };
    build::<K, TapeBuilder<'_, '_, '_, 'de, N, A>, COPY>(&mut builder, route, stack)
}

// Appends the nodes of all tokens, from the root's first token on.
#[inline(always)]
pub(super) fn build<K: Original, B: Builder, const COPY: usize>(
    builder: &mut B,
    route: Route,
    stack: &mut [StackState],
) -> Result<(), Fault>
    requires route { IsOnRoute route.ends_closed route.end K.bytes route.indexes.now }
    requires capacities { HasCapacity route.indexes.now route.max_depth stack.old
        (B.node_room builder.old) }
    requires empty { B.held_nodes builder.old ≡ [] }
    requires reads { B.reads K.bytes builder.old 0 }
    ensures sink { SameSink B.node_room B.lender builder.old builder.new }
    ensures tape { IsTape K.bytes route.entry.indexes.now route.entry.max_depth
        (B.held_nodes builder.new) result }
{
    let mut machine = Machine { stack };
    let at = route.indexes[0] as usize;
    let first = Progress {
        at,
        byte: builder.byte(at),
        container: Container::Array,
        read: 1,
        depth: 0,
        len: 0,
    };
    let mut value = machine.read_value::<K, B>(route, builder, first)?;
    'values: loop {
        value = match machine.next_member::<K, B>(route, builder, value)? {
            NextMember::Next(p, kind) => match p.container {
                Container::Array => machine.elements::<K, B, COPY>(route, builder, p)?,
                Container::Object => machine.members::<K, B, COPY>(route, builder, p, kind)?,
            },
            NextMember::End => return Ok(()),
        };
    }
}
