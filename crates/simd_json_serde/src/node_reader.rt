//! A place in the nodes of a document.
ghost use Rattle.std.specs.Prelude.{◌≡◌, ◌+◌, ◌<◌, false, [], ◌∷◌, ◌++◌, map, slice_get, Some};
ghost use Rattle.std.specs.Prelude.{◌^◌, IfOk, IfErr, OnOk, OnErr, option_map};
ghost use Rattle.std.specs.Result.{result_ok};
ghost use Rattle.simd_json_parts.specs.Nodes.{item_of, string_item};
ghost use Rattle.simd_json_parts.specs.NodeTypes.{item_type};
ghost use Rattle.simd_json_serde.specs.Nodes.{items_of};
ghost use Rattle.simd_json_serde.specs.Steps.{IsNodeTaken, TakesNode, first_place};
ghost use Rattle.simd_json_serde.specs.Places.{spot};
ghost use Rattle.simd_json_serde.specs.Ahead.{ahead, node_ahead, string_text};
ghost use Rattle.simd_json_serde.specs.Faults.{reader_fault, IsFull, IsOfNext};

use crate::error::{FaultName, MismatchKind, StepFault};
use crate::nodes::Nodes;
use simd_json::{Node, ValueType};
use std::cell::Cell;

/// Reads the nodes of a tape as a [`serde::Format`]: for a `Deserialize` of your own.
///
/// Each step takes the next node, and returns what it says; `skip` passes a whole value.
#[derive(Drop)]
pub struct NodeReader<'n, 'i> {
    pub(crate) nodes: Nodes<'n, 'i>,
    pub(crate) at: usize,
    // Where the innermost open container ends, and where those around it do.
    pub(crate) end: usize,
    pub(crate) outer: Vec<usize>,
    // Whether the next node is a map's key, which may spell an integer or a truth value.
    pub(crate) at_key: bool,
    // Whether the next node was only looked at since the last one was taken: an error is about it.
    pub(crate) looked: bool,
    // The name of the last fault that had one.
    name: Cell<FaultName>,
}

/// A place to go back to, while the containers that are open there still are.
#[derive(Clone, Copy, Drop)]
pub struct Mark {
    pub(crate) at: usize,
    pub(crate) end: usize,
    pub(crate) depth: usize,
    pub(crate) at_key: bool,
}

impl<'n, 'i> NodeReader<'n, 'i> {
    /// Begins at the first node. The list is used for the containers that are open: what it holds
    /// does not matter.
    pub fn new(nodes: &'n [Node<'i>], outer: Vec<usize>) -> NodeReader<'n, 'i>
        ensures { spot result ≡ first_place (map item_of nodes.now) }
    {
        NodeReader::of(Nodes::Listed(nodes), outer)
    }

    // The same of other nodes.
    pub(crate) fn of(nodes: Nodes<'n, 'i>, mut outer: Vec<usize>) -> NodeReader<'n, 'i>
        ensures place { spot result ≡ first_place (items_of nodes.entry) }
        ensures nodes { result.nodes ≡ nodes.entry }
    {
        outer.clear();
        NodeReader {
            nodes,
            at: 0,
            end: nodes.len(),
            outer,
            at_key: false,
            looked: false,
            name: Cell::new(FaultName::new()),
        }
    }

    /// The list of [`new`](NodeReader::new), for the next reader.
    pub fn into_outer(self) -> Vec<usize> {
        let NodeReader { outer, .. } = self;
        outer
    }

    // That the value does not fit, with a name.
    #[cold]
    #[inline(never)]
    pub(crate) fn named_fault(&self, kind: MismatchKind, name: &str) -> StepFault
        ensures { result ≡ reader_fault self.now kind }
    {
        self.name.set(FaultName::of(name));
        self.fault(kind)
    }

    // What `named_fault` kept last.
    pub(crate) fn last_name(&self) -> FaultName {
        self.name.get()
    }

    // That the value does not fit: the value that was looked at, or else the one around the last
    // node, on the level that the reader is on.
    #[cold]
    #[inline(never)]
    pub(crate) fn fault(&self, kind: MismatchKind) -> StepFault
        ensures { result ≡ reader_fault self.now kind }
    {
        let node = if self.looked {
            self.at
        } else {
            self.at.saturating_sub(1)
        };
        StepFault {
            kind,
            node,
            depth: self.outer.len(),
        }
    }

    #[cold]
    #[inline(never)]
    pub(crate) fn unexpected(&self, expected: ValueType, got: Node<'i>) -> StepFault
        ensures { result ≡ reader_fault self.now (MismatchKind.InvalidType expected
            (item_type (item_of got.entry))) }
    {
        let got = got.value_type();
        self.fault(MismatchKind::InvalidType { expected, got })
    }

    // The next node of the innermost container.
    #[inline(always)]
    pub(crate) fn look(&self) -> Result<Node<'i>, StepFault>
        ensures taken { IfOk result (λ n. (self.now.at < self.now.end)
            × (slice_get (items_of self.now.nodes) self.now.at ≡ Some (item_of n))) }
        ensures exact { option_map item_of (result_ok result) ≡ node_ahead (spot self.now) }
        ensures none { IfErr result (λ e. e ≡ reader_fault self.now MismatchKind.MissingValue) }
    {
        match self.nodes.get(self.at) {
            Some(node) if self.at < self.end => Ok(node),
            _ => Err(self.fault(MismatchKind::MissingValue)),
        }
    }

    // The next node, which is passed.
    #[inline(always)]
    pub(crate) fn take(&mut self) -> Result<Node<'i>, StepFault>
        ensures taken { IfOk result
            (λ n. IsNodeTaken (spot self.old) (item_of n) (spot self.new)) }
        ensures exact { option_map item_of (result_ok result) ≡ node_ahead (spot self.old) }
        ensures kept { self.new.outer ≡ self.old.outer }
        ensures fresh { OnOk result (self.new.looked ≡ false) }
        ensures none { IfErr result (λ e. e ≡ reader_fault self.old MismatchKind.MissingValue) }
    {
        let node = self.look()?;
        self.pass();
        Ok(node)
    }

    // Passes the next node.
    #[inline(always)]
    pub(crate) fn pass(&mut self)
        requires { self.old.at < self.old.end }
        ensures place { spot self.new ≡ record (spot self.old) {
          at = self.old.at + 1;
          at_key = false;
        } }
        ensures kept { self.new.outer ≡ self.old.outer }
        ensures fresh { self.new.looked ≡ false }
    {
        self.at += 1;
        self.at_key = false;
        self.looked = false;
    }

    #[inline(always)]
    pub(crate) fn take_string(&mut self) -> Result<&'i str, StepFault>
        ensures taken { IfOk result (λ s. TakesNode (spot self.old)
            (λ _ item. item ≡ string_item s.now) (spot self.new)) }
        ensures exact { option_map (λ s. s.now) (result_ok result)
            ≡ ahead string_text (spot self.old) }
        ensures place { IfErr result (IsOfNext self.old) }
        ensures fresh { OnOk result (self.new.looked ≡ false) }
        ensures kept { self.new.outer ≡ self.old.outer }
    {
        match self.nodes.string(self.at) {
            Some(text) if self.at < self.end => {
                self.pass();
                Ok(text)
            }
            _ => Err(self.no_string()),
        }
    }

    // That the next node is no string, or that there is none.
    #[cold]
    #[inline(never)]
    fn no_string(&mut self) -> StepFault
        ensures place { IsOfNext self.old result }
        ensures kept { self.new.outer ≡ self.old.outer }
    {
        match self.take() {
            Ok(other) => self.unexpected(ValueType::String, other),
            Err(fault) => fault,
        }
    }

    // Enters a container, whose header was taken and says how many nodes are beneath it.
    #[inline(always)]
    pub(crate) fn enter(&mut self, count: usize) -> Result<(), StepFault>
        ensures entered { OnOk result (spot self.new ≡ record (spot self.old) {
          end = self.old.at + count;
          outer = self.old.outer.items ++ self.old.end ∷ [];
        }) }
        ensures err { IfErr result (λ e. self.old.at + count < 2 ^ 64 → IsFull self.old e) }
        ensures place { IfErr result (λ e. e ≡ reader_fault self.old e.kind) }
    {
        let Some(end) = self.at.checked_add(count) else {
            return Err(self.fault(MismatchKind::MissingValue));
        };
        if self.outer.push(self.end).is_err() {
            return Err(self.fault(MismatchKind::OutOfMemory));
        }
        self.end = end;
        Ok(())
    }

    // Leaves the innermost container.
    #[inline(always)]
    pub(crate) fn leave(&mut self) -> Result<(), StepFault>
        ensures left { OnOk result ((self.new.at ≡ self.old.at)
            × (self.old.outer.items ≡ self.new.outer.items ++ self.new.end ∷ [])
            × (self.new.nodes ≡ self.old.nodes) × (self.new.at_key ≡ self.old.at_key)) }
        ensures err { OnErr result (self.old.outer.items ≡ []) }
        ensures none { IfErr result (λ e. e ≡ reader_fault self.old MismatchKind.MissingValue) }
    {
        match self.outer.pop() {
            Some(end) => {
                self.end = end;
                Ok(())
            }
            None => Err(self.fault(MismatchKind::MissingValue)),
        }
    }
}
