//! The steps of a read.
ghost use Rattle.std.specs.Prelude.{◌≡◌, ◌≢◌, ◌≤◌, ◌⊎◌, ◌↔◌, ◌+◌, ℕ, List, [], true, false, length};
ghost use Rattle.std.specs.Prelude.{slice_get, take, nat_lt, is_some, IsTrue, MatchBool};
ghost use Rattle.std.specs.Prelude.{MatchOption, Some, None, IfOk, IfErr, OnOk, OnErr, encode_utf8};
ghost use Rattle.std.specs.Prelude.{slice_range, string_bytes};
ghost use Rattle.std.specs.Result.{result_ok};
ghost use Rattle.std.specs.Char.{IsScalar};
ghost use Rattle.std.specs.Float.{binary32, binary64};
ghost use Rattle.serde.specs.Event.{boolean, signed as signed_event, unsigned as unsigned_event};
ghost use Rattle.serde.specs.Event.{single, double, character, text as text_event, nothing};
ghost use Rattle.serde.specs.Event.{seq_begins, seq_ends, map_begins, map_ends, key_begins, octets};
ghost use Rattle.serde.specs.Event.{struct_begins};
ghost use Rattle.simd_json_serde.specs.Ahead.{ahead, truth, signed, unsigned, float, string_text};
ghost use Rattle.simd_json_serde.specs.Ahead.{kind_in, is_null, array_count, object_count};
ghost use Rattle.simd_json_serde.specs.Ahead.{CanEnter, CanSkip, NothingIsLeft, AreBytesAhead};
ghost use Rattle.simd_json_serde.specs.Faults.{reader_fault, length_fault, IsFull, IsOfNext};
ghost use Rattle.simd_json_serde.specs.Places.{spot, LiesAhead};
ghost use Rattle.simd_json_parts.specs.Document.{Document};
ghost use Rattle.simd_json_parts.specs.Headers.{count_of};
ghost use Rattle.simd_json_parts.specs.Listing.{listing};
ghost use Rattle.simd_json_parts.specs.Nodes.{Item, item_of};
ghost use Rattle.simd_json_serde.specs.Nodes.{items_of};
ghost use Rattle.simd_json_serde.specs.declared.node_reader.NodeReader.{NodeReader as SpecReader};
ghost use Rattle.simd_json_serde.specs.Steps.{ReadsAs, PicksName, Stands, AreBytesAt, Closes};

use crate::error::{MismatchKind, StepFault};
use crate::node_reader::{Mark, NodeReader};
use crate::numbers::is_integer_key;
use serde::{Format, Kind, Name};
use simd_json::{Node, StaticNode, ValueType};
use std::alloc::Global;
use std::num::{nearest_i64_to_f32, nearest_u64_to_f32};

impl<'n, 'i> Format for NodeReader<'n, 'i> {
    type Error = StepFault;

    type Mark = Mark;

    ghost gives = { λ old _ e new. ReadsAs (spot old) e (spot new) };

    ghost picks = { λ old _ is_key names at new.
        PicksName (spot old) is_key names at (spot new) };

    ghost stays = { λ old new. spot new ≡ spot old };

    #[inline(always)]
    fn bool(&mut self, _input: &[u8]) -> Result<bool, StepFault>
        ensures given { IfOk result (λ v. ReadsAs (spot self.old) (boolean v) (spot self.new)) }
        ensures exact { self.old.at_key ≡ false
            → result_ok result ≡ ahead truth (spot self.old) }
        ensures place { IfErr result (IsOfNext self.old) }
    {
        let at_key = self.at_key;
        match self.take()? {
            Node::Static(StaticNode::Bool(b)) => Ok(b),
            Node::String("true") if at_key => Ok(true),
            Node::String("false") if at_key => Ok(false),
            other => Err(self.unexpected(ValueType::Bool, other)),
        }
    }

    #[inline(always)]
    fn i64(&mut self, _input: &[u8]) -> Result<i64, StepFault>
        ensures given { IfOk result
            (λ v. ReadsAs (spot self.old) (signed_event v) (spot self.new)) }
        ensures exact { self.old.at_key ≡ false
            → result_ok result ≡ ahead (signed 64) (spot self.old) }
        ensures place { IfErr result (IsOfNext self.old) }
    {
        let at_key = self.at_key;
        match self.take()? {
            Node::Static(StaticNode::I64(n)) => Ok(n),
            Node::Static(StaticNode::U64(n)) => self.fitting(i64::try_from(n).ok()),
            Node::Static(StaticNode::I128(n)) => self.fitting(i64::try_from(n).ok()),
            Node::Static(StaticNode::U128(n)) => self.fitting(i64::try_from(n).ok()),
            Node::String(key) if at_key && is_integer_key(key) => match key.parse::<i64>() {
                Ok(n) => Ok(n),
                Err(_) => Err(self.fault(MismatchKind::InvalidValue)),
            },
            other => Err(self.unexpected(ValueType::I64, other)),
        }
    }

    #[inline(always)]
    fn u64(&mut self, _input: &[u8]) -> Result<u64, StepFault>
        ensures given { IfOk result
            (λ v. ReadsAs (spot self.old) (unsigned_event v) (spot self.new)) }
        ensures exact { self.old.at_key ≡ false
            → result_ok result ≡ ahead (unsigned 64) (spot self.old) }
        ensures place { IfErr result (IsOfNext self.old) }
    {
        match self.nodes.natural(self.at) {
            Some(n) if self.at < self.end => {
                self.pass();
                Ok(n)
            }
            _ => self.other_u64(),
        }
    }

    fn i128(&mut self, _input: &[u8]) -> Result<i128, StepFault>
        ensures given { IfOk result
            (λ v. ReadsAs (spot self.old) (signed_event v) (spot self.new)) }
        ensures exact { self.old.at_key ≡ false
            → result_ok result ≡ ahead (signed 128) (spot self.old) }
        ensures place { IfErr result (IsOfNext self.old) }
    {
        let at_key = self.at_key;
        match self.take()? {
            Node::Static(StaticNode::I64(n)) => Ok(n as i128),
            Node::Static(StaticNode::U64(n)) => Ok(n as i128),
            Node::Static(StaticNode::I128(n)) => Ok(n),
            Node::Static(StaticNode::U128(n)) => self.fitting(i128::try_from(n).ok()),
            Node::String(key) if at_key && is_integer_key(key) => match key.parse::<i128>() {
                Ok(n) => Ok(n),
                Err(_) => Err(self.fault(MismatchKind::InvalidValue)),
            },
            other => Err(self.unexpected(ValueType::I128, other)),
        }
    }

    fn u128(&mut self, _input: &[u8]) -> Result<u128, StepFault>
        ensures given { IfOk result
            (λ v. ReadsAs (spot self.old) (unsigned_event v) (spot self.new)) }
        ensures exact { self.old.at_key ≡ false
            → result_ok result ≡ ahead (unsigned 128) (spot self.old) }
        ensures place { IfErr result (IsOfNext self.old) }
    {
        let at_key = self.at_key;
        match self.take()? {
            Node::Static(StaticNode::U64(n)) => Ok(n as u128),
            Node::Static(StaticNode::U128(n)) => Ok(n),
            Node::Static(StaticNode::I64(n)) => self.fitting(u128::try_from(n).ok()),
            Node::Static(StaticNode::I128(n)) => self.fitting(u128::try_from(n).ok()),
            Node::String(key) if at_key && is_integer_key(key) => match key.parse::<u128>() {
                Ok(n) => Ok(n),
                Err(_) => Err(self.fault(MismatchKind::InvalidValue)),
            },
            other => Err(self.unexpected(ValueType::U128, other)),
        }
    }

    fn f32(&mut self, _input: &[u8]) -> Result<f32, StepFault>
        ensures given { IfOk result (λ v. ReadsAs (spot self.old) (single v) (spot self.new)) }
        ensures exact { result_ok result ≡ ahead (float binary32) (spot self.old) }
        ensures place { IfErr result (IsOfNext self.old) }
    {
        let mut digits = itoa::Buffer::new();
        match self.take()? {
            Node::Decimal(literal) => self.nearest_f32(literal),
            Node::Static(StaticNode::I64(n)) => Ok(nearest_i64_to_f32(n)),
            Node::Static(StaticNode::U64(n)) => Ok(nearest_u64_to_f32(n)),
            Node::Static(StaticNode::I128(n)) => self.nearest_f32(digits.format(n)),
            Node::Static(StaticNode::U128(n)) => self.nearest_f32(digits.format(n)),
            other => Err(self.unexpected(ValueType::Decimal, other)),
        }
    }

    #[inline(always)]
    fn f64(&mut self, _input: &[u8]) -> Result<f64, StepFault>
        ensures given { IfOk result (λ v. ReadsAs (spot self.old) (double v) (spot self.new)) }
        ensures exact { result_ok result ≡ ahead (float binary64) (spot self.old) }
        ensures place { IfErr result (IsOfNext self.old) }
    {
        match self.nodes.literal(self.at) {
            Some(literal) if self.at < self.end => {
                self.pass();
                self.nearest_f64(literal)
            }
            _ => self.other_f64(),
        }
    }

    fn char(&mut self, _input: &[u8]) -> Result<char, StepFault>
        ensures given { IfOk result (λ v. ReadsAs (spot self.old) (character v) (spot self.new)) }
        ensures ok { IfOk result (λ c. ahead string_text (spot self.old) ≡ Some (encode_utf8 c)) }
        ensures err { OnErr result ((c : ℕ) → IsScalar c
            → ahead string_text (spot self.old) ≢ Some (encode_utf8 c)) }
        ensures place { IfErr result (IsOfNext self.old) }
    {
        match self.take_string()?.parse::<char>() {
            Ok(c) => Ok(c),
            Err(_) => Err(self.fault(MismatchKind::InvalidValue)),
        }
    }

    // Where the string is in the input. The bytes there are compared, so that nothing else has to
    // be known of them.
    #[inline(always)]
    fn plain_str(&mut self, input: &[u8]) -> Result<(usize, usize), StepFault>
        ensures given { IfOk result (λ r. ReadsAs (spot self.old)
            (text_event (slice_range input.now r.0 r.1)) (spot self.new)) }
        ensures err { OnErr result (LiesAhead self.old input.now → ⊥) }
        ensures place { IfErr result (IsOfNext self.old) }
    {
        let start = self.nodes.start(self.at);
        let text = self.take_string()?;
        let Some(start) = start else {
            return Err(self.fault(MismatchKind::InvalidValue));
        };
        let end = start.saturating_add(text.len());
        if input.get(start..end) == Some(text.as_bytes()) {
            Ok((start, end))
        } else {
            Err(self.fault(MismatchKind::InvalidValue))
        }
    }

    fn plain_bytes(&mut self, input: &[u8]) -> Result<(usize, usize), StepFault>
        ensures given { IfOk result (λ r. ReadsAs (spot self.old)
            (octets (slice_range input.now r.0 r.1)) (spot self.new)) }
        ensures err { OnErr result (LiesAhead self.old input.now → ⊥) }
        ensures place { IfErr result (IsOfNext self.old) }
    {
        self.plain_str(input)
    }

    #[inline(always)]
    fn string(&mut self, alloc: Global, _input: &[u8]) -> Result<String, StepFault>
        ensures given { IfOk result
            (λ v. ReadsAs (spot self.old) (text_event (string_bytes v)) (spot self.new)) }
        ensures ok { IfOk result (λ s. ahead string_text (spot self.old) ≡ Some (string_bytes s)) }
        ensures err { IfErr result (λ e. (e.kind ≡ MismatchKind.OutOfMemory)
            ⊎ (ahead string_text (spot self.old) ≡ None)) }
        ensures place { IfErr result (IsOfNext self.old) }
    {
        match String::from_str(alloc, self.take_string()?) {
            Ok(text) => Ok(text),
            Err(_) => Err(self.fault(MismatchKind::OutOfMemory)),
        }
    }

    // A string, or an array of integers.
    fn byte_buf(&mut self, alloc: Global, input: &[u8]) -> Result<Vec<u8>, StepFault>
        ensures given { IfOk result
            (λ v. ReadsAs (spot self.old) (octets v.items) (spot self.new)) }
        ensures err { IfErr result (λ e. (bytes : List ℕ)
            → AreBytesAhead (spot self.old) bytes → e.kind ≡ MismatchKind.OutOfMemory) }
        ensures place { IfErr result (λ e. ahead array_count (spot self.old) ≡ None
            → IsOfNext self.old e) }
    {
        if let Node::String(_) = self.look()? {
            return match Vec::from_slice(alloc, self.take_string()?.as_bytes()) {
                Ok(bytes) => Ok(bytes),
                Err(_) => Err(self.fault(MismatchKind::OutOfMemory)),
            };
        }
        self.begin_seq(input)?;
        self.bytes_inside(alloc, input)
    }

    fn peek(&mut self, _input: &[u8]) -> Result<Kind, StepFault>
        ensures stays { OnOk result (spot self.new ≡ spot self.old) }
        ensures exact { result_ok result
            ≡ ahead (λ item. Some (kind_in item)) (spot self.old) }
        ensures place { IfErr result (IsOfNext self.old) }
    {
        let node = self.look()?;
        self.looked = true;
        Ok(kind_of(&node))
    }

    #[inline(always)]
    fn take_unit(&mut self, _input: &[u8]) -> Result<bool, StepFault>
        ensures given { IfOk result
            (λ b. MatchBool b (ReadsAs (spot self.old) nothing (spot self.new))
            (spot self.new ≡ spot self.old)) }
        ensures exact { result_ok result
            ≡ ahead (λ item. Some (is_null item)) (spot self.old) }
        ensures place { IfErr result (IsOfNext self.old) }
    {
        if let Node::Static(StaticNode::Null) = self.look()? {
            self.take()?;
            return Ok(true);
        }
        self.looked = true;
        Ok(false)
    }

    #[inline(always)]
    fn take_none(&mut self, input: &[u8]) -> Result<bool, StepFault>
        ensures given { IfOk result
            (λ b. MatchBool b (ReadsAs (spot self.old) nothing (spot self.new))
            (spot self.new ≡ spot self.old)) }
        ensures exact { result_ok result
            ≡ ahead (λ item. Some (is_null item)) (spot self.old) }
        ensures place { IfErr result (IsOfNext self.old) }
    {
        self.take_unit(input)
    }

    #[inline(always)]
    fn begin_seq(&mut self, _input: &[u8]) -> Result<(), StepFault>
        ensures given { OnOk result (ReadsAs (spot self.old) (seq_begins None) (spot self.new)) }
        ensures err { IfErr result (λ e. CanEnter array_count (spot self.old)
            → IsFull self.old e) }
        ensures place { IfErr result (IsOfNext self.old) }
    {
        match self.take()? {
            Node::Array { count, .. } => self.enter(count),
            other => Err(self.unexpected(ValueType::Array, other)),
        }
    }

    #[inline(always)]
    fn next_item(&mut self, _input: &[u8]) -> Result<bool, StepFault>
        ensures given { IfOk result (λ b. MatchBool b (spot self.new ≡ spot self.old)
            (ReadsAs (spot self.old) seq_ends (spot self.new))) }
        ensures more { IfOk result (λ b. b ≡ nat_lt self.old.at self.old.end) }
        ensures err { OnErr result (NothingIsLeft (spot self.old)) }
        ensures place { IfErr result (IsOfNext self.old) }
    {
        if self.at < self.end {
            self.looked = true;
            return Ok(true);
        }
        self.leave()?;
        Ok(false)
    }

    #[inline(always)]
    fn begin_map(&mut self, _input: &[u8]) -> Result<(), StepFault>
        ensures given { OnOk result (ReadsAs (spot self.old) (map_begins None) (spot self.new)) }
        ensures err { IfErr result (λ e. CanEnter object_count (spot self.old)
            → IsFull self.old e) }
        ensures place { IfErr result (IsOfNext self.old) }
    {
        match self.take()? {
            Node::Object { count, .. } => self.enter(count),
            other => Err(self.unexpected(ValueType::Object, other)),
        }
    }

    #[inline(always)]
    fn begin_struct(&mut self, _input: &[u8]) -> Result<bool, StepFault>
        ensures given { IfOk result
            (λ b. ReadsAs (spot self.old) (struct_begins b) (spot self.new)
            ⊎ ((looked : SpecReader) × (spot looked ≡ spot self.old)
            × ReadsAs (spot looked) (struct_begins b) (spot self.new))) }
        ensures header { IfOk result
            (λ b. ReadsAs (spot self.old) (struct_begins b) (spot self.new)) }
        ensures err { IfErr result (λ e. CanEnter array_count (spot self.old)
            ⊎ CanEnter object_count (spot self.old) → IsFull self.old e) }
        ensures place { IfErr result (IsOfNext self.old) }
    {
        match self.take()? {
            Node::Object { count, .. } => {
                self.enter(count)?;
                Ok(false)
            }
            Node::Array { count, .. } => {
                self.enter(count)?;
                Ok(true)
            }
            other => Err(self.unexpected(ValueType::Object, other)),
        }
    }

    #[inline(always)]
    fn next_key(&mut self, _input: &[u8], names: &[Name<'_>]) -> Result<Option<usize>, StepFault>
        ensures given { IfOk result
            (λ o. MatchOption o (ReadsAs (spot self.old) map_ends (spot self.new))
            (λ at. PicksName (spot self.old) true names.now at (spot self.new))) }
        ensures more { IfOk result (λ o. is_some o ≡ nat_lt self.old.at self.old.end) }
        ensures err { OnErr result
            (NothingIsLeft (spot self.old) ⊎ (ahead string_text (spot self.old) ≡ None)) }
        ensures place { IfErr result (IsOfNext self.old) }
    {
        if self.at < self.end {
            return Ok(Some(serde::find(names, self.take_string()?)));
        }
        self.leave()?;
        Ok(None)
    }

    #[inline(always)]
    fn next_entry(&mut self, _input: &[u8]) -> Result<bool, StepFault>
        ensures given { IfOk result
            (λ b. MatchBool b (ReadsAs (spot self.old) key_begins (spot self.new))
            (ReadsAs (spot self.old) map_ends (spot self.new))) }
        ensures more { IfOk result (λ b. b ≡ nat_lt self.old.at self.old.end) }
        ensures err { OnErr result (NothingIsLeft (spot self.old)) }
        ensures place { IfErr result (IsOfNext self.old) }
    {
        if self.at < self.end {
            self.at_key = true;
            return Ok(true);
        }
        self.leave()?;
        Ok(false)
    }

    fn variant(&mut self, _input: &[u8], names: &[Name<'_>]) -> Result<usize, StepFault>
        ensures given { IfOk result
            (λ at. PicksName (spot self.old) false names.now at (spot self.new)) }
        ensures err { OnErr result (ahead string_text (spot self.old) ≡ None) }
        ensures place { IfErr result (IsOfNext self.old) }
    {
        Ok(serde::find(names, self.take_string()?))
    }

    // A container's members are passed in one step.
    #[inline(always)]
    fn skip(&mut self, _input: &[u8]) -> Result<(), StepFault>
        ensures passed { OnOk result ((item : Item)
            × (slice_get (items_of self.old.nodes) self.old.at ≡ Some item)
            × (spot self.new ≡ record (spot self.old) {
              at = self.old.at + 1 + count_of item;
              at_key = false;
            })) }
        ensures value { OnOk result ((d : Document) → Stands (spot self.old) d
            → self.new.at ≡ self.old.at + length (listing d)) }
        ensures err { OnErr result (CanSkip (spot self.old) → ⊥) }
        ensures place { IfErr result (IsOfNext self.old) }
    {
        let node = self.take()?;
        let count = node.count();
        let Some(at) = self.at.checked_add(count) else {
            return Err(self.fault(MismatchKind::MissingValue));
        };
        self.at = at;
        Ok(())
    }

    fn mark(&mut self) -> Mark
        ensures stays { spot self.new ≡ spot self.old }
        ensures here { (result.at ≡ self.old.at) × (result.end ≡ self.old.end)
            × (result.depth ≡ length self.old.outer.items)
            × (result.at_key ≡ self.old.at_key) }
    {
        Mark {
            at: self.at,
            end: self.end,
            depth: self.outer.len(),
            at_key: self.at_key,
        }
    }

    fn rewind(&mut self, mark: Mark)
        ensures { spot self.new ≡ record (spot self.old) {
          at = mark.at;
          end = mark.end;
          at_key = mark.at_key;
          outer = take mark.depth self.old.outer.items;
        } }
    {
        self.at = mark.at;
        self.end = mark.end;
        self.at_key = mark.at_key;
        self.outer.truncate(mark.depth);
        self.looked = true;
    }

    fn release(&mut self, _mark: Mark)
        ensures { spot self.new ≡ spot self.old }
    {}

    fn is_fatal(&self, error: &StepFault) -> bool
        ensures { IsTrue result ↔ (error.now.kind ≡ MismatchKind.OutOfMemory) }
    {
        error.is_memory()
    }

    #[cold]
    fn missing(&self, name: &str) -> StepFault
        ensures { result ≡ reader_fault self.now MismatchKind.MissingField }
    {
        self.named_fault(MismatchKind::MissingField, name)
    }

    #[cold]
    fn duplicate(&self, name: &str) -> StepFault
        ensures { result ≡ reader_fault self.now MismatchKind.DuplicateField }
    {
        self.named_fault(MismatchKind::DuplicateField, name)
    }

    #[cold]
    fn unknown_key(&self) -> StepFault
        ensures { result ≡ reader_fault self.now MismatchKind.UnknownField }
    {
        self.fault(MismatchKind::UnknownField)
    }

    #[cold]
    fn unknown_variant(&self) -> StepFault
        ensures { result ≡ reader_fault self.now MismatchKind.UnknownVariant }
    {
        self.fault(MismatchKind::UnknownVariant)
    }

    // Where an item was seen, the array was not left yet.
    #[cold]
    fn wrong_len(&self) -> StepFault
        ensures { result ≡ length_fault self.now }
    {
        let mut fault = self.fault(MismatchKind::InvalidLength);
        if self.looked {
            fault.depth = fault.depth.saturating_sub(1);
        }
        fault
    }

    #[cold]
    fn invalid(&self) -> StepFault
        ensures { result ≡ reader_fault self.now MismatchKind.InvalidValue }
    {
        self.fault(MismatchKind::InvalidValue)
    }

    #[cold]
    fn no_memory(&self) -> StepFault
        ensures { result ≡ reader_fault self.now MismatchKind.OutOfMemory }
    {
        self.fault(MismatchKind::OutOfMemory)
    }

    #[cold]
    fn custom(&self, message: &str) -> StepFault
        ensures { result ≡ reader_fault self.now MismatchKind.Custom }
    {
        self.named_fault(MismatchKind::Custom, message)
    }
}

impl<'n, 'i> NodeReader<'n, 'i> {
    // The integers of the array that is open, as bytes.
    fn bytes_inside(&mut self, alloc: Global, input: &[u8]) -> Result<Vec<u8>, StepFault>
        requires at { self.old.at ≤ self.old.end }
        requires value { self.old.at_key ≡ false }
        requires open { self.old.outer.items ≢ [] }
        ensures given { IfOk result (λ v. AreBytesAt (items_of self.old.nodes) self.old.at v.items
            × (self.old.at + length v.items ≡ self.old.end)) }
        ensures closed { OnOk result
            (Closes (record (spot self.old) { at = self.old.end }) (spot self.new)) }
        ensures err { IfErr result (λ e. (bytes : List ℕ)
            → self.old.at + length bytes ≡ self.old.end
            → AreBytesAt (items_of self.old.nodes) self.old.at bytes
            → e.kind ≡ MismatchKind.OutOfMemory) }
    {
        let mut bytes = Vec::new(alloc);
        'bytes: while self.at < self.end {
            let Ok(byte) = u8::try_from(self.u64(input)?) else {
                return Err(self.fault(MismatchKind::InvalidValue));
            };
            if bytes.push(byte).is_err() {
                return Err(self.fault(MismatchKind::OutOfMemory));
            }
        }
        self.leave()?;
        Ok(bytes)
    }
}

// The kind of a node, as serde knows it.
fn kind_of(node: &Node<'_>) -> Kind
    ensures { result ≡ kind_in (item_of node.now) }
{
    match node {
        Node::Static(StaticNode::Null) => Kind::Unit,
        Node::Static(StaticNode::Bool(_)) => Kind::Bool,
        Node::Static(StaticNode::I64(_)) => Kind::Signed,
        Node::Static(StaticNode::U64(_)) => Kind::Unsigned,
        // Types that ask, as `Value` of `serde_json`, have no integer past 64 bits.
        Node::Static(StaticNode::I128(_) | StaticNode::U128(_)) | Node::Decimal(_) => Kind::Float,
        Node::String(_) => Kind::Str,
        Node::Array { .. } => Kind::Seq,
        Node::Object { .. } => Kind::Map,
    }
}
