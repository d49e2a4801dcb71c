//! A recursive descent over tokens.
use super::bytes::{at, fault, is_whitespace};
use super::{Item, scalars, strings};
use simd_json::{Error, ErrorType, Result};
use std::alloc::Global;

// What is read so far.
#[derive(Drop)]
pub(super) struct Descent<'a> {
    bytes: &'a [u8],
    // The index of the last token that was read.
    last: usize,
    pub(super) items: Vec<Item>,
    // What strings say, one after another.
    pub(super) text: Vec<u8>,
}

impl<'a> Descent<'a> {
    pub(super) fn new(alloc: Global, bytes: &'a [u8]) -> Self {
        Descent {
            bytes,
            last: 0,
            items: Vec::new(alloc),
            text: Vec::new(alloc),
        }
    }

    fn fault(&self, i: usize, kind: ErrorType) -> Error {
        fault(self.bytes, i, kind)
    }

    // The index of the first token from an index on.
    fn token_from(&self, start: usize) -> Option<usize> {
        (start..self.bytes.len()).find(|i| !is_whitespace(at(self.bytes, *i)))
    }

    // Reads a token, which is expected: its index and its first byte.
    fn token(&mut self, start: usize) -> Result<(usize, u8)> {
        match self.token_from(start) {
            Some(i) => {
                self.last = i;
                Ok((i, at(self.bytes, i)))
            }
            None => Err(fault(self.bytes, self.last, ErrorType::Syntax)),
        }
    }

    // Reads a document of at most `levels` levels.
    pub(super) fn document(&mut self, levels: usize) -> Result<()> {
        let (first, byte) = self.token(0)?;
        let end = self.value(first, levels)?;
        if self.token_from(end).is_none() {
            return Ok(());
        }
        if matches!(byte, b'[' | b'{') {
            Err(self.fault(end.saturating_sub(1), ErrorType::InternalError))
        } else {
            Err(self.fault(first, ErrorType::TrailingData))
        }
    }

    // Reads the value whose first byte is at an index. Returns the index after it.
    #[cycle(descent)]
    fn value(&mut self, start: usize, levels: usize) -> Result<usize> {
        match at(self.bytes, start) {
            b'[' | b'{' if levels == 0 => Err(self.fault(start, ErrorType::DepthLimitExceeded)),
            b'[' => self.array(start, levels - 1),
            b'{' => self.object(start, levels - 1),
            _ => self.scalar(start),
        }
    }

    // Keeps a place for the header of a container.
    fn open(&mut self) -> Result<usize> {
        let header = self.items.len();
        self.items.push(Item::Null)?;
        Ok(header)
    }

    // How many items there are beneath a header.
    fn count(&self, header: usize) -> usize {
        self.items.len().saturating_sub(header).saturating_sub(1)
    }

    fn close(&mut self, header: usize, item: Item) {
        if let Some(place) = self.items.get_mut(header) {
            *place = item;
        }
    }

    #[cycle(descent)]
    fn array(&mut self, start: usize, levels: usize) -> Result<usize> {
        let header = self.open()?;
        let (mut next, mut byte) = self.token(start.saturating_add(1))?;
        let mut len = 0usize;
        if byte != b']' {
            for _ in 0..self.bytes.len() {
                let end = self.value(next, levels)?;
                len = len.saturating_add(1);
                (next, byte) = self.token(end)?;
                if byte != b',' {
                    break;
                }
                (next, byte) = self.token(next.saturating_add(1))?;
            }
        }
        if byte != b']' {
            return Err(self.fault(next, ErrorType::ExpectedArrayContent));
        }
        let count = self.count(header);
        self.close(header, Item::Array { len, count });
        Ok(next.saturating_add(1))
    }

    // Reads a key whose quote is at an index, a colon and a value. Returns the index after the
    // value.
    #[cycle(descent)]
    fn member(&mut self, start: usize, levels: usize) -> Result<usize> {
        let end = self.string(start)?;
        let (colon, byte) = self.token(end)?;
        if byte != b':' {
            return Err(self.fault(colon, ErrorType::ExpectedObjectColon));
        }
        let (value, _) = self.token(colon.saturating_add(1))?;
        self.value(value, levels)
    }

    #[cycle(descent)]
    fn object(&mut self, start: usize, levels: usize) -> Result<usize> {
        let header = self.open()?;
        let (mut next, mut byte) = self.token(start.saturating_add(1))?;
        let mut len = 0usize;
        if byte == b'"' {
            for _ in 0..self.bytes.len() {
                let end = self.member(next, levels)?;
                len = len.saturating_add(1);
                (next, byte) = self.token(end)?;
                if byte != b',' {
                    break;
                }
                (next, byte) = self.token(next.saturating_add(1))?;
                if byte != b'"' {
                    return Err(self.fault(next, ErrorType::ExpectedObjectKey));
                }
            }
        }
        if byte != b'}' {
            return Err(self.fault(next, ErrorType::ExpectedObjectContent));
        }
        let count = self.count(header);
        self.close(header, Item::Object { len, count });
        Ok(next.saturating_add(1))
    }

    fn scalar(&mut self, start: usize) -> Result<usize> {
        match at(self.bytes, start) {
            b'"' => self.string(start),
            b't' | b'f' | b'n' => {
                let (item, end) = scalars::word(self.bytes, start)?;
                self.items.push(item)?;
                Ok(end)
            }
            b'-' | b'0'..=b'9' => self.number(start),
            _ => Err(self.fault(start, ErrorType::InternalError)),
        }
    }

    fn number(&mut self, start: usize) -> Result<usize> {
        let (integer, end) = scalars::number_ends(self.bytes, start)?;
        let item = if integer == end {
            scalars::integer(self.bytes, start, end)?
        } else {
            Item::Decimal { start, end }
        };
        self.items.push(item)?;
        Ok(end)
    }

    fn string(&mut self, quote: usize) -> Result<usize> {
        let start = self.text.len();
        let after = strings::content(self.bytes, quote.saturating_add(1), &mut self.text)?;
        let end = self.text.len();
        self.items.push(Item::String { start, end })?;
        Ok(after)
    }
}
