//! A row, and its question.
use crate::bytes::{decoded, encoded};
use crate::paths::{located, selected};
use crate::pointers::pointed;
use crate::{doors, printing};
use anyhow::{Result, bail};
use simd_json::{Buffers, DEFAULT_MAX_DEPTH};
use std::alloc::Global;

/// What lasts from row to row: buffers, as long as rows have their limit, and the document that
/// pointers and queries look into.
#[derive(Drop)]
pub struct Rows {
    alloc: Global,
    used: Buffers,
    limit: usize,
    document: Vec<u8>,
}

impl Rows {
    pub fn new(alloc: Global) -> Result<Rows> {
        Ok(Rows {
            alloc,
            used: Buffers::new(alloc, 0)?,
            limit: DEFAULT_MAX_DEPTH,
            document: Vec::new(alloc),
        })
    }

    /// The row with the result that is found, or another line as it is.
    pub fn answered(&mut self, line: &str) -> Result<String> {
        if line.is_empty() || line.starts_with("#") {
            return Ok(line.to_string(self.alloc)?);
        }
        let (row, _) = line.split_once(" => ").unwrap_or((line, ""));
        let (question, input) = row.split_once(" ").unwrap_or((row, ""));
        let bytes = decoded(self.alloc, input)?;
        if question == "document" {
            self.document = bytes;
            return Ok(line.to_string(self.alloc)?);
        }
        let (asked, number) = question.split_once(":").unwrap_or((question, ""));
        let number = if number.is_empty() {
            DEFAULT_MAX_DEPTH
        } else {
            number.parse::<usize>()?
        };
        let answer = self.answer(asked, bytes.as_slice(), number)?;
        let answer = encoded(self.alloc, answer.as_str())?;
        Ok(format!(in self.alloc; "{row} => {answer}")?)
    }

    // `number` is the depth limit, or in `padded` the length of the document.
    fn answer(&mut self, asked: &str, input: &[u8], number: usize) -> Result<String> {
        match asked {
            "parse" => {
                self.limit_to(number)?;
                doors::parse(self.alloc, &mut self.used, input, number)
            }
            "padded" => {
                self.limit_to(DEFAULT_MAX_DEPTH)?;
                doors::padded(self.alloc, &mut self.used, input, number)
            }
            "indexes" => doors::indexes(self.alloc, input, number),
            "locate" => doors::located(self.alloc, input, number),
            "compact" => printing::printed(self.alloc, input, false),
            "pretty" => printing::printed(self.alloc, input, true),
            "pointer" => {
                let pointer = std::str::from_utf8(input)?;
                pointed(self.alloc, self.document.as_slice(), pointer)
            }
            "path" => {
                let query = std::str::from_utf8(input)?;
                selected(self.alloc, self.document.as_slice(), query)
            }
            "paths" => {
                let query = std::str::from_utf8(input)?;
                located(self.alloc, self.document.as_slice(), query)
            }
            _ => bail!("a row asks for {asked}"),
        }
    }

    fn limit_to(&mut self, limit: usize) -> Result<()> {
        if self.limit != limit {
            self.used = Buffers::empty(self.alloc, limit);
            self.limit = limit;
        }
        Ok(())
    }
}
