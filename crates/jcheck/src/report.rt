//! What is written about an input, and how the program ends.
ghost use Rattle.std.specs.Prelude.{◌≡◌, ◌∷◌, ◌++◌, [], false, is_none, string_bytes};
ghost use Rattle.std.specs.Prelude.{IfOk, IfErr, OnOk, OnErr};
ghost use Rattle.std.specs.Io.KnownBytes.{Appends};
ghost use Rattle.jcheck.specs.Endings.{HasChecked, ended_of, is_closed, ended_status, worse};
ghost use Rattle.simd_json_check.specs.Reasons.{found_in};
ghost use Rattle.jcheck.specs.Reports.{checked_text, whole_text, words};
ghost use Rattle.jcheck.specs.Writings.{HasStopped};
ghost use Rattle.simd_json_parts.specs.Bytes.{line_feed};
ghost use Rattle.simd_json_print.specs.Texts.{Adds};

use crate::checker::DocumentChecker;
use crate::excerpt::{Style, excerpt};
use crate::failure::Failure;
use programs::Channel;
use simd_json_check::Location;
use simd_json_print::text::{Target, Text};
use std::alloc::{AllocError, Global};
use std::io::Write;

/// How many bytes are collected before they are written.
pub const PIECE: usize = 8192;

/// How the program ends.
#[derive(Clone, Copy, Debug, PartialEq, Eq)]
pub enum Ended {
    /// Each input is a document.
    Clean,
    /// An input was rejected.
    Rejected,
    /// A file can't be read, or a report can't be written.
    Failed,
}

impl Ended {
    /// Returns the exit status of the program.
    pub fn status(self) -> u8
        ensures { result ≡ ended_status self }
    {
        match self {
            Ended::Clean => 0,
            Ended::Rejected => 1,
            Ended::Failed => 3,
        }
    }

    // How the program ends after a check that returned this.
    fn of(checked: &Result<bool, Failure>) -> Ended
        ensures { result ≡ ended_of checked.now }
    {
        match checked {
            Ok(true) => Ended::Clean,
            Ok(false) => Ended::Rejected,
            Err(e) if e.has_closed() => Ended::Rejected,
            Err(_) => Ended::Failed,
        }
    }

    /// Returns how the program ends after two inputs: the worse of the two.
    pub fn and(self, other: Ended) -> Ended
        ensures { result ≡ worse self other }
    {
        match (self, other) {
            (Ended::Clean, _) => other,
            (Ended::Rejected, Ended::Clean) => Ended::Rejected,
            (Ended::Rejected, _) => other,
            (Ended::Failed, _) => Ended::Failed,
        }
    }
}

/// Returns whether nobody reads the output any more.
pub fn is_closed(checked: &Result<bool, Failure>) -> bool
    ensures { result ≡ is_closed checked.now }
{
    match checked {
        Ok(_) => false,
        Err(e) => e.has_closed(),
    }
}

/// Checks the files one after another, and returns the worst of how they ended. An error does not
/// stop it, unless nobody reads the output any more: that is not a failure, but the other files are
/// skipped.
pub fn check_each<'a, F: FnMut(&'a str) -> Result<bool, Failure>>(
    mut check: F,
    files: &[&'a str],
) -> Ended
    requires { F.IsAlwaysCallable check }
    ensures { HasChecked F.step check files.now result }
{
    let mut ended = Ended::Clean;
    for file in files {
        let checked = check(*file);
        ended = ended.and(Ended::of(&checked));
        if is_closed(&checked) {
            return ended;
        }
    }
    ended
}

/// Checks an input as one document, and writes the place and the reason of its error, with the text
/// around it in this style. Returns whether there is none.
///
/// Fails with `Output` exactly if the writer does, and with `Input` if an allocation fails. A
/// beginning of the output is written then.
pub fn check_document<W: Write>(
    checker: &mut DocumentChecker,
    out: &mut Channel<W>,
    file: &str,
    input: &[u8],
    style: Style,
) -> Result<bool, Failure>
    requires { out.old.failed ≡ false }
    ensures clean { IfOk result (λ clean. clean
        ≡ is_none (found_in input.now checker.old.depth)) }
    ensures written { OnOk result ((out.new.failed ≡ false)
        × Appends (W.contents out.old.inner) (W.contents out.new.inner)
        (whole_text file.now style checker.old.depth input.now)) }
    ensures stopped { IfErr result (λ e. HasStopped e false out.new.failed
        (W.contents out.old.inner) (W.contents out.new.inner)
        (whole_text file.now style checker.old.depth input.now)) }
    ensures depth { checker.new.depth ≡ checker.old.depth }
{
    let mut text = Text::<Channel<W>, PIECE>::new(out);
    let start = FilePlace {
        file,
        line: 1,
        byte: 0,
    };
    let put = start.check(checker, &mut text, input, style);
    text.finish().map_err(Failure::Output)?;
    Ok(put?)
}

/// Where a text begins in a file.
#[derive(Clone, Copy)]
pub struct FilePlace<'a> {
    /// The name of the file.
    pub file: &'a str,
    /// The line, from 1.
    pub line: usize,
    /// The byte offset.
    pub byte: usize,
}

impl FilePlace<'_> {
    /// Checks a text that begins here as one document, and appends the report on its error: where
    /// and why, and the text around it. Returns whether there is none. If an allocation fails,
    /// nothing is appended.
    pub fn check<T: Target, const SIZE: usize>(
        self,
        checker: &mut DocumentChecker,
        text: &mut Text<'_, T, SIZE>,
        checked: &[u8],
        style: Style,
    ) -> Result<bool, AllocError>
        ensures clean { IfOk result (λ clean. clean
            ≡ is_none (found_in checked.now checker.old.depth)) }
        ensures put { OnOk result (Adds T.state text.old text.new
            (checked_text self.entry.file.now style checker.old.depth
            self.entry.line self.entry.byte checked.now)) }
        ensures none { OnErr result (Adds T.state text.old text.new []) }
        ensures depth { checker.new.depth ≡ checker.old.depth }
    {
        let Some(location) = checker.check(checked)? else {
            return Ok(true);
        };
        let excerpt = excerpt(checker.alloc(), checked, location.byte(), style)?;
        let words = self.words(checker.alloc(), location)?;
        text.put(words.as_bytes());
        text.put(excerpt.as_bytes());
        Ok(false)
    }

    // Where and why, as one line, where the location is in a text that begins here.
    fn words(self, alloc: Global, location: Location) -> Result<String, AllocError>
        ensures { IfOk result (λ text. string_bytes text
            ≡ words self.entry.file.now self.entry.line self.entry.byte location
            ++ line_feed ∷ []) }
    {
        let FilePlace { file, line, byte } = self;
        let byte = byte.saturating_add(location.byte());
        let location = location.in_file(line);
        let kind = location.kind();
        format!(in alloc; "{file}:{location} [{kind} at byte {byte}]\n")
    }
}
