//! A file or standard input, by its name.
ghost use Rattle.std.specs.Prelude.{◌≡◌, ◌≢◌, ℕ, List, Option, None, Some, is_some};
ghost use Rattle.std.specs.Prelude.{IfErr, IfSome, OnOk};
ghost use Rattle.std.specs.Io.{ReadsAtMost};
ghost use Rattle.std.specs.Io.KnownBytes.{ReadConsumes};
ghost use Rattle.programs.specs.Sources.{left_in, named};
ghost use Rattle.programs.specs.declared.source.State.TheVariants.{Unopened};

use crate::retry::read_some;
use std::fs::File;
use std::io::{self, Read};

/// What opens files.
// That a file is read to its end can be said of one whose bytes are known, so not of the system's.
pub trait Opener {
    ghost use Rattle.std.specs.Prelude.{◌≡◌, ℕ, List, Option, IfOk};

    /// An open file.
    type File: Read + Drop;

    ghost held: { Self → List ℕ → Option (List ℕ) };

    /// Opens the file with this name, of which nothing is read yet.
    ///
    /// Returns an error if it can't be opened.
    fn open_file(&self, name: &str) -> io::Result<Self::File>
        ensures { IfOk result (λ file. Self.File.remaining file ≡ held self.now name.now) };
}

impl Opener for HostRuntime {
    type File = File;

    ghost held = { λ _ _. None };

    fn open_file(&self, name: &str) -> io::Result<File> {
        File::open(self, name)
    }
}

/// A file, which is opened at the first read and closed at its end. `-` is standard input. What a
/// signal interrupts is read again.
#[derive(Drop)]
pub struct Source<'a, O: Opener, I> {
    opener: &'a O,
    name: &'a str,
    state: State<O::File, I>,
    fault: Option<io::Error>,
}

impl<'a, O: Opener, I: Read + Drop> Source<'a, O, I> {
    /// A reader of the file with this name, which reads `standard` as standard input.
    pub fn new(opener: &'a O, standard: I, name: &'a str) -> Source<'a, O, I>
        ensures name { (result.name ≡ name.entry) × (result.opener ≡ opener.entry) }
        ensures state { result.state ≡ named name.now standard }
        ensures fault { result.fault ≡ None }
    {
        let state = match name {
            "-" => State::Standard(standard),
            _ => State::Unopened,
        };
        Source {
            opener,
            name,
            state,
            fault: None,
        }
    }

    /// The name, and why it can't be read.
    pub fn fault(&self) -> Option<(&'a str, &io::Error)>
        ensures some { is_some result ≡ is_some self.now.fault }
        ensures fault { IfSome result (λ fault.
            (fault.0 ≡ self.now.name) × (self.now.fault ≡ Some fault.1.now)) }
    {
        match &self.fault {
            Some(e) => Some((self.name, e)),
            None => None,
        }
    }

    // Opens the file, unless it is open.
    fn open(&mut self) -> io::Result<()>
        ensures opened { OnOk result (self.new.state ≢ Unopened) }
        ensures left { left_in (O.held self.old.opener.now self.old.name.now) O.File.remaining I.remaining
            self.new.state
            ≡ left_in (O.held self.old.opener.now self.old.name.now) O.File.remaining I.remaining
            self.old.state }
        ensures same { self.new ≡ record self.old { state = self.new.state } }
    {
        if let State::Unopened = self.state {
            self.state = State::Open(self.opener.open_file(self.name)?);
        }
        Ok(())
    }

    // Opens the file at the first read.
    fn open_and_read(&mut self, buf: &mut [u8]) -> io::Result<usize>
        ensures bound { ReadsAtMost result buf.new }
        ensures bytes { ReadConsumes
            (left_in (O.held self.old.opener.now self.old.name.now) O.File.remaining I.remaining
            self.old.state)
            (left_in (O.held self.old.opener.now self.old.name.now) O.File.remaining I.remaining
            self.new.state) result buf.new }
        ensures same { self.new ≡ record self.old { state = self.new.state } }
    {
        self.open()?;
        self.state.read(buf)
    }
}

impl<O: Opener, I: Read + Drop> Read for Source<'_, O, I> {
    ghost remaining = { λ s.
        left_in (O.held s.opener.now s.name.now) O.File.remaining I.remaining s.state };

    fn read(&mut self, buf: &mut [u8]) -> io::Result<usize>
        ensures bound { ReadsAtMost result buf.new }
        ensures bytes { ReadConsumes
            (left_in (O.held self.old.opener.now self.old.name.now) O.File.remaining I.remaining
            self.old.state)
            (left_in (O.held self.new.opener.now self.new.name.now) O.File.remaining I.remaining
            self.new.state) result buf.new }
        ensures read { OnOk result (self.new.fault ≡ self.old.fault) }
        ensures failed { IfErr result (λ e. self.new.fault ≡ Some e) }
        ensures same { self.new
            ≡ record self.old { state = self.new.state; fault = self.new.fault } }
    {
        match self.open_and_read(buf) {
            Ok(count) => Ok(count),
            Err(e) => {
                self.fault = Some(e);
                Err(e)
            }
        }
    }
}

// What is read.
#[derive(Drop)]
enum State<F, I> {
    Unopened,
    Standard(I),
    Open(F),
    Ended,
}

impl<F: Read + Drop, I: Read + Drop> State<F, I> {
    // Reads some bytes, as `Read::read` does, and closes what has none left.
    fn read(&mut self, buf: &mut [u8]) -> io::Result<usize>
        requires { self.old ≢ Unopened }
        ensures bound { ReadsAtMost result buf.new }
        ensures bytes { (held : Option (List ℕ))
            → ReadConsumes (left_in held F.remaining I.remaining self.old)
            (left_in held F.remaining I.remaining self.new) result buf.new }
    {
        let count = match self {
            State::Standard(standard) => read_some(standard, buf)?,
            State::Open(file) => read_some(file, buf)?,
            _ => 0,
        };
        if count == 0 && !buf.is_empty() {
            *self = State::Ended;
        }
        Ok(count)
    }
}
