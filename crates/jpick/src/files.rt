//! Files, one after another.
ghost use Rattle.std.specs.Prelude.{◌≡◌};
ghost use Rattle.jpick.specs.Files.{HasPickedEach, skips_files, status_by_rows, status_of};

use crate::lines::Taken;
use programs::{Failure, ending};

/// Picks of the files one after another, and returns the greatest status of these runs. An error
/// does not stop it, but the other files are skipped where nobody reads the output any more, or where
/// a file that was read by lines is one document.
pub fn pick_each<'a, F: FnMut(&'a str) -> Result<Taken, Failure>>(
    mut pick: F,
    files: &[&'a str],
) -> u8
    requires { F.IsAlwaysCallable pick }
    ensures { HasPickedEach F.step pick files.now result }
{
    let mut greatest = 0u8;
    for file in files {
        let picked = pick(*file);
        greatest = greatest.max(status(&picked));
        if skips_files(&picked) {
            return greatest;
        }
    }
    greatest
}

// The exit status of a run.
fn status(picked: &Result<Taken, Failure>) -> u8
    ensures { result ≡ status_of picked.now }
{
    match picked {
        Ok(Taken::All) => 0,
        Ok(Taken::NotAll) => 1,
        Ok(Taken::Document) => 2,
        Err(failure) => ending(&Err(*failure)).0,
    }
}

// Whether nobody reads the output any more, or it is to be asked otherwise.
fn skips_files(picked: &Result<Taken, Failure>) -> bool
    ensures { result ≡ skips_files picked.now }
{
    matches!(picked, Err(Failure::Closed(_)) | Ok(Taken::Document))
}

/// Returns the exit status after all files: at least 1 if rows are needed, and none was written.
pub fn status_by_rows(status: u8, needs_rows: bool, has_rows: bool) -> u8
    ensures { result ≡ status_by_rows status needs_rows has_rows }
{
    if needs_rows && !has_rows {
        status.max(1)
    } else {
        status
    }
}
