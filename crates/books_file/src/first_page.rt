//! What is done before the file of a line is opened, and the first page of a new file of books.

ghost use Rattle.std.specs.Prelude.{◌≡◌};
ghost use Rattle.books_file.specs.FirstPage.{first_step as first_step_lem, IsLaid};
ghost use Rattle.books_file.specs.declared.path_files.Stage.TheVariants.{Untouched};

use crate::path_files::{FilesAtPath, LockFiles, PathFiles};
use command_line::Work;
use std::alloc::Global;

/// What is done before the file at the path of a line is opened.
#[derive(Clone, Copy)]
pub(crate) enum FirstStep {
    /// The first page is laid, where nothing is there.
    Lay,
    /// It is opened where it is there: to open a file that is not there makes it.
    Find,
}

/// Whether the file can be opened; for books that are to be made its first page is laid. Whenever the machine stops, the
/// path has what it had or the whole page. Of two processes that lay it at once one does, and finds nothing there when no
/// other can.
pub fn is_ready<R: LockFiles>(files: &R, alloc: Global, db: &str, work: &Work<'_>) -> bool {
    match FilesAtPath::new(files, alloc, db) {
        Ok(path) => {
            let mut path = path;
            make_ready(&mut path, work)
        }
        Err(_) => false,
    }
}

/// The same at any path.
fn make_ready<P: PathFiles>(path: &mut P, work: &Work<'_>) -> bool
    requires { P.stage path.old ≡ Untouched }
    ensures laid { first_step_lem work.now ≡ FirstStep.Lay → IsLaid (P.stage path.new) result }
    ensures untouched { first_step_lem work.now ≡ FirstStep.Find → path.new ≡ path.old }
{
    match first_step(work) {
        FirstStep::Lay => lay(path),
        FirstStep::Find => path.is_there(),
    }
}

/// Only the making of books makes a file.
fn first_step(work: &Work<'_>) -> FirstStep
    ensures { result ≡ first_step_lem work.now }
{
    match work {
        Work::Make(_) => FirstStep::Lay,
        Work::Serve { .. } => FirstStep::Find,
        Work::Import { .. } => FirstStep::Find,
        Work::Card(_) => FirstStep::Find,
        Work::Notice(_) => FirstStep::Find,
        Work::History => FirstStep::Find,
        Work::Audit(_) => FirstStep::Find,
        Work::Apply { .. } => FirstStep::Find,
    }
}

/// Lays a first page, where nothing is at the path. What is there is opened as it is.
fn lay<P: PathFiles>(path: &mut P) -> bool
    requires { P.stage path.old ≡ Untouched }
    ensures { IsLaid (P.stage path.new) result }
{
    if !path.has_nothing() {
        return true;
    }
    if !path.lock() {
        return false;
    }
    if !path.look() {
        path.clear();
        return true;
    }
    path.write() && path.place()
}
