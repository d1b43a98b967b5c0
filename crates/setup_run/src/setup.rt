ghost use Rattle.std.specs.Prelude.{⊤, Ok, IfOk, IfErr, MatchResult};
ghost use Rattle.book_store.specs.Stores.{entries_of, IsSound};
ghost use Rattle.store_runs.specs.Books.{stored_book};
ghost use Rattle.store_runs.specs.Runs.{Goes, RunGoes};
ghost use Rattle.setup_run.specs.Setups.{IsSetUp, StopsInSetup};

use crate::asking::ask_lines;
use crate::notices::SetupNotices;
use book_store::{OneCaller, Store};
use disk_core::Disk;
use script_events::SCRIPT;
use store_runs::RunEnd;

/// Runs the setup of a plan over a store: each of its commands is asked as a script asks it, one
/// after another, and nothing is printed. A refused command and a question are answered like any
/// other, and the next is asked; which were refused is told. Where all is asked, the store goes on.
///
/// A run ends at a setup that has a bad line (`BadLine`, with its number, from 1), where the disk
/// fails (`DiskFault`, with what it was offered) or there is no memory for a command (`NoMemory`).
/// `work` is a bad line there, and so is one of more than `MAX_LINE` bytes. What was accepted
/// stands. Whoever wants room for rows makes it before, by `Store::reserve`.
pub fn run_setup<D: Disk, N: SetupNotices>(
    store: Store<D>,
    setup: &[u8],
    notices: &mut N,
) -> Result<Store<D>, RunEnd<D>>
    requires sound { IsSound D.Disk store }
    ensures done { IfOk result (λ left. IsSetUp (stored_book store) setup.now (entries_of left)) }
    ensures stops { IfErr result (λ end. StopsInSetup (stored_book store) setup.now
        (entries_of end.store) end.stop) }
    ensures goes { MatchResult result (λ left. Goes {T = ⊤} D.Disk (Ok tt) store left)
        (λ end. RunGoes D.Disk end.stop store end.store) }
    ensures sound { IfOk result (IsSound D.Disk) }
{
    let mut caller = OneCaller::new(store, SCRIPT);
    match ask_lines(&mut caller, notices, setup) {
        Ok(()) => Ok(caller.back()),
        Err(stop) => Err(RunEnd {
            stop,
            store: caller.back(),
        }),
    }
}
