//! The opening of a log.

ghost use Rattle.std.specs.Prelude.{◌≡◌, ◌⊎◌, ℕ, ◌<◌, List, None, Err};
ghost use Rattle.std.specs.Prelude.{IfOk, IfErr, IsTrue, MatchResult};
ghost use Rattle.dbl_journal.specs.Stored.{Lists};
ghost use Rattle.dbl_demo_wal.specs.Sound.{steps_in};
ghost use Rattle.dbl_demo_wal.specs.Wals.{IsFirstBad, Wal, forms_of};
ghost use Rattle.dbl_demo_laws.specs.Demo.{IsDemo};
ghost use Rattle.dbl_demo_workload.specs.Logs.{IsFailed};
ghost use Rattle.dbl_demo_workload.specs.Ready.{AreTableNames};
ghost use Rattle.dbl_journal.specs.Calls.{Keeps};

use crate::{DemoError, DemoSource};
use dbl_demo_workload::{Checked, Prepared, check_log};
use dbl_disk::{Disk, Refused};
use dbl_journal::Journal;
use std::alloc::Global;
use std::collections::BTreeMap;

/// The source over a journal that was opened.
pub(crate) fn open_journal<D: Disk>(
    alloc: Global,
    mut journal: Journal<D>,
) -> Result<DemoSource<D>, Refused<D, DemoError>>
    requires { IsTrue journal.live }
    ensures opened { (forms : List (List ℕ)) → Lists D.Disk journal forms
        → IfOk result (λ source. (wal : Wal) × (forms ≡ forms_of wal)
        × IsDemo D.Disk wal source × (source.done ≡ steps_in wal.entries)) }
    ensures named { IfOk result (λ source. AreTableNames source.names) }
    ensures unread { IfOk result (λ source. source.place ≡ None) }
    ensures live { IfOk result (λ source. IsTrue source.live) }
    ensures bad { (forms : List (List ℕ)) (index : ℕ) → Lists D.Disk journal forms
        → IfErr result (λ refused.
        refused.error ≡ DemoError.BadEntry index → IsFirstBad forms index) }
    ensures kinds { IfErr result (λ refused.
        (refused.error ≡ DemoError.Memory) ⊎ IsFailed refused.error
        ⊎ (index : ℕ) × (refused.error ≡ DemoError.BadEntry index)) }
    ensures read { MatchResult result
        (λ source. Keeps D.Disk ⊥ journal.disk source.journal.disk)
        (λ refused. Keeps D.Disk (IsFailed refused.error) journal.disk refused.disk) }
{
    let Checked {
        prepared,
        done,
        commits,
        confirmed,
    } = match check_log(alloc, &mut journal) {
        Ok(checked) => checked,
        Err(error) => {
            return Err(Refused {
                disk: journal.into_disk(),
                error,
            });
        }
    };
    let Prepared {
        names,
        tables,
        store,
        steps,
        rows: _,
    } = prepared;
    Ok(DemoSource {
        alloc,
        journal,
        names,
        tables,
        store,
        steps,
        done,
        commits,
        confirmed,
        place: None,
        described: BTreeMap::new(alloc),
        held: None,
        ended: false,
        live: true,
    })
}
