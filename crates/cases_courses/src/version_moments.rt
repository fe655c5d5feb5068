//! Points in a history whose tables may be altered, by the definitions. A point is a number of
//! changes counted from the start, as far as 64 bits tell.

ghost use Rattle.std.specs.Prelude.{◌≡◌, ◌^◌, ◌-◌, IfOk, min};
ghost use Rattle.dbl_record.specs.Places.{place_of};
ghost use Rattle.dbl_model_table.specs.Rows.{moment_at};
ghost use Rattle.dbl_consume_courses.specs.AlteredTables.{version_moment, position_moment};
ghost use Rattle.dbl_consume_courses.specs.AlteredTables.{version_span_end};
ghost use Rattle.cases_courses.specs.AlteredHistories.{all_versioned};

use crate::versions::Version;
use cases_ages::{change_count, commit_through};
use dbl_model_table::Commit;
use dbl_record::Record;
use std::alloc::{AllocError, Global};

/// The point after all commits up to a position.
pub fn point_at(commits: &Vec<Commit>, position: u64) -> u64
    ensures { result ≡ min (moment_at commits.now.items position) (2 ^ 64 - 1) }
{
    let mut moment: u64 = 0;
    for commit in commits {
        if position < commit.lsn.0 {
            return moment;
        }
        moment = moment.saturating_add(change_count(commit));
    }
    moment
}

/// The point after all commits up to a position, of a history with alterations.
pub fn position_moment(versions: &Vec<Version>, position: u64) -> u64
    ensures { result
        ≡ min (position_moment (all_versioned versions.now.items) position) (2 ^ 64 - 1) }
{
    let mut moment: u64 = 0;
    for version in versions {
        if position < version.commit.lsn.0 {
            return moment;
        }
        moment = moment.saturating_add(change_count(&version.commit));
    }
    moment
}

/// The point that a record stands for: each change has its events in the columns in force at it.
pub fn version_moment(
    alloc: Global,
    versions: &Vec<Version>,
    item: &Record,
) -> Result<u64, AllocError>
    ensures { IfOk result (λ moment. moment
        ≡ min (version_moment (all_versioned versions.now.items) (place_of item.now)) (2 ^ 64 - 1)) }
{
    let mut moment: u64 = 0;
    for version in versions {
        let commit = &version.commit;
        if item.position < commit.lsn.0 {
            return Ok(moment);
        }
        if item.position == commit.lsn.0 {
            let through = commit_through(alloc, &version.infos, commit, item.ordinal)?;
            return Ok(moment.saturating_add(through));
        }
        moment = moment.saturating_add(change_count(commit));
    }
    Ok(moment)
}

/// Where the span from a point on ends, by the records of a whole log.
pub fn version_span_end(
    alloc: Global,
    versions: &Vec<Version>,
    records: &Vec<Record>,
    from: u64,
) -> Result<u64, AllocError>
    ensures { IfOk result (λ end. end
        ≡ min (version_span_end (all_versioned versions.now.items) records.now.items from)
        (2 ^ 64 - 1)) }
{
    let mut far = from;
    for item in records {
        let moment = version_moment(alloc, versions, item)?;
        far = far.max(moment);
    }
    Ok(far)
}
