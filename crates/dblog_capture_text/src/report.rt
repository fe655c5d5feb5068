ghost use Rattle.std.specs.Prelude.{◌≡◌, IfOk};
ghost use Rattle.std.specs.String.{string_bytes};
ghost use Rattle.dbl_base.specs.Lines.{lines_text};
ghost use Rattle.dblog_capture_text.specs.Reports.{ending_status, ending_word, report_lines};

use dbl_capture_work::{Ending, Report};
use dbl_lines::Status;
use std::alloc::{AllocError, Global};

/// The exit status of a session that ended normally.
pub fn ending_status(ending: Ending) -> Status
    ensures { result ≡ ending_status ending }
{
    match ending {
        Ending::Complete => Status::Done,
        Ending::Budget => Status::BudgetSpent,
    }
}

fn ending_word(ending: Ending) -> &'static str
    ensures { result.now ≡ ending_word ending }
{
    match ending {
        Ending::Complete => "complete",
        Ending::Budget => "budget",
    }
}

/// The lines of a session's report, each with its newline.
pub fn report_text(alloc: Global, ending: Ending, report: Report) -> Result<String, AllocError>
    ensures { IfOk result (λ text. string_bytes text ≡ lines_text (report_lines ending report)) }
{
    let Report {
        messages,
        commits,
        records,
        chunks,
        snapshot_rows,
        position,
    } = report;
    let word = ending_word(ending);
    let mut text = format!(in alloc; "{word} at {position}\nmessages {messages}\n")?;
    text.push_str(format!(in alloc; "commits {commits}\nrecords {records}\n")?.as_str())?;
    text.push_str(format!(in alloc; "chunks {chunks}\nsnapshot rows {snapshot_rows}\n")?.as_str())?;
    Ok(text)
}
