//! Cases of workloads. A line's end is written `\n`.

use anyhow::Result;
use cases_items::words;
use dbl_script::parse;
use std::alloc::Global;

/// Adds the workload of a text, or its fault.
pub fn show(alloc: Global, shown: &mut String, arguments: &str) -> Result<()> {
    let text = arguments.replace(alloc, "\\n", "\n")?;
    match parse(alloc, text.as_bytes()) {
        Ok(script) => {
            let end = words::show_debug(shown, &script);
            drop(script);
            end
        }
        Err(error) => words::said(shown, &error),
    }
}
