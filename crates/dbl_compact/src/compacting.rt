//! The compaction of a list of records in one pass, from the last record to the first.
ghost use Rattle.std.specs.Prelude.{◌≡◌, ◌≢◌, ◌+◌, ◌∷◌, [], ℕ, List, Some, None};
ghost use Rattle.std.specs.Prelude.{OnOk, IfOk, IfErr};
ghost use Rattle.dbl_record.specs.declared.record.Record.{Record};
ghost use Rattle.dbl_compact.specs.declared.error.CompactError.TheVariants.{Memory};
ghost use Rattle.dbl_compact.specs.Kept.{kept};
ghost use Rattle.dbl_compact.specs.Refusals.{refusal};
ghost use Rattle.dbl_compact.specs.Passes.{IsPassOver};

use crate::{CompactError, Compactor};
use dbl_base::Text;
use dbl_consume::ConsumeError;
use dbl_record::Record;
use std::alloc::Global;

/// A pass over records from the last to the first: those that are kept, the last one first, and
/// the refusal of the first one that was refused.
#[derive(Drop)]
struct Pass {
    compactor: Compactor,
    kept: Vec<Record>,
    refused: Option<CompactError>,
}

impl Pass {
    fn begin(alloc: Global, placeholder: &Text) -> Result<Pass, CompactError>
        ensures begins { (index : ℕ) → IfOk result (IsPassOver placeholder.now index []) }
        ensures memory { IfErr result (λ error. error ≡ Memory) }
    {
        Ok(Pass {
            compactor: Compactor::make(alloc, placeholder)?,
            kept: Vec::new(alloc),
            refused: None,
        })
    }

    // Reads one more record.
    fn read(&mut self, alloc: Global, item: &Record, index: u64) -> Result<(), CompactError>
        ensures goes_on { (placeholder : List ℕ) (later : List Record) →
            IsPassOver placeholder (index + 1) later self.old →
            OnOk result (IsPassOver placeholder index (item.now ∷ later) self.new) }
        ensures memory { IfErr result (λ error. error ≡ Memory) }
    {
        match self.compactor.read(item) {
            Ok(true) => {
                self.kept.push(item.copy(alloc)?)?;
                Ok(())
            }
            Ok(false) => Ok(()),
            Err(ConsumeError::Memory) => Err(CompactError::Memory),
            Err(error) => {
                self.refused = Some(CompactError::Refused { index, error });
                Ok(())
            }
        }
    }
}

fn read_all(alloc: Global, placeholder: &Text, records: &Vec<Record>) -> Result<Pass, CompactError>
    ensures passes { IfOk result (IsPassOver placeholder.now 0 records.now.items) }
    ensures memory { IfErr result (λ error. error ≡ Memory) }
{
    let mut pass = Pass::begin(alloc, placeholder)?;
    'records: for index in (0..records.len()).rev() {
        pass.read(alloc, &records[index], index as u64)?;
    }
    Ok(pass)
}

/// The records that a compaction keeps, in order, given the placeholder of values that weren't
/// sent; or the first record that a consumer refuses. Takes O(n log n) time for n records.
pub fn compact(
    alloc: Global,
    placeholder: &Text,
    records: &Vec<Record>,
) -> Result<Vec<Record>, CompactError>
    ensures kept { IfOk result (λ done. done.items ≡ kept placeholder.now records.now.items) }
    ensures accepted { OnOk result (refusal placeholder.now records.now.items ≡ None) }
    ensures refused { IfErr result
        (λ error. error ≢ Memory → refusal placeholder.now records.now.items ≡ Some error) }
{
    let Pass {
        mut kept,
        refused,
        ..
    } = read_all(alloc, placeholder, records)?;
    match refused {
        Some(error) => Err(error),
        None => {
            kept.reverse();
            Ok(kept)
        }
    }
}
