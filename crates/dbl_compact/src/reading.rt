ghost use Rattle.std.specs.Prelude.{◌≡◌, ◌≢◌, ◌&&◌, ◌||◌, ◌∷◌, [], List, ℕ, codes};
ghost use Rattle.std.specs.Prelude.{Ok, Err, IsOk, OnOk, IfOk, IfErr};
ghost use Rattle.std.specs.Str.{bytes_eq};
ghost use Rattle.dbl_record.specs.declared.record.Record.{Record};
ghost use Rattle.dbl_record.specs.declared.acts.ConsumeError.TheVariants.{Memory};
ghost use Rattle.dbl_record.specs.Line.{text_or_null};
ghost use Rattle.dbl_compact_ended.specs.Ended.{has_row};
ghost use Rattle.dbl_compact.specs.Kept.{ends_key, is_kept, kind_at, sets_unended};
ghost use Rattle.dbl_compact.specs.Compactors.{HasRead, placeholder_of};

use crate::Compactor;
use dbl_base::Text;
use dbl_compact_ended::{EndedRows, end_row, end_set_row, end_topic};
use dbl_consume::{ConsumeError, Kind, kind};
use dbl_record::Record;
use std::alloc::{AllocError, Global};
use std::collections::BTreeMap;

fn text_or<'a>(text: &'a Option<Text>, null: &'a Text) -> &'a Text
    requires { null.now ≡ codes "null" }
    ensures { result.now ≡ text_or_null text.now }
{
    match text {
        Some(text) => text,
        None => null,
    }
}

// Ends the rows that an effect of this kind ends, and reports whether it sets a row that wasn't
// ended yet.
fn end_rows(
    alloc: Global,
    ended: &mut EndedRows,
    topic: &Text,
    kind: Kind,
) -> Result<bool, AllocError>
    ensures ended { OnOk result ((t k : List ℕ) → has_row ended.new t k ≡
        ((bytes_eq topic.now t && ends_key (Ok kind) k) || has_row ended.old t k)) }
    ensures unended { IfOk result
        (λ unended. unended ≡ sets_unended (Ok kind) (has_row ended.old topic.now)) }
{
    match kind {
        Kind::Nothing => Ok(false),
        Kind::Wipe => match end_topic(alloc, ended, topic) {
            Ok(()) => Ok(false),
            Err(error) => Err(error),
        },
        Kind::Remove { key } => match end_row(alloc, ended, topic, key) {
            Ok(()) => Ok(false),
            Err(error) => Err(error),
        },
        Kind::Set { key, whole } => end_set_row(alloc, ended, topic, key, whole),
    }
}

impl Compactor {
    /// Makes a compactor that has read no record, given the placeholder of values that weren't
    /// sent.
    pub fn make(alloc: Global, placeholder: &Text) -> Result<Compactor, AllocError>
        ensures read { IfOk result (HasRead []) }
        ensures placeholder { IfOk result (λ made. placeholder_of made ≡ placeholder.now) }
    {
        Ok(Compactor {
            alloc,
            placeholder: placeholder.copy(alloc)?,
            null: Text::of(alloc, "null")?,
            ended: BTreeMap::new(alloc),
        })
    }

    /// Reads the record before those that were read, and reports whether a compaction keeps it. A
    /// refused record isn't kept and changes nothing, and an earlier record can be read after it.
    /// After memory ran out nothing is known of the compactor.
    pub fn read(&mut self, item: &Record) -> Result<bool, ConsumeError>
        ensures read { (later : List Record) → HasRead later self.old → result ≢ Err Memory →
            HasRead (item.now ∷ later) self.new }
        ensures kept { (later : List Record) → HasRead later self.old →
            IfOk result (λ kept. kept ≡ is_kept (placeholder_of self.old) item.now later) }
        ensures accepted { OnOk result (IsOk (kind_at (placeholder_of self.old) item.now)) }
        ensures refused { IfErr result
            (λ e. e ≢ Memory → kind_at (placeholder_of self.old) item.now ≡ Err e) }
        ensures unchanged { IfErr result (λ e. e ≢ Memory → self.new ≡ self.old) }
        ensures placeholder { placeholder_of self.new ≡ placeholder_of self.old }
    {
        match self.kind_of(item) {
            Ok(kind) => match end_rows(self.alloc, &mut self.ended, &item.topic, kind) {
                Ok(unended) => Ok(unended),
                Err(_) => Err(ConsumeError::Memory),
            },
            Err(error) => Err(error),
        }
    }

    fn kind_of(&self, item: &Record) -> Result<Kind, ConsumeError>
        ensures kind { IfOk result (λ kind. kind_at self.now.placeholder item.now ≡ Ok kind) }
        ensures refused { IfErr result
            (λ e. e ≢ Memory → kind_at self.now.placeholder item.now ≡ Err e) }
    {
        let key = text_or(&item.key, &self.null);
        let value = text_or(&item.value, &self.null);
        kind(self.alloc, &self.placeholder, &item.topic, key, value)
    }
}
