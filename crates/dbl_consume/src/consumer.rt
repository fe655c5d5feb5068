ghost use Rattle.std.specs.Prelude.{◌≡◌, ◌≢◌, ◌++◌, ◌∷◌, [], List, ℕ};
ghost use Rattle.std.specs.Prelude.{Err, IsOk, IfOk, IfErr, OnOk};
ghost use Rattle.dbl_record.specs.declared.acts.ConsumeError.TheVariants.{Memory};
ghost use Rattle.dbl_record.specs.Acts as spec;
ghost use Rattle.dbl_record.specs.Acts.{Reading, reading_of};
ghost use Rattle.dbl_record.specs.Consumers.{consumer_of};
ghost use Rattle.dbl_consume.specs.Holdings.{Took, placeholder_of, tables_of};
ghost use Rattle.dbl_base.specs.Streams.{FailsOnlyIfCounted};
ghost use Rattle.dbl_lines.specs.declared.error.PrintError.TheVariants.{OutputFailed};
ghost use Rattle.dbl_consume.specs.Printing.{PrintsRows};
ghost use Rattle.dbl_consume.specs.Records.{recorded_as};
ghost use Rattle.dbl_consume.specs.Rows.{row_at};

use crate::acting::{act, act_of_parsed};
use crate::parsed::ParsedRecord;
use crate::printing::{look_at_order, print};
use crate::tables::{Tables, perform};
use dbl_base::{Output, Text};
use dbl_lines::PrintError;
use dbl_record::ConsumeError;
use std::alloc::Global;
use std::collections::BTreeMap;

/// The state of a consumer of change events, by topic, key text and column.
#[derive(Drop)]
pub struct Consumer {
    alloc: Global,
    placeholder: Text,
    tables: Tables,
}

impl Consumer {
    /// Makes a consumer with empty state, given the placeholder of values that weren't sent. Takes
    /// no memory; later calls use the allocator.
    pub fn make(alloc: Global, placeholder: Text) -> Result<Consumer, ConsumeError>
        ensures took { IfOk result (Took []) }
        ensures placeholder { IfOk result (λ c. placeholder_of c ≡ placeholder) }
        ensures made { IsOk result }
    {
        Ok(Consumer {
            alloc,
            placeholder,
            tables: BTreeMap::new(alloc),
        })
    }

    /// Applies a record: a topic, and the JSON texts of a key and a value. After memory ran out
    /// nothing is known of the consumer's rows.
    pub fn apply(&mut self, topic: &Text, key: &Text, value: &Text) -> Result<(), ConsumeError>
        ensures took { (taken : List Reading) → Took taken self.old →
            OnOk result (Took (taken ++ reading_of
            (record { topic = topic.now; key = key.now; value = value.now }) ∷ []) self.new) }

        ensures accepted { OnOk result (IsOk (spec.act (placeholder_of self.old)
            (record { topic = topic.now; key = key.now; value = value.now }))) }
        ensures refused { IfErr result (λ e. e ≢ Memory → spec.act (placeholder_of self.old)
            (record { topic = topic.now; key = key.now; value = value.now }) ≡ Err e) }
        ensures unchanged { IfErr result (λ e. e ≢ Memory → self.new ≡ self.old) }
        ensures placeholder { placeholder_of self.new ≡ placeholder_of self.old }
    {
        match act(self.alloc, &self.placeholder, topic, key, value) {
            Ok(act) => perform(self.alloc, &mut self.tables, topic, act),
            Err(error) => Err(error),
        }
    }

    /// Applies a parsed record.
    pub fn apply_parsed<'a>(&mut self, parsed: &ParsedRecord<'a>) -> Result<(), ConsumeError>
        ensures took { (taken : List Reading) → Took taken self.old →
            OnOk result (Took (taken ++ recorded_as parsed.now ∷ []) self.new) }
        ensures accepted { OnOk result
            (IsOk (spec.act_of (placeholder_of self.old) (recorded_as parsed.now))) }
        ensures refused { IfErr result (λ e. e ≢ Memory →
            spec.act_of (placeholder_of self.old) (recorded_as parsed.now) ≡ Err e) }
        ensures unchanged { IfErr result (λ e. e ≢ Memory → self.new ≡ self.old) }
        ensures placeholder { placeholder_of self.new ≡ placeholder_of self.old }
    {
        match act_of_parsed(self.alloc, &self.placeholder, parsed) {
            Ok(act) => perform(self.alloc, &mut self.tables, parsed.topic(), act),
            Err(error) => Err(error),
        }
    }

    /// The rows of the consumer's state.
    pub fn tables(&self) -> &Tables
        ensures same { result.now ≡ tables_of self.now }
        ensures rows { (taken : List Reading) → Took taken self.now → (topic key : List ℕ) →
            row_at result.now topic key ≡ consumer_of (placeholder_of self.now) taken topic key }
    {
        &self.tables
    }

    /// Prints a line for each row: the topic, the key text and the row as a JSON object, topics and
    /// keys in byte order. A cell of unknown value is `{}`.
    pub fn print<O: Output>(&self, output: &mut O) -> Result<(), PrintError>
        ensures prints { (taken : List Reading) → Took taken self.now →
            PrintsRows (consumer_of (placeholder_of self.now) taken) result
            (O.written output.old) (O.written output.new) }
        ensures cause { FailsOnlyIfCounted (result ≡ Err OutputFailed)
            (O.faults output.old) (O.faults output.new) }
    {
        look_at_order(&self.tables);
        print(self.alloc, &self.tables, output)
    }
}
