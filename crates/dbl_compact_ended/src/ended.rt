ghost use Rattle.std.specs.Prelude.{◌≡◌, ◌&&◌, ◌||◌, not, List, ℕ, false, IfOk, OnOk};
ghost use Rattle.std.specs.Str.{bytes_eq};
ghost use Rattle.dbl_compact_ended.specs.Ended.{has_key, has_row};

use dbl_base::Text;
use dbl_compact_rules::judge_set;
use std::alloc::{AllocError, Global};
use std::collections::{BTreeMap, BTreeSet};

/// The keys of a topic whose rows are ended: all, or some.
#[derive(Drop)]
pub struct EndedKeys {
    all: bool,
    keys: BTreeSet<Text>,
}

/// The ended keys by topic.
pub type EndedRows = BTreeMap<Text, EndedKeys>;

fn end_key(ended: &mut EndedKeys, key: Text) -> Result<(), AllocError>
    ensures { OnOk result
        ((k : List ℕ) → has_key ended.new k ≡ (bytes_eq key k || has_key ended.old k)) }
{
    ended.keys.insert(key)?;
    Ok(())
}

fn end_first_row(
    alloc: Global,
    ended: &mut EndedRows,
    topic: &Text,
    key: Text,
) -> Result<(), AllocError>
    requires { (k : List ℕ) → has_row ended.old topic.now k ≡ false }
    ensures { OnOk result ((t k : List ℕ) → has_row ended.new t k ≡
        ((bytes_eq topic.now t && bytes_eq key k) || has_row ended.old t k)) }
{
    let mut keys = EndedKeys {
        all: false,
        keys: BTreeSet::new(alloc),
    };
    end_key(&mut keys, key)?;
    ended.insert(topic.copy(alloc)?, keys)?;
    Ok(())
}

/// Ends the row of a topic and a key.
pub fn end_row(
    alloc: Global,
    ended: &mut EndedRows,
    topic: &Text,
    key: Text,
) -> Result<(), AllocError>
    ensures { OnOk result ((t k : List ℕ) → has_row ended.new t k ≡
        ((bytes_eq topic.now t && bytes_eq key k) || has_row ended.old t k)) }
{
    match ended.get_mut(topic) {
        Some(keys) => end_key(keys, key),
        None => end_first_row(alloc, ended, topic, key),
    }
}

/// Ends all rows of a topic, and forgets its keys.
pub fn end_topic(alloc: Global, ended: &mut EndedRows, topic: &Text) -> Result<(), AllocError>
    ensures { OnOk result ((t k : List ℕ) →
        has_row ended.new t k ≡ (bytes_eq topic.now t || has_row ended.old t k)) }
{
    let keys = EndedKeys {
        all: true,
        keys: BTreeSet::new(alloc),
    };
    ended.insert(topic.copy(alloc)?, keys)?;
    Ok(())
}

/// Whether the row of a topic and a key is ended.
pub fn has_row(ended: &EndedRows, topic: &Text, key: &Text) -> bool
    ensures { result ≡ has_row ended.now topic.now key.now }
{
    match ended.get(topic) {
        Some(keys) => keys.all || keys.keys.contains(key),
        None => false,
    }
}

/// Ends the row of a key that is set whole, and reports whether it wasn't ended yet.
pub fn end_set_row(
    alloc: Global,
    ended: &mut EndedRows,
    topic: &Text,
    key: Text,
    whole: bool,
) -> Result<bool, AllocError>
    ensures ended { OnOk result ((t k : List ℕ) → has_row ended.new t k ≡
        ((bytes_eq topic.now t && (whole && bytes_eq key k)) || has_row ended.old t k)) }
    ensures unended { IfOk result (λ unended. unended ≡ not (has_row ended.old topic.now key)) }
{
    let rule = judge_set(has_row(ended, topic, &key), whole);
    if !rule.ends {
        drop(key);
        return Ok(rule.kept);
    }
    match end_row(alloc, ended, topic, key) {
        Ok(()) => Ok(rule.kept),
        Err(error) => Err(error),
    }
}
