//! Sets of keys.
ghost use Rattle.std.specs.Prelude.{◌≡◌, ◌≤◌, ℕ, List, ◌++◌, IfOk, OnOk, filter, length, not, take};
ghost use Rattle.std.specs.List.Sorted.{IsSorted};
ghost use Rattle.std.specs.Set.{is_member};
ghost use Rattle.std.specs.Str.{bytes_eq};
ghost use Rattle.dnrd_csv.specs.inside.RowKeys.{borrowed_texts};
ghost use Rattle.deposit_verify.specs.inside.SortedKeys.{AreNamedKeys, owned_texts, borrowed_text_cmp};

use crate::keys::has_key;
use std::alloc::{AllocError, Global};
use std::marker::Model;

/// Keys of a table, each once.
#[derive(Debug, Drop)]
pub(crate) struct KeySet {
    keys: Vec<Vec<u8>>,
}

impl Model for KeySet {
    ghost use Rattle.std.specs.Prelude.{◌≢◌, ℕ, List, AllPairs};
    ghost use Rattle.deposit_verify.specs.inside.SortedKeys.{owned_texts};

    ghost Value = { List (List ℕ) };

    ghost view = { λ s. owned_texts s.keys.items };

    ghost invariant = { λ s. AllPairs (λ one other. one ≢ other) (owned_texts s.keys.items) };
}

fn is_unnamed(key: &[u8], named: &[&[u8]]) -> bool
    requires { IsSorted borrowed_text_cmp named.now }
    ensures { result ≡ not (is_member bytes_eq (borrowed_texts named.now) key.now) }
{
    !has_key(named, key)
}

// How many keys are not named.
fn count_unnamed(keys: &[Vec<u8>], named: &[&[u8]]) -> usize
    requires { IsSorted borrowed_text_cmp named.now }
    ensures count { result
        ≡ length (filter (λ key. not (is_member bytes_eq (borrowed_texts named.now) key)) (owned_texts keys.now)) }
    ensures most { result ≤ length keys.now }
{
    let mut count: usize = 0;
    for key in keys {
        if is_unnamed(key.as_slice(), named) {
            count += 1;
        }
    }
    count
}

// Takes the named keys out.
fn drop_named(keys: &mut Vec<Vec<u8>>, named: &[&[u8]])
    requires { IsSorted borrowed_text_cmp named.now }
    ensures { owned_texts keys.new.items
        ≡ filter (λ key. not (is_member bytes_eq (borrowed_texts named.now) key)) (owned_texts keys.old.items) }
{
    keys.retain(|key| is_unnamed(key.as_slice(), named));
}

pub(crate) fn owned_copy(alloc: Global, text: &[u8]) -> Result<Vec<u8>, AllocError>
    ensures { IfOk result (λ copy. copy.items ≡ text.now) }
{
    let mut copy = Vec::with_capacity(alloc, text.len())?;
    copy.extend_from_slice(text)?;
    Ok(copy)
}

// Adds keys behind the others, or where memory is refused the first of them.
fn add_keys(keys: &mut Vec<Vec<u8>>, alloc: Global, added: &[&[u8]]) -> Result<(), AllocError>
    ensures all { OnOk result (owned_texts keys.new.items ≡ owned_texts keys.old.items ++ borrowed_texts added.now) }
    ensures some { (n : ℕ) × (owned_texts keys.new.items ≡ owned_texts keys.old.items ++ take n (borrowed_texts added.now)) }
{
    for i in 0..added.len() {
        keys.push(owned_copy(alloc, added[i])?)?;
    }
    Ok(())
}

impl KeySet {
    ghost use Rattle.std.specs.Prelude.{[]};
    ghost use Rattle.std.specs.Set.{distinct_count};
    ghost use Rattle.deposit_verify.specs.Rows.{keys_after};

    /// No keys.
    pub fn new(alloc: Global) -> KeySet
        ensures { result ≡ [] }
    {
        KeySet {
            keys: Vec::new(alloc),
        }
    }

    /// How many keys there are after a deposit that contains some, and names others.
    pub fn count_after(&self, contained: &[&[u8]], named: &[&[u8]]) -> usize
        requires { AreNamedKeys contained.now named.now }
        ensures { result
            ≡ distinct_count bytes_eq (keys_after self.now (borrowed_texts contained.now) (borrowed_texts named.now)) }
    {
        count_unnamed(&self.keys, named) + contained.len()
    }

    /// Takes the keys that a deposit names out, and adds those that it contains.
    pub fn change(
        &mut self,
        alloc: Global,
        contained: &[&[u8]],
        named: &[&[u8]],
    ) -> Result<(), AllocError>
        requires { AreNamedKeys contained.now named.now }
        ensures { OnOk result (self.new
            ≡ keys_after self.old (borrowed_texts contained.now) (borrowed_texts named.now)) }
    {
        drop_named(&mut self.keys, named);
        add_keys(&mut self.keys, alloc, contained)
    }
}
