//! Bits in words: bit b is in word b / 64.
ghost use Rattle.std.specs.Prelude.{◌≡◌, ◌≢◌, ◌+◌, ◌-◌, ◌*◌, ◌/◌, ◌^◌, ◌<◌, ◌≤◌, ℕ, length, IfSome, IfNone};
ghost use Rattle.std.specs.Int.{bit_at};
ghost use Rattle.extent_map.specs.Words.{bit, one_count, IsOneIn};
ghost use Rattle.extent_map.specs.Extents.{IsFirstFit, IsFreeRun};

/// The place of the lowest 1 of a word from a place on, or 64.
fn lowest_from(word: u64, from: u32) -> u32
    requires { from < 64 }
    ensures from { (from ≤ result) × (result ≤ 64) }
    ensures before { (i : ℕ) → from ≤ i → i < result → bit_at word i ≡ 0 }
    ensures found { result < 64 → bit_at word result ≡ 1 }
{
    let rest = word & (u64::MAX << from);
    if rest == 0 {
        return 64;
    }
    rest.trailing_zeros()
}

/// The place of the lowest 0 of a word from a place on, or 64.
fn lowest_zero_from(word: u64, from: u32) -> u32
    requires { from < 64 }
    ensures from { (from ≤ result) × (result ≤ 64) }
    ensures before { (i : ℕ) → from ≤ i → i < result → bit_at word i ≡ 1 }
    ensures found { result < 64 → bit_at word result ≡ 0 }
{
    lowest_from(!word, from)
}

/// The first 1 from a place on, or the end.
pub fn first_one(words: &[u64], from: usize) -> usize
    requires few { length words.now < 2 ^ 32 }
    requires within { from < 64 * length words.now }
    ensures range { (from ≤ result) × (result ≤ 64 * length words.now) }
    ensures before { (b : ℕ) → from ≤ b → b < result → bit words.now b ≡ 0 }
    ensures found { result < 64 * length words.now → bit words.now result ≡ 1 }
{
    let first = from / 64;
    let low = lowest_from(words[first], (from % 64) as u32);
    if low < 64 {
        return 64 * first + low as usize;
    }
    for at in first + 1..words.len() {
        let low = lowest_from(words[at], 0);
        if low < 64 {
            return 64 * at + low as usize;
        }
    }
    64 * words.len()
}

/// The first 0 from a place on among so many words, or their end.
pub fn first_zero(words: &[u64], from: usize, count: usize) -> usize
    requires few { length words.now < 2 ^ 32 }
    requires words { count ≤ length words.now }
    requires within { from < 64 * count }
    ensures range { (from ≤ result) × (result ≤ 64 * count) }
    ensures before { (b : ℕ) → from ≤ b → b < result → bit words.now b ≡ 1 }
    ensures found { result < 64 * count → bit words.now result ≡ 0 }
{
    let first = from / 64;
    let low = lowest_zero_from(words[first], (from % 64) as u32);
    if low < 64 {
        return 64 * first + low as usize;
    }
    for at in first + 1..count {
        let low = lowest_zero_from(words[at], 0);
        if low < 64 {
            return 64 * at + low as usize;
        }
    }
    64 * count
}

/// The place behind the last 0 of a word, or 0.
fn behind_last_zero(word: u64) -> u32
    ensures range { result ≤ 64 }
    ensures zero { 1 ≤ result → bit_at word (result - 1) ≡ 0 }
{
    64 - word.leading_ones()
}

/// A place from a place on, before which no run of so many 1s begins there.
fn next_start(words: &[u64], from: usize, count: usize) -> usize
    requires few { length words.now < 2 ^ 32 }
    requires within { from ≤ 64 * length words.now }
    ensures range { (from ≤ result) × (result ≤ 64 * length words.now) }
    ensures none { (start : ℕ) → from ≤ start → start < result → ¬ IsFreeRun (IsOneIn words.now) start count }
{
    let at = from / 64;
    // A longer run goes on into the next word.
    if count < 64 || at == words.len() {
        return from;
    }
    let behind = 64 * at + behind_last_zero(words[at]) as usize;
    behind.max(from)
}

/// The lowest place from which so many bits are 1.
pub fn first_fit(words: &[u64], count: usize) -> Option<usize>
    requires few { length words.now < 2 ^ 32 }
    requires some { 1 ≤ count }
    ensures fits { IfSome result (IsFirstFit (IsOneIn words.now) count) }
    ensures within { IfSome result (λ start. start + count ≤ 64 * length words.now) }
    ensures none { IfNone result ((start : ℕ) → ¬ IsFreeRun (IsOneIn words.now) start count) }
{
    let end = 64 * words.len();
    let mut from = 0;
    while from < end {
        let start = first_one(words, from);
        if start == end {
            return None;
        }
        let stop = first_zero(words, start, words.len());
        if stop - start >= count {
            return Some(start);
        }
        from = next_start(words, stop, count);
    }
    None
}

/// Makes a bit 1.
fn set(words: &mut [u64], b: usize)
    requires { b < 64 * length words.old }
    ensures here { bit words.new b ≡ 1 }
    ensures others { (c : ℕ) → c ≢ b → bit words.new c ≡ bit words.old c }
    ensures length { length words.new ≡ length words.old }
{
    words[b / 64] |= 1 << (b % 64);
}

/// Makes a bit 0.
fn clear(words: &mut [u64], b: usize)
    requires { b < 64 * length words.old }
    ensures here { bit words.new b ≡ 0 }
    ensures others { (c : ℕ) → c ≢ b → bit words.new c ≡ bit words.old c }
    ensures length { length words.new ≡ length words.old }
{
    words[b / 64] &= !(1 << (b % 64));
}

/// Makes so many bits 1 that are 0.
pub fn set_run(words: &mut [u64], start: usize, count: usize)
    requires within { start + count ≤ 64 * length words.old }
    requires few { length words.old < 2 ^ 32 }
    requires zeros { (b : ℕ) → start ≤ b → b < start + count → bit words.old b ≡ 0 }
    ensures here { (b : ℕ) → start ≤ b → b < start + count → bit words.new b ≡ 1 }
    ensures below { (b : ℕ) → b < start → bit words.new b ≡ bit words.old b }
    ensures above { (b : ℕ) → start + count ≤ b → bit words.new b ≡ bit words.old b }
    ensures count { (n : ℕ) → start + count ≤ n → one_count words.new n ≡ one_count words.old n + count }
    ensures length { length words.new ≡ length words.old }
{
    for b in start..start + count {
        set(words, b);
    }
}

/// Makes so many bits 0 that are 1.
pub fn clear_run(words: &mut [u64], start: usize, count: usize)
    requires within { start + count ≤ 64 * length words.old }
    requires few { length words.old < 2 ^ 32 }
    requires ones { (b : ℕ) → start ≤ b → b < start + count → bit words.old b ≡ 1 }
    ensures here { (b : ℕ) → start ≤ b → b < start + count → bit words.new b ≡ 0 }
    ensures below { (b : ℕ) → b < start → bit words.new b ≡ bit words.old b }
    ensures above { (b : ℕ) → start + count ≤ b → bit words.new b ≡ bit words.old b }
    ensures count { (n : ℕ) → start + count ≤ n → one_count words.new n + count ≡ one_count words.old n }
    ensures length { length words.new ≡ length words.old }
{
    for b in start..start + count {
        clear(words, b);
    }
}
