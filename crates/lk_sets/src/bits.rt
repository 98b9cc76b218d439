//! Bits in slices of words, the low bit of a word first.
ghost use Rattle.std.specs.Prelude.{◌≡◌, ℕ, true, false, ◌+◌, ◌*◌, ◌/◌, ◌^◌, ◌<◌, ◌≤◌, ◌==◌, ◌||◌, ◌⊎◌, length, not, MatchOption};
ghost use Rattle.lk_sets.specs.Words.{bit_in, IsJoined, AddsBit, AreClear, IsFirstBit};

/// Whether a bit is 1.
pub fn has_bit(words: &[u64], bit: usize) -> bool
    requires { bit / 64 < length words.now }
    ensures { result ≡ bit_in words.now bit }
{
    words[bit / 64] >> (bit % 64) & 1 == 1
}

/// Makes a bit 1, and answers whether it was 0.
pub fn put_bit(words: &mut Vec<u64>, bit: usize) -> bool
    requires { bit / 64 < length words.old.items }
    ensures length { length words.new.items ≡ length words.old.items }
    ensures bits { (k : ℕ) → bit_in words.new.items k ≡ (bit_in words.old.items k || k == bit) }
    ensures new { result ≡ not (bit_in words.old.items bit) }
    ensures same { result ≡ false → words.new.items ≡ words.old.items }
{
    if has_bit(words, bit) {
        return false;
    }
    words[bit / 64] |= 1 << (bit % 64);
    true
}

/// Makes each bit of `count` words 1 whose bit in `count` other words is 1, and answers whether one was 0.
pub fn join_words(words: &mut Vec<u64>, from: usize, into: usize, count: usize) -> bool
    requires from { from + count ≤ length words.old.items }
    requires into { into + count ≤ length words.old.items }
    requires apart { (from ≡ into) ⊎ ((from + count ≤ into) ⊎ (into + count ≤ from)) }
    ensures joined { IsJoined words.old.items words.new.items from into count }
    ensures added { result ≡ true → AddsBit words.old.items from into count }
    ensures same { result ≡ false → words.new.items ≡ words.old.items }
{
    let mut added = false;
    for i in 0..count {
        let old = words[into + i];
        let joined = old | words[from + i];
        words[into + i] = joined;
        added |= joined != old;
    }
    added
}

/// The first bit from `from` on that is 1 in the words before `end`.
pub fn first_bit(words: &[u64], from: usize, end: usize) -> Option<usize>
    requires from { from / 64 < end }
    requires end { end ≤ length words.now }
    requires small { 64 * end < 2 ^ 64 }
    ensures { MatchOption result (AreClear words.now from (64 * end))
        (λ k. IsFirstBit words.now from (64 * end) k) }
{
    let mut at = from / 64;
    let mut word = words[at] & (u64::MAX << (from % 64));
    while word == 0 {
        at += 1;
        if at == end {
            return None;
        }
        word = words[at];
    }
    Some(64 * at + word.trailing_zeros() as usize)
}
