//! Sets of numbers below 64, each kept as the bits of a word.

ghost use Rattle.std.specs.Prelude.{◌≡◌, ◌<◌, ◌≤◌, false, true, slice_index, ℕ};
ghost use Rattle.op_model.specs.Nodes.{count as count_of, enlist, in_order, listed, unlist};
ghost use Rattle.dir_header.specs.WordSets.{members};

/// Whether a number is in the set.
pub(crate) fn has(word: u64, i: u32) -> bool
    requires { i < 64 }
    ensures { result ≡ listed (members word) i }
{
    (word >> i) & 1 == 1
}

/// The set with a number.
pub(crate) fn with(word: u64, i: u32) -> u64
    requires { i < 64 }
    ensures { members result ≡ enlist (members word) i }
{
    word | (1 << i)
}

/// The set without a number.
pub(crate) fn without(word: u64, i: u32) -> u64
    requires { i < 64 }
    ensures { members result ≡ unlist (members word) i }
{
    word & !(1 << i)
}

/// The least number of a set that isn't empty.
pub(crate) fn least(word: u64) -> u32
    requires { 0 < word }
    ensures below { result < 64 }
    ensures in_set { listed (members word) result ≡ true }
    ensures least { (q : ℕ) → listed (members word) q ≡ true → result ≤ q }
{
    word.trailing_zeros()
}

/// How many numbers are in the set.
pub(crate) fn count(word: u64) -> u32
    ensures { result ≡ count_of (members word) }
{
    word.count_ones()
}

/// The number at a place of the set in increasing order, counted from 0.
pub(crate) fn nth(word: u64, i: u32) -> u32
    requires { i < count_of (members word) }
    ensures { result ≡ slice_index (in_order (members word)) i }
{
    let mut rest = word;
    for _ in 0..i {
        rest = without(rest, least(rest));
    }
    least(rest)
}
