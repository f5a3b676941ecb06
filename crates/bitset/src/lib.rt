// Sets of small numbers in lent words: number i is bit i % 64 of word i / 64.
#![tactic(auto)]

ghost use Rattle.std.specs.Prelude.{◌≡◌, ◌*◌, ◌<◌, length};
ghost use Rattle.bitset.specs.Bitset.{in_set, inserted};

// Whether number i is in the set.
pub fn has(words: &[u64], i: usize) -> bool
    requires { i < 64 * length words.now }
    ensures { result ≡ in_set words.now i }
{
    masks::has(words[i / 64], (i % 64) as u64)
}

// Number i joins the set.
pub fn insert(words: &mut [u64], i: usize)
    requires { i < 64 * length words.old }
    ensures { words.new ≡ inserted words.old i }
{
    let k = i / 64;
    words[k] = masks::with(words[k], (i % 64) as u64);
}
