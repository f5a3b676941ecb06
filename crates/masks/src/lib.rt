// Sets of voters as words: bit v is voter v, and the weight of a set is its number of ones.
#![tactic(auto)]

ghost use Rattle.std.specs.Prelude.{not, ◌&&◌, ◌≡◌, ◌^◌, ◌<◌, leb};
ghost use Rattle.protocol.specs.Walk.{count_below};
ghost use Rattle.protocol.specs.Words.{bit_of};
ghost use Rattle.masks.specs.Masks.{mask_of, added};

// The set with one voter more.
pub fn with(mask: u64, v: u64) -> u64
    requires { v < 64 }
    ensures { result ≡ mask_of 64 (added (bit_of mask) v) }
{
    mask | (1 << v)
}

// The set without the voters of another.
pub fn without(mask: u64, other: u64) -> u64
    ensures { result ≡ mask_of 64 (λ v. bit_of mask v && not (bit_of other v)) }
{
    mask & !other
}

// Whether voter v is in the set.
pub fn has(mask: u64, v: u64) -> bool
    requires { v < 64 }
    ensures { result ≡ bit_of mask v }
{
    (mask >> v) % 2 == 1
}

// Whether a voter that is not below n is in the set.
pub fn has_from(mask: u64, n: u64) -> bool
    ensures { result ≡ leb (2 ^ n) mask }
{
    n < 64 && mask >> n != 0
}

// The weight of a set: how many voters are in it.
pub fn weight(mask: u64) -> u32
    ensures { result ≡ count_below (bit_of mask) 64 }
{
    u64::count_ones(mask)
}
