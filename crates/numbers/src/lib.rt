// Block numbers of two words: their order and two tests of them, and numbers kept in lent words.
#![tactic(auto, unfolding(protocol::specs::Words::from_halves, protocol::specs::Words::lower_of, protocol::specs::Words::upper_of, protocol::specs::Words::is_wide, crate::specs::NumberWords::number_in, crate::specs::NumberWords::kept_in))]

ghost use Rattle.std.specs.Prelude.{◌≡◌, ◌+◌, eqb, ltb};
ghost use Rattle.protocol.specs.Words.{value, is_wide};
ghost use Rattle.numbers.specs.NumberWords.{number_in, kept_in, NumbersFit};

use protocol::Number;

// The order that `<` has, derived: with the halves the other way round in the struct it would be another.
pub fn is_below(a: Number, b: Number) -> bool
    ensures { result ≡ ltb (value a) (value b) }
{
    a < b
}

// Whether it is block 0's.
pub fn is_zero(n: Number) -> bool
    ensures { result ≡ eqb (value n) 0 }
{
    n == Number { upper: 0, lower: 0 }
}

// Whether it does not fit 64 bits.
pub fn is_wide(n: Number) -> bool
    ensures { result ≡ is_wide (value n) }
{
    n.upper != 0
}

// ---- numbers kept in lent words, two words for each

pub fn kept_at(words: &[u64], i: usize) -> Number
    requires { NumbersFit (i + 1) words.now }
    ensures { value result ≡ number_in words.now i }
{
    Number {
        lower: words[2 * i],
        upper: words[2 * i + 1],
    }
}

pub fn keep(words: &mut [u64], i: usize, n: Number)
    requires { NumbersFit (i + 1) words.old }
    ensures { words.new ≡ kept_in words.old i (value n) }
{
    words[2 * i] = n.lower;
    words[2 * i + 1] = n.upper;
}
