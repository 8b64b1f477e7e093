// A set of numbers below 256 in four 64-bit words that are lent and not copied; and single words of such a set.
#![tactic(auto)]

ghost use Rattle.std.specs.Prelude.{◌≡◌, not, ◌||◌, ◌&&◌, ℕ, ◌+◌, ◌*◌, ◌<◌, eqb, length};
ghost use Rattle.std.specs.Int.Count.{count_trailing_zeros};
ghost use Rattle.layout.specs.Codec.{unpack};
ghost use Rattle.words.specs.Members.{words_have};

// Whether c is a member of the set of these words.
pub fn among(words: &[u64; 4], c: u8) -> bool
    ensures { result ≡ words_have words.now c }
{
    let i = usize::from(c / 64);
    (words[i] >> (c % 64)) % 2 == 1
}

// c becomes a member of the set of these words.
pub fn insert(words: &mut [u64; 4], c: u8)
    ensures words_len { length words.new ≡ 4 }
    ensures by_index { (k : ℕ) → words_have words.new k ≡ eqb k c || words_have words.old k }
{
    let i = usize::from(c / 64);
    words[i] |= 1 << (c % 64);
}

// The members of the set of other words become members of the set of these.
pub fn insert_all(words: &mut [u64; 4], others: &[u64; 4])
    ensures by_index { (k : ℕ) → words_have words.new k ≡ words_have words.old k || words_have others.now k }
{
    for i in 0..4 {
        words[i] |= others[i];
    }
}

// c is a member of the set of these words no more.
pub fn remove(words: &mut [u64; 4], c: u8)
    ensures by_index { (k : ℕ) → words_have words.new k ≡ not (eqb k c) && words_have words.old k }
{
    let i = usize::from(c / 64);
    words[i] &= !(1 << (c % 64));
}

// A word without its lowest bit.
pub fn without_lowest(w: u64) -> u64
    requires { 0 < w }
    ensures { (j : ℕ) → j < 64 → unpack result j ≡ not (eqb j (count_trailing_zeros 64 w)) && unpack w j }
{
    w & !(1 << w.trailing_zeros())
}

// Word `word` of the set of c alone.
pub fn bit_in(c: u8, word: u8) -> u64
    ensures { (j : ℕ) → j < 64 → unpack result j ≡ eqb (64 * word + j) c }
{
    if c / 64 == word {
        return 1 << (c % 64);
    }
    0
}
