// Numbers and runs of bytes at an offset of a slice.
#![tactic(auto)]

ghost use Rattle.std.specs.Prelude.{◌≡◌, ℕ, ◌+◌, ◌-◌, ◌*◌, ◌≤◌, ◌<◌, length, replicate};
ghost use Rattle.rules.specs.Base.{all_below};
ghost use Rattle.layout.specs.Codec.{unpack};
ghost use Rattle.cells.specs.Part.{part, patch, byte_is};
ghost use Rattle.cells.specs.Num.{le, num};
ghost use Rattle.cells.specs.Bits.{bytes_have};

// How many bytes are looked at together where zeros are looked for.
const BLOCK: usize = 1_024;

const HALF: usize = BLOCK / 2;

// The N bytes at an offset.
#[tactic(auto, unfolding(crate::specs::Part::part))]
fn bytes_at<const N: usize>(s: &[u8], at: usize) -> [u8; N]
    requires { at + N ≤ length s.now }
    ensures { result ≡ part s.now at N }
{
    let mut bytes = [0; N];
    bytes.copy_from_slice(&s[at..at + N]);
    bytes
}

// Those bytes replaced.
fn put<const N: usize>(s: &mut [u8], at: usize, bytes: [u8; N])
    requires { at + N ≤ length s.old }
    ensures { s.new ≡ patch s.old at bytes.entry }
{
    s[at..at + N].copy_from_slice(&bytes);
}

// The number in two bytes at an offset.
pub fn read_u16(s: &[u8], at: usize) -> u16
    requires { at + 2 ≤ length s.now }
    ensures { result ≡ num (part s.now at 2) }
{
    let bytes = bytes_at::<2>(s, at);
    u16::from_le_bytes(bytes)
}

// The number in four bytes at an offset.
pub fn read_u32(s: &[u8], at: usize) -> u32
    requires { at + 4 ≤ length s.now }
    ensures { result ≡ num (part s.now at 4) }
{
    let bytes = bytes_at::<4>(s, at);
    u32::from_le_bytes(bytes)
}

// The number in eight bytes at an offset, said by its bits.
pub fn read_u64(s: &[u8], at: usize) -> u64
    requires { at + 8 ≤ length s.now }
    ensures { (k : ℕ) → k < 64 → unpack result k ≡ bytes_have s.now at k }
{
    let bytes = bytes_at::<8>(s, at);
    u64::from_le_bytes(bytes)
}

// A number stored in two bytes at an offset.
pub fn write_u16(s: &mut [u8], at: usize, v: u16)
    requires { at + 2 ≤ length s.old }
    ensures { s.new ≡ patch s.old at (le 2 v) }
{
    put::<2>(s, at, v.to_le_bytes());
}

// A number stored in four bytes at an offset.
pub fn write_u32(s: &mut [u8], at: usize, v: u32)
    requires { at + 4 ≤ length s.old }
    ensures { s.new ≡ patch s.old at (le 4 v) }
{
    put::<4>(s, at, v.to_le_bytes());
}

// A number stored in eight bytes at an offset.
pub fn write_u64(s: &mut [u8], at: usize, v: u64)
    requires { at + 8 ≤ length s.old }
    ensures { s.new ≡ patch s.old at (le 8 v) }
{
    put::<8>(s, at, v.to_le_bytes());
}

// Zeros from an index up to another: std's `fill`, said as the definitions say what is stored.
pub fn clear(s: &mut [u8], from: usize, to: usize)
    requires from_le_to { from ≤ to }
    requires to_in_bounds { to ≤ length s.old }
    ensures { s.new ≡ patch s.old from (replicate (to - from) 0) }
{
    s[from..to].fill(0);
}

// Whether n bytes from an index on are 0. No early way out: the or of the bytes.
pub fn run_zero(s: &[u8], at: usize, n: usize) -> bool
    requires { at + n ≤ length s.now }
    ensures { result ≡ all_below n (byte_is s.now at 0) }
{
    let mut acc: u8 = 0;
    for byte in &s[at..at + n] {
        acc |= *byte;
    }
    acc == 0
}

// The same of at most a block: by two halves of a block that may overlap, or as they are where there are fewer still.
fn few_zero(s: &[u8], from: usize, to: usize) -> bool
    requires from_le_to { from ≤ to }
    requires to_in_bounds { to ≤ length s.now }
    requires from_bound { to - from ≤ 1024 }
    ensures { result ≡ all_below (to - from) (byte_is s.now from 0) }
{
    if to - from < HALF {
        return run_zero(s, from, to - from);
    }
    if !run_zero(s, from, HALF) {
        return false;
    }
    run_zero(s, to - HALF, HALF)
}

// Whether every byte from an index up to another is 0: block by block, to the first that is not. The last block ends at `to`
// and may overlap the one before it, so that there is no rest of another length.
pub fn all_zero(s: &[u8], from: usize, to: usize) -> bool
    requires from_le_to { from ≤ to }
    requires to_in_bounds { to ≤ length s.now }
    ensures { result ≡ all_below (to - from) (byte_is s.now from 0) }
{
    if to - from < BLOCK {
        return few_zero(s, from, to);
    }
    let step = BLOCK;
    for i in (from..to - BLOCK).step_by(step) {
        if !run_zero(s, i, BLOCK) {
            return false;
        }
    }
    run_zero(s, to - BLOCK, BLOCK)
}
