// Text as bytes.
#![tactic(auto)]

ghost use Rattle.std.specs.Prelude.{◌≡◌, cond, ◌&&◌, leb, ◌+◌, ◌≤◌, [], ◌++◌, length, Some, None};
ghost use Rattle.arrayvec.specs.ArrayVec.{array_vec_len};
ghost use Rattle.rules.specs.Base.{all};
ghost use Rattle.layout.specs.Memory.{same_bytes};
ghost use Rattle.text.specs.Decimal.{is_digit, value_after, number as number_of, shown_before};

use arrayvec::ArrayVec;

// Whether two texts are the same, byte for byte.
pub fn same(a: &[u8], b: &[u8]) -> bool
    ensures { result ≡ same_bytes a.now b.now }
{
    a == b
}

// What at most ten digits say; None where another byte is among them, and above the largest number.
fn digits_value(l: &[u8]) -> Option<u32>
    requires { length l.now ≤ 10 }
    ensures { result ≡ cond (all is_digit l.now && leb (value_after 0 l.now) 4294967295) (Some (value_after 0 l.now)) None }
{
    let mut value: u64 = 0;
    for &b in l {
        let digit = b.is_ascii_digit();
        if !digit {
            return None;
        }
        value = 10 * value + u64::from(b - b'0');
    }
    u32::try_from(value).ok()
}

// The number that a text is, if it is one.
pub fn number(l: &[u8]) -> Option<u32>
    ensures { result ≡ number_of l.now }
{
    let long = l.len() > 10;
    if long {
        return None;
    }
    match l {
        [] | [b'0', _, ..] => None,
        _ => digits_value(l),
    }
}

// A number in decimal, put after what a buffer holds.
pub fn show<const N: usize>(n: u64, out: &mut ArrayVec<u8, N>)
    requires { array_vec_len out.old + 20 ≤ N }
    ensures items { out.new.items ≡ out.old.items ++ shown_before n [] }
    ensures len { array_vec_len out.new ≤ array_vec_len out.old + 20 }
{
    let mut digits = itoa::Buffer::new();
    let _fits = out.try_extend_from_slice(digits.format(n).as_bytes());
}
