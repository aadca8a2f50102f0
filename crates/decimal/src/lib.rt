// Whole numbers as text: reading one at a place of a text, and printing one.
#![tactic(auto)]

ghost use Rattle.std.specs.Prelude.{◌≡◌, ◌+◌, ◌≤◌, ◌^◌, length};
ghost use Rattle.decimal.specs.Decimal.{decimal, decimalℤ, is_digit};
ghost use Rattle.decimal.specs.Read.{UnsignedRead, SignedRead};
ghost use Rattle.decimal.specs.Print.{Printing};

pub fn is_digit(b: u8) -> bool
    ensures { result ≡ is_digit b }
{
    (b'0' <= b) & (b <= b'9')
}

// The number at a place, below `limit`, and the place after it: no leading zeros, and no digit after it.
pub fn read_unsigned(s: &[u8], at: usize, limit: u64) -> Option<(u64, usize)>
    requires { (10 ≤ limit) × (limit ≤ 2 ^ 32) }
    ensures { UnsignedRead limit s.now at result }
{
    if s.len() <= at {
        return None;
    }
    let first = s[at];
    if !is_digit(first) {
        return None;
    }
    let mut n = (first - b'0') as u64;
    for i in at + 1..s.len() {
        let b = s[i];
        if !is_digit(b) {
            return Some((n, i));
        }
        if n == 0 {
            return None;
        }
        let longer = n * 10 + (b - b'0') as u64;
        if limit <= longer {
            return None;
        }
        n = longer;
    }
    Some((n, s.len()))
}

// The same with a sign, of at most seven digits: a minus stands only before a number that is not 0.
pub fn read_signed(s: &[u8], at: usize) -> Option<(i32, usize)>
    ensures { SignedRead s.now at result }
{
    if s.len() <= at {
        return None;
    }
    if s[at] == b'-' {
        let (m, next) = read_unsigned(s, at + 1, 10000000)?;
        if m == 0 {
            return None;
        }
        let v = m as i32;
        Some((-v, next))
    } else {
        let (n, next) = read_unsigned(s, at, 10000000)?;
        Some((n as i32, next))
    }
}

// Prints a number from place `at` on, and answers the place after it.
pub fn print_decimal(out: &mut [u8], at: usize, n: u32) -> usize
    requires { at + length (decimal n) ≤ length out.old }
    ensures { Printing (decimal n) out.old at result out.new }
{
    if n < 10 {
        out[at] = b'0' + (n as u8);
        return at + 1;
    }
    let last = print_decimal(out, at, n / 10);
    out[last] = b'0' + ((n % 10) as u8);
    last + 1
}

// Prints a number with its sign from place `at` on, in at most 11 bytes, and answers the place after it.
pub fn print_signed(out: &mut [u8], at: usize, v: i32) -> usize
    requires { at + 11 ≤ length out.old }
    ensures { (Printing (decimalℤ v) out.old at result out.new) × (result ≤ at + 11) }
{
    let size = v.unsigned_abs();
    if v < 0 {
        out[at] = b'-';
        return print_decimal(out, at + 1, size);
    }
    print_decimal(out, at, size)
}
