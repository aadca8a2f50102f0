// Reading a text of names and lines of whole numbers into a lent list, and printing such a line.
#![tactic(auto)]

ghost use Rattle.std.specs.Prelude.{◌≡◌, ◌+◌, ◌*◌, ◌≤◌, length, drop};
ghost use Rattle.decimal.specs.Print.{Printing};
ghost use Rattle.lines.specs.Text.{line_text};
ghost use Rattle.lines.specs.Parse.{end_at, starts_number, parse_lines, parse_block};
ghost use Rattle.lines.specs.Read.{PrefixRead, LineRead, LinesRead};

// Passes over a prefix, byte for byte, to the place after it.
pub fn read_prefix(s: &[u8], at: usize, prefix: &[u8]) -> Option<usize>
    requires { at ≤ length s.now }
    ensures { PrefixRead prefix.now s.now at result }
{
    if s[at..].starts_with(prefix) {
        Some(at + prefix.len())
    } else {
        None
    }
}

// What ends a field that has `left` fields after it in its line.
fn end_at(left: usize) -> u8
    ensures { result ≡ end_at left }
{
    if left == 0 { b'\n' } else { b' ' }
}

// Reads a line of k numbers, and stores them from place o on: the place after the line.
pub fn read_line(s: &[u8], at: usize, k: usize, out: &mut [i32], o: usize) -> Option<usize>
    requires { (at ≤ length s.now) × (o + k ≤ length out.old) }
    ensures { LineRead k s.now at out.old o result out.new }
{
    let mut i = at;
    for j in 0..k {
        let (v, next) = decimal::read_signed(s, i)?;
        if s.len() <= next {
            return None;
        }
        if s[next] != end_at(k - 1 - j) {
            return None;
        }
        out[o + j] = v;
        i = next + 1;
    }
    Some(i)
}

// Whether a number comes next.
fn starts_number(s: &[u8], at: usize) -> bool
    ensures { result ≡ starts_number (drop at s.now) }
{
    if s.len() <= at {
        return false;
    }
    let b = s[at];
    decimal::is_digit(b) | (b == b'-')
}

// Reads lines of k numbers while numbers come, at most m lines, and stores them from the front on: how many lines,
// and the place after them.
pub fn read_lines(
    s: &[u8],
    at: usize,
    m: usize,
    k: usize,
    out: &mut [i32],
) -> Option<(usize, usize)>
    requires { (at ≤ length s.now) × (m * k ≤ length out.old) }
    ensures { LinesRead (parse_lines m k (drop at s.now)) s.now out.old result
        out.new }
{
    let mut i = at;
    let mut p: usize = 0;
    for j in 0..m {
        if !starts_number(s, i) {
            return Some((j, i));
        }
        i = read_line(s, i, k, out, p)?;
        p += k;
    }
    Some((m, i))
}

// A block: a line of names, then lines of k numbers, at most m of them: how many lines of numbers, and the place after
// them.
pub fn read_block(
    s: &[u8],
    at: usize,
    names: &[u8],
    m: usize,
    k: usize,
    out: &mut [i32],
) -> Option<(usize, usize)>
    requires { (at ≤ length s.now) × (m * k ≤ length out.old) }
    ensures { LinesRead (parse_block names.now m k (drop at s.now)) s.now
        out.old result out.new }
{
    let first = read_prefix(s, at, names)?;
    read_lines(s, first, m, k, out)
}

// Prints a line from place `at` on, each number and its end in at most 12 bytes, and answers the place after it.
pub fn print_line(out: &mut [u8], at: usize, numbers: &[i32]) -> usize
    requires { at + 12 * length numbers.now ≤ length out.old }
    ensures { (Printing (line_text numbers.now) out.old at result out.new)
        × (result ≤ at + 12 * length numbers.now) }
{
    let mut p = at;
    for (j, number) in numbers.iter().enumerate() {
        let end = decimal::print_signed(out, p, *number);
        out[end] = end_at(numbers.len() - 1 - j);
        p = end + 1;
    }
    p
}
