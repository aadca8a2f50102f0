// The line that asks for a load: a seed, a number of tiles and a number of segments.
ghost use Rattle.std.specs.Prelude.{◌≡◌, ◌≤◌, ◌^◌};
ghost use Rattle.load_statements.specs.Input.{ask};
ghost use Rattle.load_numbers.specs.Read.{FieldRead};

use load_statements::Asked;

// A number below `limit`, and the place after the byte that ends its field.
fn read_field(text: &[u8], at: usize, limit: u64, end: u8) -> Option<(u32, usize)>
    requires { (10 ≤ limit) × (limit ≤ 2 ^ 32) }
    ensures { FieldRead limit end text.now at result }
{
    let (n, next) = decimal::read_unsigned(text, at, limit)?;
    if text.len() <= next {
        return None;
    }
    if text[next] != end {
        return None;
    }
    Some((n as u32, next + 1))
}

// Three numbers in range on one line, and nothing behind it. No other text asks for a load: refusal 10.
pub fn read_input(text: &[u8]) -> Option<Asked>
    ensures { result ≡ ask text.now }
{
    let (seed, second) = read_field(text, 0, 4294967296, b' ')?;
    let (tiles, third) = read_field(text, second, 4096, b' ')?;
    let (count, last) = read_field(text, third, 513, b'\n')?;
    if last < text.len() {
        return None;
    }
    if (0 < tiles) & (0 < count) {
        Some(Asked { seed, tiles, count })
    } else {
        None
    }
}
