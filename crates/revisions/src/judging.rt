// Judging the records by number 4. What is said holds whatever the colours are.
ghost use Rattle.std.specs.Prelude.{◌≡◌, List, ◌+◌, ◌*◌, ◌≤◌, Float, length};
ghost use Rattle.laws.specs.Lists.{all};
ghost use Rattle.revision_statements.specs.Sent.{sent_words_at, sent_at, is_good, first_sent};

use layer_table::Words;

// The largest layer id.
const LAYER_LIMIT: u32 = 2097151;

// The words of a record that are those of a layer table.
// Beside `layer_table`'s: two words stand between the id and the rest here, so one of both would take two places.
pub fn words_at(records: &[u32], i: usize) -> Words
    requires { 10 * i + 10 ≤ length records.now }
    ensures { result ≡ sent_words_at records.now i }
{
    let at = 10 * i;
    Words {
        id: records[at],
        rule: records[at + 3],
        func: records[at + 4],
        span: records[at + 5],
        clipped: records[at + 6],
        fill: records[at + 7],
        mode: records[at + 8],
        unchanged: records[at + 9],
    }
}

// Whether number 4 does not apply to a record.
fn is_good(records: &[u32], i: usize) -> bool
    requires { 10 * i + 10 ≤ length records.now }
    ensures { (floats : List Float) → result ≡ is_good (sent_at records.now floats i) }
{
    let words = words_at(records, i);
    let kind = records[10 * i + 2];
    if kind == 0 {
        layer_table::is_in_range(words)
    } else {
        (words.id <= LAYER_LIMIT) & (kind == 1)
    }
}

// Whether number 4 does not apply to the first `n` records. No early exit: records are good more often than not.
pub fn are_good(records: &[u32], n: usize) -> bool
    requires { 10 * n ≤ length records.now }
    ensures { (floats : List Float) → result ≡ all is_good (first_sent records.now floats n) }
{
    let mut ok = true;
    for i in 0..n {
        ok &= is_good(records, i);
    }
    ok
}
