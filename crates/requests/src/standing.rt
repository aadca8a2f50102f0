// W-212, which layer record stands: each example's name, and whether the answer and the ids of the table are its own.
use crate::printing::print;
use refusals::Refusal;
use std::io;

// How many layers stand, or 100 and the number of the refusal.
fn told(answer: Result<usize, Refusal>) -> usize {
    match answer {
        Ok(n) => n,
        Err(refusal) => tell(refusals::number_of(refusal)),
    }
}

fn tell(number: u32) -> usize {
    if number < 100 {
        100 + number as usize
    } else {
        0
    }
}

// The records with one more, of an id and a revision, of a kind, with a blend mode, at a place below 6.
fn put(records: [u32; 60], i: usize, id: u32, revision: u32, kind: u32, mode: u32) -> [u32; 60] {
    let mut all = records;
    if i < 6 {
        let at = 10 * i;
        all[at] = id;
        all[at + 1] = revision;
        all[at + 2] = kind;
        all[at + 8] = mode;
    }
    all
}

// The first `count` records, or all where there are fewer.
fn first_records(records: &[u32], count: usize) -> &[u32] {
    if 6 < count {
        return records;
    }
    let end = 10 * count;
    if records.len() < end {
        return records;
    }
    &records[..end]
}

// Whether the first `count` records give an answer and, in a table of three entries, these ids; 9 stands where nothing
// is written.
fn gives(
    records: [u32; 60],
    count: usize,
    answer: usize,
    first: u32,
    second: u32,
    third: u32,
) -> bool {
    let record_colors = [0.5f32; 24];
    let mut layers = [9u32; 24];
    let mut colors = [0.0f32; 12];
    let sent = first_records(&records, count);
    let got = told(revisions::stand(sent, &record_colors, &mut layers, &mut colors));
    (got == answer) & (layers[0] == first) & (layers[8] == second) & (layers[16] == third)
}

// The same with a table of one entry.
fn gives_one(records: [u32; 60], count: usize, answer: usize, first: u32) -> bool {
    let record_colors = [0.5f32; 24];
    let mut layers = [9u32; 8];
    let mut colors = [0.0f32; 4];
    let sent = first_records(&records, count);
    let got = told(revisions::stand(sent, &record_colors, &mut layers, &mut colors));
    (got == answer) & (layers[0] == first)
}

// Layer 3 is withdrawn by its highest revision, or stands again above it, or has two records of revision 9.
fn print_revisions(rt: &impl Print) -> io::Result<()> {
    let one = put([0u32; 60], 0, 3, 5, 0, 0);
    let two = put(one, 1, 1, 2, 0, 0);
    let three = put(two, 2, 3, 9, 1, 0);
    let four = put(three, 3, 1, 1, 0, 0);
    let five = put(four, 4, 2, 4294967295, 0, 0);
    print(rt, b"layers 1 and 2 stand", gives(five, 5, 2, 1, 2, 9))?;
    print(
        rt,
        b"layers 1, 2 and 3 stand",
        gives(put(five, 5, 3, 10, 0, 0), 6, 3, 1, 2, 3),
    )?;
    print(
        rt,
        b"equal revisions, 15",
        gives(put(five, 5, 3, 9, 0, 0), 6, 115, 9, 9, 9),
    )?;
    print(rt, b"no record, no layer", gives(five, 0, 0, 9, 9, 9))?;
    print(
        rt,
        b"a withdrawal alone, no layer",
        gives(put(five, 0, 7, 0, 1, 0), 1, 0, 9, 9, 9),
    )
}

// The order of judging, and the edges of each number.
fn print_refusals(rt: &impl Print) -> io::Result<()> {
    let one = put([0u32; 60], 0, 4, 1, 0, 15);
    let two = put(one, 1, 9, 2, 0, 0);
    let twins = put(two, 2, 9, 2, 1, 0);
    print(
        rt,
        b"4 before 15",
        gives(put(twins, 0, 2097152, 1, 0, 0), 3, 104, 9, 9, 9),
    )?;
    print(rt, b"15 before 1", gives_one(twins, 3, 115, 9))?;
    print(
        rt,
        b"two layers, room for one, 1",
        gives_one(two, 2, 101, 9),
    )?;
    print(
        rt,
        b"one withdrawn, room for one",
        gives_one(put(two, 2, 9, 3, 1, 99), 3, 1, 4),
    )?;
    print(
        rt,
        b"blend mode 16, 4",
        gives(put(two, 0, 4, 1, 0, 16), 2, 104, 9, 9, 9),
    )?;
    print(
        rt,
        b"kind 2, 4",
        gives(put(two, 0, 4, 1, 2, 0), 2, 104, 9, 9, 9),
    )
}

pub fn print_cases(rt: &impl Print) -> io::Result<()> {
    print_revisions(rt)?;
    print_refusals(rt)
}
