// Compares verdicts with those of another checker. It reads verdicts.bin, records of a word L, L bytes of table and one byte, the
// verdict, and prints for each verdict how many tables have it there, and how many of these get it here.
#![tactic(auto)]

ghost use Rattle.std.specs.Prelude.{◌≡◌, ◌+◌, ◌*◌, ◌<◌};
ghost use Rattle.verdicts.specs.Tally.{counted, counted_if};
ghost use Rattle.verdict.specs.Verdict.{verdict};

use std::io::{ErrorKind, Read};
use std::{fs, io};

// Counts the verdict v; numbers that no verdict has are passed over.
#[tactic(auto, using(crate::proofs::Counts::counting))]
fn count(counts: &mut [u64; 10], v: u8)
    ensures { counts.new ≡ counted counts.old v }
{
    let i = usize::from(v);
    if i < 10 {
        counts[i] = counts[i].saturating_add(1);
    }
}

// The number of two bytes, the low one first.
fn join(low: u8, high: u8) -> usize
    ensures value { result ≡ low + high * 256 }
    ensures upper_bound { result < 65536 }
{
    usize::from(u16::from_le_bytes([low, high]))
}

// Counts one record: the verdict v that the file has for the table.
#[tactic(auto, using(crate::proofs::Counts::comparing))]
fn compare(table: &[u8], v: u8, seen: &mut [u64; 10], agreed: &mut [u64; 10])
    ensures seen_after { seen.new ≡ counted seen.old v }
    ensures agreed_after { agreed.new ≡ counted_if (verdict 1 table.now) agreed.old v }
{
    count(seen, v);
    if verdict::check(table) == u32::from(v) {
        count(agreed, v);
    }
}

// Fills the room; false where the file ends before.
fn fill(file: &mut impl Read, room: &mut [u8]) -> io::Result<bool> {
    match file.read_exact(room) {
        Ok(()) => Ok(true),
        Err(e) if e.kind() == ErrorKind::UnexpectedEof => Ok(false),
        Err(e) => Err(e),
    }
}

// Reads the rest of a record, a table that fills the room and its verdict, and counts it; false where the file has no more.
fn compare_rest(
    file: &mut impl Read,
    room: &mut [u8],
    seen: &mut [u64; 10],
    agreed: &mut [u64; 10],
) -> io::Result<bool> {
    if !fill(file, room)? {
        return Ok(false);
    }
    let mut last = [0u8; 1];
    if !fill(file, &mut last)? {
        return Ok(false);
    }
    compare(room, last[0], seen, agreed);
    Ok(true)
}

// Reads and counts one record; false where the file has no more.
fn compare_next(
    file: &mut impl Read,
    seen: &mut [u64; 10],
    agreed: &mut [u64; 10],
) -> io::Result<bool> {
    let mut head = [0u8; 2];
    if !fill(file, &mut head)? {
        return Ok(false);
    }
    let length = join(head[0], head[1]);
    let mut room = [0u8; 65536];
    compare_rest(file, &mut room[..length], seen, agreed)
}

// A proved loop has to end, and nothing says that a file does: it counts up to a number that no run reaches.
fn compare_all(
    file: &mut impl Read,
    seen: &mut [u64; 10],
    agreed: &mut [u64; 10],
) -> io::Result<()> {
    for _ in 0..u64::MAX {
        if !compare_next(file, seen, agreed)? {
            break;
        }
    }
    Ok(())
}

// A line for each verdict; a check gives no 1.
fn print_all(rt: &impl Print, seen: [u64; 10], agreed: [u64; 10]) -> io::Result<()> {
    for v in 0..10 {
        if v != 1 {
            println!(rt; "verdict {v}: {} tables, {} agree", seen[v], agreed[v])?;
        }
    }
    Ok(())
}

// A file that cannot be opened is a line on standard error, and nothing else is printed.
fn main(rt: HostRuntime) -> io::Result<()> {
    let path = "verdicts.bin";
    let mut file = match fs::open(&rt, path) {
        Ok(file) => file,
        Err(e) => return eprintln!(rt; "{path}: {e}"),
    };
    let mut seen = [0u64; 10];
    let mut agreed = [0u64; 10];
    compare_all(&mut file, &mut seen, &mut agreed)?;
    print_all(&rt, seen, agreed)
}
