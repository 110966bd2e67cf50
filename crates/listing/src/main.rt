// The listing program (01): it reads joyce.tab and joyce.sch, prints the verdict and, where that is 0, a line for each step over zeroed
// device words: step number, process, answer. The schedule is run in pieces, however long it is; demand 3 makes the pieces agree.
#![tactic(auto)]

ghost use Rattle.std.specs.Prelude.{◌≤◌, length, IfOk};

use std::io::{Eprint, Read};
use std::rt::Files;
use std::{fs, io};

// Reads until the room is full or the file ends, and answers how many bytes it put at the start of the room.
fn read_full(file: &mut impl Read, room: &mut [u8]) -> io::Result<usize>
    ensures { IfOk result (λ n. n ≤ length room.new) }
{
    let mut done = 0;
    while done < room.len() {
        let n = file.read(&mut room[done..])?;
        if n == 0 {
            break;
        }
        done += n;
    }
    Ok(done)
}

// The file can be opened, and a read of it does not fail; a directory can only be opened.
fn try_read(rt: &impl Files, path: &str) -> io::Result<()> {
    let mut file = fs::open(rt, path)?;
    let mut one = [0u8; 1];
    file.read(&mut one)?;
    Ok(())
}

// As try_read; where it fails, a line on standard error says so.
fn is_readable(rt: &(impl Files + Eprint), path: &str) -> io::Result<bool> {
    match try_read(rt, path) {
        Ok(()) => Ok(true),
        Err(e) => {
            eprintln!(rt; "{path}: {e}")?;
            Ok(false)
        }
    }
}

// Prints the lines of the steps of a piece, and answers the number of the last, up to the largest of 64 bits.
fn print_steps(rt: &impl Print, schedule: &[u8], answers: &[u8], done: u64) -> io::Result<u64> {
    let mut number = done;
    for (process, answer) in schedule.iter().zip(answers) {
        number = number.saturating_add(1);
        println!(rt; "{number} {process} {answer}")?;
    }
    Ok(number)
}

// Runs a piece of the schedule and prints its steps.
fn run_piece(
    rt: &impl Print,
    table: &[u8],
    state: &mut [u8],
    page: &mut [u8],
    piece: &[u8],
    done: u64,
) -> io::Result<u64> {
    let mut answers = [0u8; 4096];
    // It is not refused: the table is accepted, the lengths are right and the state is of this run.
    let _ = stepper::run(table, state, page, piece, &mut answers);
    print_steps(rt, piece, &answers, done)
}

// Runs the next piece of the file, and answers the number of its last step.
fn run_next(
    rt: &impl Print,
    table: &[u8],
    state: &mut [u8],
    page: &mut [u8],
    file: &mut impl Read,
    done: u64,
) -> io::Result<u64> {
    let mut piece = [0u8; 4096];
    let n = read_full(file, &mut piece)?;
    run_piece(rt, table, state, page, &piece[..n], done)
}

// Runs the file piece by piece, to its end. A proved loop has to end, and nothing says that a file does: it counts up to a number that
// no run reaches.
fn run_all(
    rt: &impl Print,
    table: &[u8],
    state: &mut [u8],
    page: &mut [u8],
    file: &mut impl Read,
) -> io::Result<()> {
    let mut done: u64 = 0;
    for _ in 0..u64::MAX {
        let next = run_next(rt, table, state, page, file, done)?;
        if next == done {
            break;
        }
        done = next;
    }
    Ok(())
}

// Prints the steps of the schedule, from the state in which the table's run begins: with 0, no variable having a value (02, g).
fn list_steps(rt: &impl Print, table: &[u8], file: &mut impl Read) -> io::Result<()> {
    let mut state = [0u8; 37376];
    let mut page = [0u8; 8192];
    // It is not refused: the table is accepted, and the length and the number are right.
    let _ = states::begin(table, &mut state, 0);
    run_all(rt, table, &mut state, &mut page, file)
}

// Prints the verdict, and the steps where it is 0.
fn list(rt: &(impl Files + Print), table: &[u8]) -> io::Result<()> {
    let verdict = verdict::check(table);
    println!(rt; "verdict {verdict}")?;
    if verdict == 0 {
        let mut file = fs::open(rt, "joyce.sch")?;
        list_steps(rt, table, &mut file)?;
    }
    Ok(())
}

// Zero bytes are an empty slot: a word of it on standard error, and then the listing as of any table.
fn tell_empty(rt: &impl Eprint, n: usize) -> io::Result<()> {
    if n == 0 {
        eprintln!(rt; "joyce.tab: 0 bytes, no cartridge")?;
    }
    Ok(())
}

// Reads the table. A file longer than the room is longer than any table, and so are the bytes of it that fill the room.
fn list_file(rt: &(impl Files + Print + Eprint)) -> io::Result<()> {
    let mut file = fs::open(rt, "joyce.tab")?;
    let mut room = [0u8; 65536];
    let n = read_full(&mut file, &mut room)?;
    tell_empty(rt, n)?;
    list(rt, &room[..n])
}

// Both files are tried before anything is printed: where one cannot be read, there is a message that names it, and no verdict.
fn main(rt: HostRuntime) -> io::Result<()> {
    if is_readable(&rt, "joyce.tab")? && is_readable(&rt, "joyce.sch")? {
        list_file(&rt)?;
    }
    Ok(())
}
