// The marks of locations (02, g): one bit each, sixteen in a word, behind the control records.
#![tactic(auto)]

ghost use Rattle.std.specs.Prelude.{◌≡◌, ◌+◌, ◌*◌, ◌%◌, ◌≤◌, ◌<◌};
ghost use Rattle.machine.specs.Memory.{memory_of};
ghost use Rattle.machine.specs.Layout.{locations};
ghost use Rattle.machine.specs.Lent.{State, Becomes};
ghost use Rattle.machine.specs.Marks.{marked, set_marks, all_marked};
ghost use Rattle.machine.specs.MarkRuns.{mask_of, put_run, full_run, MarkRun};

// The word where the marks begin.
pub const MARKS: usize = 17664;

// Bits k .. k + c - 1.
#[tactic(auto, using(machine::proofs::MarkBits::one_there, machine::proofs::MarkBits::mask_fits, machine::proofs::MarkBits::mask_shifted))]
fn mask(k: usize, c: usize) -> u16
    requires { k + c ≤ 16 }
    ensures { result ≡ mask_of k c }
{
    (((1usize << c) - 1) << k) as u16
}

// The word with bits k .. k + c - 1 set or cleared.
#[tactic(auto, using(machine::proofs::MarkBits::or_mask, machine::proofs::MarkBits::and_mask))]
fn put_run(w: u16, k: usize, c: usize, v: bool) -> u16
    requires { k + c ≤ 16 }
    ensures { result ≡ put_run w k c v }
{
    let m = mask(k, c);
    if v { w | m } else { w - (w & m) }
}

#[tactic(auto, using(machine::proofs::MarkBits::full_is))]
fn full_run(w: u16, k: usize, c: usize) -> bool
    requires { k + c ≤ 16 }
    ensures { result ≡ full_run w k c }
{
    let m = mask(k, c);
    w & m == m
}

// ---- one location

#[tactic(auto, using(crate::proofs::Marking::mark_is))]
pub fn is_marked(s: &[u8], a: usize) -> bool
    requires state { State s.now }
    requires a_lt_locations { a < locations }
    ensures { result ≡ marked (memory_of s.now) a }
{
    // one byte of the mark word is enough, and is read faster
    let b = s[MARKS * 2 + a / 8];
    (usize::from(b) >> (a % 8)) % 2 == 1
}

// ---- locations that have their marks in one word

#[tactic(auto, using(crate::proofs::Marking::run_set))]
fn set_run(s: &mut [u8], a: usize, c: usize, v: bool)
    requires state { State s.old }
    requires a_lt_locations { (a < locations) × (a % 16 + c ≤ 16) }
    ensures { Becomes s.new (set_marks (memory_of s.old) a c v) }
{
    let i = MARKS + a / 16;
    let w = machine::word_of(s, i);
    let x = put_run(w, a % 16, c, v);
    machine::set_word(s, i, x);
}

#[tactic(auto, using(crate::proofs::Marking::run_is))]
fn all_run(s: &[u8], a: usize, c: usize) -> bool
    requires state { State s.now }
    requires a_lt_locations { (a < locations) × (a % 16 + c ≤ 16) }
    ensures { result ≡ all_marked (memory_of s.now) a c }
{
    let w = machine::word_of(s, MARKS + a / 16);
    full_run(w, a % 16, c)
}

// How many of the `left` locations from a on have their marks in one word.
fn part_of(a: usize, left: usize) -> usize
    requires { 1 ≤ left }
    ensures { MarkRun a left result }
{
    let room = 16 - a % 16;
    left.min(room)
}

// ---- whole words of marks

// All marks of the n words from mark word i on, as for a whole area: the compiler drops the load, and fills.
#[tactic(auto, using(crate::proofs::Marking::fills))]
pub fn set_whole(s: &mut [u8], i: usize, n: usize, v: bool)
    requires state { State s.old }
    requires n_bound { i + n ≤ 1024 }
    ensures { Becomes s.new (set_marks (memory_of s.old) (i * 16) (n * 16) v) }
{
    for k in 0..n {
        set_run(s, (i + k) * 16, 16, v);
    }
}

#[tactic(auto, using(crate::proofs::Marking::tests))]
fn all_whole(s: &[u8], i: usize, n: usize) -> bool
    requires state { State s.now }
    requires n_bound { i + n ≤ 1024 }
    ensures { result ≡ all_marked (memory_of s.now) (i * 16) (n * 16) }
{
    // a closure for `all` would cost every step an instruction
    for k in 0..n {
        if !all_run(s, (i + k) * 16, 16) {
            return false;
        }
    }
    true
}

// ---- any locations: those up to the end of the first word, whole words, and the rest

#[tactic(auto, using(crate::proofs::Marking::none_set))]
fn set_rest(s: &mut [u8], a: usize, c: usize, v: bool)
    requires state { State s.old }
    requires c_bound { (a + c ≤ locations) × (a % 16 + c ≤ 16) }
    ensures { Becomes s.new (set_marks (memory_of s.old) a c v) }
{
    if c > 0 {
        set_run(s, a, c, v);
    }
}

#[tactic(auto, using(crate::proofs::Marking::none_tested))]
fn all_rest(s: &[u8], a: usize, c: usize) -> bool
    requires state { State s.now }
    requires c_bound { (a + c ≤ locations) × (a % 16 + c ≤ 16) }
    ensures { result ≡ all_marked (memory_of s.now) a c }
{
    c == 0 || all_run(s, a, c)
}

#[tactic(auto, using(crate::proofs::Marking::parting))]
fn set_range(s: &mut [u8], a: usize, n: usize, v: bool)
    requires state { State s.old }
    requires le_n { (1 ≤ n) × (a + n ≤ locations) }
    ensures { Becomes s.new (set_marks (memory_of s.old) a n v) }
{
    let c = part_of(a, n);
    let k = (n - c) / 16;
    set_run(s, a, c, v);
    set_whole(s, (a + c) / 16, k, v);
    set_rest(s, a + c + k * 16, n - c - k * 16, v);
}

#[tactic(auto, using(crate::proofs::Marking::parting))]
fn test_range(s: &[u8], a: usize, n: usize) -> bool
    requires state { State s.now }
    requires le_n { (1 ≤ n) × (a + n ≤ locations) }
    ensures { result ≡ all_marked (memory_of s.now) a n }
{
    let c = part_of(a, n);
    let k = (n - c) / 16;
    all_run(s, a, c) && all_whole(s, (a + c) / 16, k) && all_rest(s, a + c + k * 16, n - c - k * 16)
}

// ---- what callers use: one location, which is most calls, goes by itself

#[tactic(auto, using(crate::proofs::Marking::none_tested))]
pub fn all_marked(s: &[u8], a: usize, n: usize) -> bool
    requires state { State s.now }
    requires n_bound { a + n ≤ locations }
    ensures { result ≡ all_marked (memory_of s.now) a n }
{
    match n {
        1 => all_run(s, a, 1),
        0 => true,
        _ => test_range(s, a, n),
    }
}

#[tactic(auto, using(crate::proofs::Marking::none_set))]
pub fn set_marks(s: &mut [u8], a: usize, n: usize, v: bool)
    requires state { State s.old }
    requires n_bound { a + n ≤ locations }
    ensures { Becomes s.new (set_marks (memory_of s.old) a n v) }
{
    match n {
        1 => set_run(s, a, 1, v),
        0 => {},
        _ => set_range(s, a, n, v),
    }
}
