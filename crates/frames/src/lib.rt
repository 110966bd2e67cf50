// What statements write into a lent state: where a process stands, frames, records (01, A step). Callers test first.
#![tactic(auto)]

ghost use Rattle.std.specs.Prelude.{◌≡◌, [], ◌+◌, ◌≤◌, ◌<◌, length, take};
ghost use Rattle.types.specs.Types.{evened};
ghost use Rattle.sizes.specs.Sizes.{module_words};
ghost use Rattle.code.specs.Code.{decoded};
ghost use Rattle.machine.specs.Memory.{memory_of, update, store, clear, words_at};
ghost use Rattle.machine.specs.Layout.{location, statement_at, works_at, holder_at, failure_at, state_words, locations};
ghost use Rattle.machine.specs.Marks.{mark, fresh};
ghost use Rattle.machine.specs.Lent.{State, Becomes};
ghost use Rattle.machine.specs.Texts.{text_at};
ghost use Rattle.machine.specs.Variables.{frame_words};
ghost use Rattle.machine.specs.Calls.{standing};
ghost use Rattle.machine.specs.Processes.{created, started};
ghost use Rattle.frames.specs.Frames.{Direct, with_position, padded, linked, framed, framed_marks, entered, called_in, left, wiped, with_parameters, with_start, with_process, ended, CallLeaves, ReturnLeaves, FrameFits, InCall};

// The words, to those from `at` on.
#[tactic(auto, using(crate::proofs::Storing::copies))]
pub fn copy_words(state: &mut [u8], at: usize, words: &[u16])
    requires state { State state.old }
    requires words_bound { at + length words.now ≤ state_words }
    ensures { Becomes state.new (store (memory_of state.old) at words.now) }
{
    for (k, w) in words.iter().enumerate() {
        machine::set_word(state, at + k, *w);
    }
}

// The n words from `from` on, to `to`, one after the other: no word is read after another was stored in its place (02, d).
#[tactic(auto, using(crate::proofs::Storing::copies))]
fn copy_across(state: &mut [u8], from: usize, to: usize, n: usize)
    requires state { State state.old }
    requires direct { Direct from to n }
    ensures { Becomes state.new (store (memory_of state.old) to (words_at (memory_of state.old) from n)) }
{
    for k in 0..n {
        let w = machine::word_of(state, from + k);
        machine::set_word(state, to + k, w);
    }
}

// The n words from `from` on, to `to`, directly: the two are the same words, and there is nothing to do, or share none.
#[tactic(auto, using(crate::proofs::Storing::moves_itself))]
fn move_words(state: &mut [u8], from: usize, to: usize, n: usize)
    requires state { State state.old }
    requires direct { Direct from to n }
    ensures { Becomes state.new (store (memory_of state.old) to (words_at (memory_of state.old) from n)) }
{
    if from != to {
        copy_across(state, from, to, n);
    }
}

// The word w, to location a: it has a value now (02, g).
#[tactic(auto, using(crate::proofs::Marks::marks))]
pub fn store_word(state: &mut [u8], a: usize, w: u16)
    requires state { State state.old }
    requires a_lt_locations { a < locations }
    ensures { Becomes state.new (mark (update (memory_of state.old) a w) a 1) }
{
    machine::set_word(state, a, w);
    marks::set_marks(state, a, 1, true);
}

// The n words from `from` on, to `to`, which have values now (02, g).
#[tactic(auto, using(crate::proofs::Marks::marks))]
pub fn assign_words(state: &mut [u8], from: usize, to: usize, n: usize)
    requires state { State state.old }
    requires direct { Direct from to n }
    ensures { Becomes state.new (mark (store (memory_of state.old) to (words_at (memory_of state.old) from n)) to n) }
{
    move_words(state, from, to, n);
    marks::set_marks(state, to, n, true);
}

// The string constant of q characters from p on, which are n with the character 0 that an odd one gains (02, b), to `at`.
#[tactic(auto, using(crate::proofs::Storing::texts))]
fn put_text(c: &code::Slots, state: &mut [u8], at: usize, p: usize, q: usize, n: usize)
    requires state { State state.old }
    requires n_bound { (at + n ≤ locations) × ((p < 65536) × (n ≡ evened q)) }
    ensures { Becomes state.new (store (memory_of state.old) at (text_at (decoded c.now) p q)) }
{
    for i in 0..n {
        machine::set_word(state, at + i, code::text_word(c, p, q, i) as u16);
    }
}

// The string constant of q characters from p on, to the locations from `at` on, which have values now (02, b, g).
#[tactic(auto, using(crate::proofs::Marks::marks))]
pub fn assign_text(c: &code::Slots, state: &mut [u8], at: usize, p: usize, q: usize)
    requires state { State state.old }
    requires q_bound { (at + evened q ≤ locations) × (p < 65536) }
    ensures { Becomes state.new (mark (store (memory_of state.old) at (text_at (decoded c.now) p q)) at (length (text_at (decoded c.now) p q))) }
{
    let n = types::evened_of(q);
    put_text(c, state, at, p, q, n);
    marks::set_marks(state, at, n, true);
}

// The n locations from a on are made: unmarked or marked, by the number that the run was begun with (02, g).
#[tactic(auto, using(crate::proofs::Marks::marks))]
fn make_fresh(state: &mut [u8], a: usize, n: usize)
    requires state { State state.old }
    requires n_bound { a + n ≤ locations }
    ensures { Becomes state.new (fresh (memory_of state.old) a n) }
{
    let number = machine::record_word(state, 1, machine::NUMBER);
    marks::set_marks(state, a, n, number == 1);
}

// The area of process p is made.
#[tactic(auto, using(crate::proofs::Marks::marks))]
fn make_area(state: &mut [u8], p: usize)
    requires state { State state.old }
    requires le_p { (1 ≤ p) × (p ≤ 64) }
    ensures { Becomes state.new (fresh (memory_of state.old) (location p 0) 256) }
{
    let number = machine::record_word(state, 1, machine::NUMBER);
    marks::set_whole(state, (p - 1) * 16, 16, number == 1);
}

// Makes the n words from `at` on 0.
#[tactic(auto, using(crate::proofs::Storing::copies))]
pub fn clear_words(state: &mut [u8], at: usize, n: usize)
    requires state { State state.old }
    requires n_bound { at + n ≤ state_words }
    ensures { Becomes state.new (clear (memory_of state.old) at n) }
{
    for i in at..at + n {
        machine::set_word(state, i, 0);
    }
}

// Process p goes on at statement c.
pub fn go_to(state: &mut [u8], p: usize, c: u16)
    requires state { State state.old }
    requires le_p { (1 ≤ p) × (p ≤ 64) }
    ensures { Becomes state.new (update (memory_of state.old) (statement_at p) c) }
{
    machine::set_record_word(state, p, machine::STATEMENT, c);
}

// Process v holds the variables of process w; 0 for none.
pub fn hold(state: &mut [u8], w: usize, v: u16)
    requires state { State state.old }
    requires le_w { (1 ≤ w) × (w ≤ 64) }
    ensures { Becomes state.new (update (memory_of state.old) (holder_at w) v) }
{
    machine::set_record_word(state, w, machine::HOLDER, v);
}

// The run has failed by number n.
pub fn mark_failure(state: &mut [u8], n: u16)
    requires { State state.old }
    ensures { Becomes state.new (update (memory_of state.old) failure_at n) }
{
    machine::set_record_word(state, 1, machine::FAILURE, n);
}

// Process p has ended.
#[tactic(auto, using(crate::proofs::Writing::ends))]
pub fn end_process(state: &mut [u8], p: usize)
    requires state { State state.old }
    requires le_p { (1 ≤ p) × (p ≤ 64) }
    ensures { Becomes state.new (ended (memory_of state.old) p) }
{
    machine::set_record_word(state, p, machine::STATUS, machine::ENDED);
    hold(state, p, 0);
}

#[tactic(auto, using(crate::proofs::Writing::puts))]
fn place(state: &mut [u8], p: usize, statement: u16, frame: u16, top: u16)
    requires state { State state.old }
    requires le_p { (1 ≤ p) × (p ≤ 64) }
    ensures { Becomes state.new (with_position (memory_of state.old) p statement frame top) }
{
    go_to(state, p, statement);
    machine::set_record_word(state, p, machine::FRAME, frame);
    machine::set_record_word(state, p, machine::TOP, top);
}

// Where process p stands.
#[tactic(auto, using(crate::proofs::Writing::stood))]
pub fn stand(
    state: &mut [u8],
    p: usize,
    statement: u16,
    frame: u16,
    top: u16,
    works: u16,
    depth: u16,
)
    requires state { State state.old }
    requires le_p { (1 ≤ p) × (p ≤ 64) }
    ensures { Becomes state.new (standing (memory_of state.old) p statement frame top works depth) }
{
    place(state, p, statement, frame, top);
    machine::set_record_word(state, p, machine::WORKS, works);
    machine::set_record_word(state, p, machine::DEPTH, depth);
}

// The links of a frame at f in the area of process p.
#[tactic(auto, using(crate::proofs::Writing::links))]
fn link(state: &mut [u8], p: usize, f: usize, frame: u16, statement: u16, works: u16, q: u16)
    requires state { State state.old }
    requires le_p { (1 ≤ p) × ((p ≤ 64) × (f + 4 ≤ 256)) }
    ensures { Becomes state.new (store (memory_of state.old) (location p f) (linked frame statement works q [])) }
{
    machine::set_area_word(state, p, f, frame);
    machine::set_area_word(state, p, f + 1, statement);
    machine::set_area_word(state, p, f + 2, works);
    machine::set_area_word(state, p, f + 3, q);
}

// The words, then zeros: `size` words from `at` on.
#[tactic(auto, using(crate::proofs::Writing::pads))]
fn pad(state: &mut [u8], at: usize, size: usize, words: &[u16])
    requires state { State state.old }
    requires size_bound { (at + size ≤ state_words) × (length words.now ≤ size) }
    ensures { Becomes state.new (store (memory_of state.old) at (padded words.now size)) }
{
    let n = words.len();
    copy_words(state, at, words);
    clear_words(state, at + n, size - n);
}

// The links of a frame for procedure q at f: where process p stands.
#[tactic(auto, using(crate::proofs::Writing::links_back))]
fn link_back(state: &mut [u8], p: usize, f: usize, q: u16)
    requires state { State state.old }
    requires le_p { (1 ≤ p) × ((p ≤ 64) × (f + 4 ≤ 256)) }
    ensures { Becomes state.new (framed (memory_of state.old) p f q []) }
{
    let frame = machine::record_word(state, p, machine::FRAME);
    let statement = machine::record_word(state, p, machine::STATEMENT);
    let works = machine::record_word(state, p, machine::WORKS);
    link(state, p, f, frame, statement, works, q);
}

// The frame of a call: the links, the argument words, zeros.
#[tactic(auto, using(crate::proofs::Writing::frames))]
fn put_frame(state: &mut [u8], p: usize, f: usize, q: u16, size: usize, words: &[u16])
    requires state { State state.old }
    requires le_p { (1 ≤ p) × ((p ≤ 64) × (f + 4 + size ≤ 256)) }
    requires words_le_size { length words.now ≤ size }
    ensures { Becomes state.new (framed (memory_of state.old) p f q (padded words.now size)) }
{
    let at = machine::location_of(p, f);
    link_back(state, p, f, q);
    pad(state, at + 4, size, words);
}

// Process p enters procedure q, whose variables take `size` words and whose first statement is c, on process r; the words are the arguments.
#[tactic(auto, using(crate::proofs::Writing::enters))]
fn enter(state: &mut [u8], p: usize, q: u16, r: u16, c: u16, size: usize, words: &[u16])
    requires state { State state.old }
    requires frame_fits { FrameFits (memory_of state.old) p size }
    requires words_le_size { length words.now ≤ size }
    ensures { Becomes state.new (entered (memory_of state.old) p q r c size words.now) }
{
    let top = machine::record_word(state, p, machine::TOP);
    let depth = machine::record_word(state, p, machine::DEPTH);
    let f = usize::from(top);
    put_frame(state, p, f, q, size, words);
    stand(state, p, c, top, (f + 4 + size) as u16, r, depth + 1);
}

// The marks of a frame at location `at`: of its links and n parameters, then of its other variables.
#[tactic(auto, using(crate::proofs::Marks::marks))]
fn mark_frame(state: &mut [u8], at: usize, size: usize, n: usize)
    requires state { State state.old }
    requires size_bound { (at + 4 + size ≤ locations) × (n ≤ size) }
    ensures { Becomes state.new (framed_marks (memory_of state.old) at size n) }
{
    marks::set_marks(state, at, 4 + n, true);
    make_fresh(state, at + 4 + n, size - n);
}

// Process p enters procedure q, as in `enter`, and its frame has its marks.
#[tactic(auto, using(crate::proofs::Marks::marks))]
fn call_in(state: &mut [u8], p: usize, q: u16, r: u16, c: u16, size: usize, words: &[u16])
    requires state { State state.old }
    requires frame_fits { FrameFits (memory_of state.old) p size }
    requires words_le_size { length words.now ≤ size }
    ensures { Becomes state.new (called_in (memory_of state.old) p q r c size words.now) }
{
    let top = machine::record_word(state, p, machine::TOP);
    let at = machine::location_of(p, usize::from(top));
    enter(state, p, q, r, c, size, words);
    mark_frame(state, at, size, words.len());
}

// Process p leaves the procedure of its innermost call, and stands after the call statement c.
#[tactic(auto, using(crate::proofs::Writing::leaves))]
pub fn leave(state: &mut [u8], p: usize, c: u16)
    requires state { State state.old }
    requires in_call { InCall (memory_of state.old) p }
    requires c_bound { c < 65535 }
    ensures { Becomes state.new (left (memory_of state.old) p c) }
{
    let frame = machine::record_word(state, p, machine::FRAME);
    let depth = machine::record_word(state, p, machine::DEPTH);
    let caller = machine::area_word(state, p, usize::from(frame));
    let works = machine::area_word(state, p, usize::from(frame) + 2);
    stand(state, p, c + 1, caller, frame, works, depth - 1);
}

// Makes the area and the control record of process n 0.
#[tactic(auto, using(crate::proofs::Writing::wipes, crate::proofs::Writing::record_room))]
fn wipe(state: &mut [u8], n: usize)
    requires state { State state.old }
    requires le_n { (1 ≤ n) × (n ≤ 64) }
    ensures { Becomes state.new (wiped (memory_of state.old) n) }
{
    let area = machine::location_of(n, 0);
    let record = machine::record_of(n, 0);
    clear_words(state, area, machine::AREA);
    clear_words(state, record, 20);
}

// Process n is created, of module `block`.
#[tactic(auto, using(crate::proofs::Writing::creates))]
pub fn create(state: &mut [u8], n: usize, block: u16)
    requires state { State state.old }
    requires le_n { (1 ≤ n) × (n ≤ 64) }
    ensures { Becomes state.new (created (memory_of state.old) n block) }
{
    wipe(state, n);
    machine::set_record_word(state, n, machine::STATUS, machine::UNSTARTED);
    machine::set_record_word(state, n, machine::MODULE, block);
    machine::set_record_word(state, 1, machine::CREATED, n as u16);
}

// Process r has its parameters, is started and holds its own variables.
#[tactic(auto, using(crate::proofs::Writing::gives))]
fn give(state: &mut [u8], r: usize, words: &[u16])
    requires state { State state.old }
    requires le_r { (1 ≤ r) × (r ≤ 64) }
    requires words_bound { length words.now ≤ 256 }
    ensures { Becomes state.new (with_parameters (memory_of state.old) r words.now) }
{
    let at = machine::location_of(r, 0);
    copy_words(state, at, words);
    machine::set_record_word(state, r, machine::STATUS, machine::STARTED);
    hold(state, r, r as u16);
}

// Process r begins at statement c; its variables take `size` words, of which the first are its parameters.
#[tactic(auto, using(crate::proofs::Writing::begins))]
pub fn begin(state: &mut [u8], r: usize, c: u16, size: u16, words: &[u16])
    requires state { State state.old }
    requires le_r { (1 ≤ r) × (r ≤ 64) }
    requires words_bound { length words.now ≤ 256 }
    ensures { Becomes state.new (with_start (memory_of state.old) r c size words.now) }
{
    give(state, r, words);
    stand(state, r, c, 0, size, r as u16, 0);
}

// Process p calls procedure q of its own module; the first n words of the buffer are the arguments.
#[tactic(auto, using(crate::proofs::Meanings::pushes_local))]
pub fn push_local(
    c: &code::Slots,
    state: &mut [u8],
    p: usize,
    q: usize,
    size: usize,
    n: usize,
    words: &[u16],
)
    requires state { State state.old }
    requires frame_fits { FrameFits (memory_of state.old) p size }
    requires n_le_size { (n ≤ size) × ((n ≤ length words.now) × (q < 65536)) }
    requires size_value { size ≡ frame_words (decoded c.now) q }
    ensures { CallLeaves (decoded c.now) (memory_of state.old) state.new p (memory_of state.old) q (memory_of state.old (works_at p)) (take n words.now) }
{
    let first = code::first_stmt(c, q);
    let works = machine::record_word(state, p, machine::WORKS);
    call_in(state, p, q as u16, works, first as u16, size, &words[..n]);
}

// Process p calls procedure q of process r, and holds its variables.
#[tactic(auto, using(crate::proofs::Meanings::pushes_process))]
pub fn push_process(
    c: &code::Slots,
    state: &mut [u8],
    p: usize,
    q: usize,
    r: usize,
    size: usize,
    n: usize,
    words: &[u16],
)
    requires state { State state.old }
    requires frame_fits { FrameFits (memory_of state.old) p size }
    requires n_le_size { (n ≤ size) × ((n ≤ length words.now) × ((q < 65536) × ((1 ≤ r) × (r ≤ 64)))) }
    requires size_value { size ≡ frame_words (decoded c.now) q }
    ensures { CallLeaves (decoded c.now) (memory_of state.old) state.new p (update (memory_of state.old) (holder_at r) p) q r (take n words.now) }
{
    let first = code::first_stmt(c, q);
    hold(state, r, p as u16);
    call_in(
        state,
        p,
        q as u16,
        r as u16,
        first as u16,
        size,
        &words[..n],
    );
}

// The end of a local call, whose statement is c.
#[tactic(auto, using(crate::proofs::Meanings::pops_local))]
pub fn pop_local(state: &mut [u8], p: usize, c: u16)
    requires state { State state.old }
    requires in_call { InCall (memory_of state.old) p }
    requires c_bound { c < 65535 }
    ensures { ReturnLeaves (memory_of state.old) state.new p (memory_of state.old) c }
{
    leave(state, p, c);
}

// The end of a process call, whose statement is c: the variables that it worked on are given up.
#[tactic(auto, using(crate::proofs::Meanings::pops_process))]
pub fn pop_process(state: &mut [u8], p: usize, c: u16)
    requires state { State state.old }
    requires in_call { InCall (memory_of state.old) p }
    requires c_bound { (c < 65535) × ((1 ≤ memory_of state.old (works_at p)) × (memory_of state.old (works_at p) ≤ 64)) }
    ensures { ReturnLeaves (memory_of state.old) state.new p (update (memory_of state.old) (holder_at (memory_of state.old (works_at p))) 0) c }
{
    let works = machine::record_word(state, p, machine::WORKS);
    hold(state, usize::from(works), 0);
    leave(state, p, c);
}

// Process r, of module b, is started; the words are its parameters.
#[tactic(auto, using(crate::proofs::Meanings::starts_done))]
pub fn start(c: &code::Slots, state: &mut [u8], r: usize, b: usize, size: usize, words: &[u16])
    requires state { State state.old }
    requires le_r { (1 ≤ r) × (r ≤ 64) }
    requires words_bound { (length words.now ≤ 256) × (size < 65536) }
    requires size_value { size ≡ module_words (decoded c.now) b }
    ensures { Becomes state.new (started (decoded c.now) (memory_of state.old) r b words.now) }
{
    let first = code::first_stmt(c, b);
    begin(state, r, first as u16, size as u16, words);
}

// Process p enters an arm at statement c, and holds the variables of process w.
#[tactic(auto, using(crate::proofs::Writing::then_update))]
pub fn enter_arm(state: &mut [u8], p: usize, w: usize, c: u16)
    requires state { State state.old }
    requires le_p { (1 ≤ p) × ((p ≤ 64) × ((1 ≤ w) × (w ≤ 64))) }
    ensures { Becomes state.new (update (update (memory_of state.old) (holder_at w) p) (statement_at p) c) }
{
    hold(state, w, p as u16);
    go_to(state, p, c);
}

// Process n is created, of module `block`, its number is stored at `at`, and its area is made.
#[tactic(auto, using(crate::proofs::Marks::marks))]
fn create_for(state: &mut [u8], n: usize, block: u16, at: usize)
    requires state { State state.old }
    requires le_n { (1 ≤ n) × ((n ≤ 64) × (at < locations)) }
    ensures { Becomes state.new (with_process (memory_of state.old) n block at) }
{
    create(state, n, block);
    machine::set_word(state, at, n as u16);
    make_area(state, n);
}

// Process n is created, of module `block`, for the variable at `at`, and process p goes on at statement c.
#[tactic(auto, using(crate::proofs::Marks::marks))]
pub fn create_at(state: &mut [u8], p: usize, c: u16, n: usize, block: u16, at: usize)
    requires state { State state.old }
    requires le_p { (1 ≤ p) × ((p ≤ 64) × ((1 ≤ n) × (n ≤ 64))) }
    requires at_lt_locations { at < locations }
    ensures { Becomes state.new (update (mark (fresh (update (created (memory_of state.old) n block) at n) (location n 0) 256) at 1) (statement_at p) c) }
{
    create_for(state, n, block, at);
    marks::set_marks(state, at, 1, true);
    go_to(state, p, c);
}

// Process r, of module b, is started with marked parameters, and process p goes on at statement next.
#[tactic(auto, using(crate::proofs::Marks::marks))]
pub fn start_on(
    c: &code::Slots,
    state: &mut [u8],
    p: usize,
    next: u16,
    r: usize,
    b: usize,
    size: usize,
    n: usize,
    words: &[u16],
)
    requires state { State state.old }
    requires le_p { (1 ≤ p) × ((p ≤ 64) × ((1 ≤ r) × (r ≤ 64))) }
    requires n_bound { (n ≤ 256) × ((n ≤ length words.now) × (size < 65536)) }
    requires size_value { size ≡ module_words (decoded c.now) b }
    ensures { Becomes state.new (update (mark (started (decoded c.now) (memory_of state.old) r b (take n words.now)) (location r 0) (length (take n words.now))) (statement_at p) next) }
{
    start(c, state, r, b, size, &words[..n]);
    marks::set_marks(state, machine::location_of(r, 0), n, true);
    go_to(state, p, next);
}
