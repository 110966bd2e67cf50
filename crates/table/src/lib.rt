// The table of a program, read from a lent slice of bytes: sections, rows, fields. Crate code decodes it, and all above goes by that.
// The width w of a field, 1 or 2, is a parameter: 1 is the small edition.
#![tactic(auto)]

ghost use Rattle.std.specs.Prelude.{◌≡◌, ◌+◌, ◌-◌, ◌*◌, ◌≤◌, ◌<◌, min, length, eqb};
ghost use Rattle.basics.specs.Choice.{both};
ghost use Rattle.table.specs.Bytes.{num, is_left_out, shorts, words, fields, row_size, field_at, field_width};
ghost use Rattle.table.specs.Table.{table_at};
ghost use Rattle.table.specs.Reading.{section_at, SectionsOf, ReadAnswer, Field};
ghost use Rattle.table.specs.Parts.{argument_part, argument_in};

#[derive(Clone, Copy)]
pub struct Sections {
    pub w: usize,
    pub counts: [usize; 8],
    pub starts: [usize; 8],
}

// One section: how many rows it has, where they begin and where they end.
#[derive(Clone, Copy)]
pub struct Section {
    pub count: usize,
    pub start: usize,
    pub next: usize,
}

// The number of k bytes at p.
#[tactic(auto, using(crate::proofs::Numbers::num_two, crate::proofs::Numbers::num_one))]
pub fn number(t: &[u8], p: usize, k: usize) -> usize
    requires { (1 ≤ k) × (p + k ≤ length t.now) }
    ensures { Field (num t.now p k) result }
{
    if k == 2 {
        usize::from(t[p]) + 256 * usize::from(t[p + 1])
    } else {
        usize::from(t[p])
    }
}

// Fields of the edition's width in a row of section k. (By cases: an array of constants would be made anew each time that it is read.)
#[tactic(auto, using(crate::proofs::Shapes::shorts_one), unfolding(crate::specs::Bytes::shorts))]
fn shorts_of(k: usize) -> usize
    requires { k < 8 }
    ensures { (result ≡ shorts k) × (result ≤ 6) }
{
    match k {
        0 => 3,
        2 => 2,
        3 => 6,
        5 => 3,
        6 => 6,
        _ => 1,
    }
}

// Words after them.
#[tactic(auto, using(crate::proofs::Shapes::words_none), unfolding(crate::specs::Bytes::words))]
fn words_of(k: usize) -> usize
    requires { k < 8 }
    ensures { (result ≡ words k) × (result ≤ 2) }
{
    match k {
        0 => 2,
        3 => 1,
        5 => 1,
        _ => 0,
    }
}

// The bytes of a row of section k.
#[tactic(auto, using(crate::proofs::Shapes::size_is, crate::proofs::Shapes::product))]
pub fn row_size(w: usize, k: usize) -> usize
    requires { (w ≤ 2) × (k < 8) }
    ensures { (result ≡ row_size w k) × (result ≤ 16) }
{
    shorts_of(k) * w + words_of(k) * 2
}

// The eighth section may be left out (02, b): nothing is left.
#[tactic(auto, using(crate::proofs::Numbers::emptiness), unfolding(basics::specs::Choice::both, crate::specs::Bytes::is_left_out))]
fn is_left_out(part: &[u8], k: usize) -> bool
    ensures { result ≡ is_left_out part.now k 0 }
{
    k == 7 && part.is_empty()
}

// Section k, which begins at the start of `part`; none where the part ends before it does.
fn read_section(part: &[u8], w: usize, k: usize) -> Option<Section>
    requires { (1 ≤ w) × (w ≤ 2) × (k < 8) }
    ensures { result ≡ section_at part.now w k }
{
    if is_left_out(part, k) {
        return Some(Section {
            count: 0,
            start: 0,
            next: 0,
        });
    }
    if part.len() < w {
        return None;
    }
    let count = number(part, 0, w);
    let rows = count * row_size(w, k);
    if part.len() - w < rows {
        return None;
    }
    Some(Section {
        count,
        start: w,
        next: w + rows,
    })
}

// The sections of the table `t` in the edition of width w, where its bytes are whole sections.
pub fn read_sections(t: &[u8], w: usize) -> Option<Sections>
    requires { (1 ≤ w) × (w ≤ 2) }
    ensures { ReadAnswer t.now w result }
{
    let mut counts = [0usize; 8];
    let mut starts = [0usize; 8];
    let mut p = 0;
    for k in 0..8 {
        let section = read_section(&t[p..], w, k)?;
        counts[k] = section.count;
        starts[k] = p + section.start;
        p += section.next;
    }
    if p != t.len() {
        return None;
    }
    Some(Sections { w, counts, starts })
}

// How many rows section k has.
#[tactic(auto, using(crate::proofs::Cells::counts))]
pub fn rows(t: &[u8], s: Sections, k: usize) -> usize
    requires sections_of { SectionsOf t.now s }
    requires k_bound { k < 8 }
    ensures { Field ((table_at s.w t.now).count k) result }
{
    s.counts[k]
}

// Where field f begins in a row of section k.
#[tactic(auto, using(crate::proofs::Shapes::places))]
pub fn field_at(w: usize, k: usize, f: usize) -> usize
    requires { (w ≤ 2) × (k < 8) × (f < fields k) }
    ensures { (result ≡ field_at w k f) × (result ≤ 16) }
{
    let n = shorts_of(k);
    if f < n {
        return f * w;
    }
    n * w + (f - n) * 2
}

// Its bytes.
#[tactic(auto, using(crate::proofs::Shapes::width_short, crate::proofs::Shapes::width_word))]
pub fn field_width(w: usize, k: usize, f: usize) -> usize
    requires { k < 8 }
    ensures { result ≡ field_width w k f }
{
    if f < shorts_of(k) {
        return w;
    }
    2
}

// The argument finder: the part of the table that holds a call's arguments, `count` of them from `first` on, or as many of these as there are.
#[tactic(auto, using(crate::proofs::Parts::parts))]
pub fn call_arguments(t: &[u8], s: Sections, first: usize, count: usize) -> &[u8]
    requires { SectionsOf t.now s }
    ensures { result.now ≡ argument_part s.w t.now first count }
{
    let w = s.w;
    let n = s.counts[4];
    let f = first.min(n);
    let from = s.starts[4] + f * w;
    let to = from + count.min(n - f) * w;
    &t[from..to]
}

// Argument k of a call, 0 where its part has no such argument.
#[tactic(auto, using(crate::proofs::Parts::arguments))]
pub fn argument(part: &[u8], w: usize, k: usize) -> usize
    requires { (1 ≤ w) × (w ≤ 2) × (k < 65536) }
    ensures { Field (argument_in part.now w k) result }
{
    let at = k * w;
    if at + w <= part.len() {
        return number(part, at, w);
    }
    0
}
