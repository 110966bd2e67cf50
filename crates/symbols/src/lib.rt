// The symbols of chip texts (3.2, 02 (a)).
#![tactic(auto)]

mod characters;
mod constants;
mod cursor;
mod vocabulary;

ghost use Rattle.std.specs.Prelude.{◌≡◌, ◌<◌, ◌≤◌, length, IfSome};
ghost use Rattle.std.proofs.lemmas.List.Edits.{sets};
ghost use Rattle.symbols.specs.Symbols.{symbol_length, symbol_kind, symbols_of};
ghost use Rattle.symbols.specs.Steps.{if_any, counted, Begins, WritableText, SymbolRoom};
ghost use Rattle.symbols.specs.Kinds.{kind_number};
ghost use Rattle.symbols.specs.Answer.{symbol_bytes, reading_bytes, laid, symbols_answer, symbols_out};

use characters::is_letter;
use constants::{character, constant, numeral};
use cursor::passed;
use vocabulary::{is_word, name, special};

// How many bytes the symbol that begins here takes.
fn symbol(text: &[u8]) -> Option<usize>
    ensures is { result ≡ if_any (symbol_length text.now) }
    ensures within { IfSome result (λ n. (0 < n) × (n ≤ length text.now)) }
{
    name(text)
        .or_else(|| numeral(text))
        .or_else(|| constant(text))
        .or_else(|| special(text))
}

// The kinds of symbols, with the numbers that are written (02).
#[derive(Clone, Copy)]
enum Kind {
    Special = 1,
    Word = 2,
    Name = 3,
    Numeral = 4,
    Character = 5,
    String = 6,
}

// The kind of the symbol that begins here and takes some bytes.
#[tactic(auto, using(crate::proofs::Telling::kinds))]
fn symbol_kind(text: &[u8], size: usize) -> Kind
    requires { Begins text.now size }
    ensures { kind_number result ≡ symbol_kind text.now }
{
    match text[0] {
        b if is_letter(b) => if is_word(&text[..size]) {
            Kind::Word
        } else {
            Kind::Name
        },
        b'\'' if character(&text[1..]) == Some(size - 2) => Kind::Character,
        b'\'' => Kind::String,
        b'#' | b'0'..=b'9' => Kind::Numeral,
        _ => Kind::Special,
    }
}

// The seven bytes of a symbol.
fn put_symbol(out: &mut [u8], at: usize, kind: Kind, line: usize, place: usize, size: usize)
    requires { SymbolRoom out.old at line place size }
    ensures { out.new ≡ sets out.old at (symbol_bytes (record { kind = kind_number kind; line = line; place = place; size = size })) }
{
    let [line_low, line_high] = (line as u16).to_le_bytes();
    let [place_low, place_high] = (place as u16).to_le_bytes();
    let [size_low, size_high] = (size as u16).to_le_bytes();
    let bytes = [
        kind as u8, line_low, line_high, place_low, place_high, size_low, size_high,
    ];
    out[at..at + 7].copy_from_slice(&bytes);
}

// The first pass: how many symbols there are, or that at some place none begins.
#[tactic(auto, using(crate::proofs::Answering::counteds))]
fn count(text: &[u8]) -> Option<u32>
    requires { length text.now < 65536 }
    ensures is { result ≡ counted (symbols_of text.now) }
    ensures few { IfSome result (λ n. n ≤ length text.now) }
{
    let mut n: u32 = 0;
    let mut c = passed(text, 0, 1);
    while c.place < text.len() {
        let size = symbol(&text[c.place..])?;
        n += 1;
        c = passed(text, c.place + size, c.line);
    }
    Some(n)
}

// The second pass: the symbols are written.
#[tactic(auto, using(crate::proofs::Answering::layings))]
fn write(text: &[u8], out: &mut [u8])
    requires { WritableText text.now out.old }
    ensures { out.new ≡ laid (reading_bytes (symbols_of text.now)) out.old }
{
    let mut to = 0;
    let mut c = passed(text, 0, 1);
    while let Some(size) = symbol(&text[c.place..]) {
        let kind = symbol_kind(&text[c.place..], size);
        put_symbol(out, to, kind, c.line, c.place, size);
        to += 7;
        c = passed(text, c.place + size, c.line);
    }
}

// 02 (a): splits a text into its symbols, seven bytes each. A refusal must change nothing, so the text is judged before a byte is written.
#[tactic(auto, using(crate::proofs::Answering::calls))]
pub fn symbols(text: &[u8], out: &mut [u8]) -> u32
    ensures answer { result ≡ symbols_answer text.now out.old }
    ensures slice { out.new ≡ symbols_out text.now out.old }
{
    if 65535 < text.len() || out.len() < 7 * text.len() {
        return 1;
    }
    let Some(n) = count(text) else {
        return 25;
    };
    write(text, out);
    65536 + n
}
