// The cursor: it passes spaces, new lines and quoted comments, and counts lines (02).
ghost use Rattle.std.specs.Prelude.{◌∷◌};
ghost use Rattle.symbols.specs.Steps.{CommentIs, Stands, PassesTo};

use super::characters::in_comment;

// A place, and its line from 1.
#[derive(Clone, Copy)]
pub struct Cursor {
    pub place: usize,
    pub line: usize,
}

// What a comment takes: its bytes, and how many of them are new lines.
#[derive(Clone, Copy)]
struct Extent {
    size: usize,
    lines: usize,
}

// The comment whose opening quote stands before the text. It is read once: its lines are counted on the way to the closing quote.
#[tactic(auto, using(crate::proofs::Quoting::quotings))]
fn quoted(text: &[u8]) -> Option<Extent>
    ensures { CommentIs (34 ∷ text.now) result }
{
    let mut lines = 0;
    for (i, b) in text.iter().enumerate() {
        match *b {
            b'"' => return Some(Extent { size: i + 2, lines }),
            b'\n' => lines += 1,
            b if in_comment(b) => {}
            _ => return None,
        }
    }
    None
}

// Past all comments: spaces, new lines and what stands between quotes.
#[tactic(auto, using(crate::proofs::Quoting::comments, crate::proofs::Scanning::passings))]
fn past_comments(text: &[u8], place: usize, line: usize) -> Cursor
    requires { Stands text.now place line }
    ensures { PassesTo text.now place line result.place result.line }
{
    let mut at = place;
    let mut n = line;
    loop {
        match &text[at..] {
            [b' ', ..] => at += 1,
            [b'\n', ..] => {
                at += 1;
                n += 1;
            }
            [b'"', rest @ ..] => {
                let Some(c) = quoted(rest) else {
                    return Cursor { place: at, line: n };
                };
                at += c.size;
                n += c.lines;
            }
            _ => return Cursor { place: at, line: n },
        }
    }
}

// Moves a cursor past all comments.
fn pass(text: &[u8], c: &mut Cursor)
    requires { Stands text.now c.old.place c.old.line }
    ensures { PassesTo text.now c.old.place c.old.line c.new.place c.new.line }
{
    *c = past_comments(text, c.place, c.line);
}

// A cursor that is made here, lent and handed back: its callers are spared a reference.
pub fn passed(text: &[u8], place: usize, line: usize) -> Cursor
    requires { Stands text.now place line }
    ensures { PassesTo text.now place line result.place result.line }
{
    let mut c = Cursor { place, line };
    pass(text, &mut c);
    c
}
