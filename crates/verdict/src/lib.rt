// The verdict on a table: the lowest refusal that applies, 0 where none does (01, Verdicts and other refusals).
#![tactic(auto)]

ghost use Rattle.std.specs.Prelude.{◌≡◌, true, ◌≤◌, length, OnOk};
ghost use Rattle.table.specs.Entries.{node_count};
ghost use Rattle.code.specs.Code.{decoded, Decodes};
ghost use Rattle.code.specs.Decoding as decoding;
ghost use Rattle.types.specs.Kept.{Types};
ghost use Rattle.sizes.specs.Kept.{Sizes};
ghost use Rattle.verdict.specs.Verdict.{judged, verdict};
ghost use Rattle.verdict.specs.Refusals.{refusal_number, verdict_number};
ghost use Rattle.verdict.specs.Rooms.{Rooms};
ghost use Rattle.verdict.specs.Checked.{Judges, CheckAnswer, BytesAnswer};

// Why a call refuses what it is lent. C sees the numbers, in this order: the lowest one that applies is given.
#[derive(Clone, Copy, PartialEq, Eq, Debug)]
pub enum Refusal {
    Lengths,
    Sections,
    Kinds,
    Numbers,
    Uses,
    Nesting,
    Sizes,
    Scopes,
    Types,
    State,
    Absent,
    Unset,
}

impl From<Refusal> for u32 {
    ghost from_gives = { λ refusal number. number ≡ refusal_number refusal };

    fn from(refusal: Refusal) -> u32 {
        match refusal {
            Refusal::Lengths => 1,
            Refusal::Sections => 2,
            Refusal::Kinds => 3,
            Refusal::Numbers => 4,
            Refusal::Uses => 5,
            Refusal::Nesting => 6,
            Refusal::Sizes => 7,
            Refusal::Scopes => 8,
            Refusal::Types => 9,
            Refusal::State => 10,
            Refusal::Absent => 11,
            Refusal::Unset => 32,
        }
    }
}

// All refusals of a table whose sections are whole. The arrays are lent for the work; those of an accepted table hold the types of its nodes
// and the words of its types, which the calls go on with.
#[tactic(auto, using(basics::proofs::Tests::tests), unfolding(crate::specs::Verdict::judged, crate::specs::Verdict::judged_uses, crate::specs::Verdict::judged_late))]
fn judge(
    t: &[u8],
    s: table::Sections,
    c: &code::Slots,
    types: &mut [u16],
    sizes: &mut [u16],
    marks: &mut [u8],
    seen: &mut [u8],
    blocks: &mut [u16],
) -> Result<(), Refusal>
    requires decodes { Decodes t.now s c.now }
    requires rooms { Rooms (decoded c.now) types.old sizes.old marks.old seen.old blocks.old }
    ensures verdict { verdict_number result ≡ judged (decoded c.now) }
    ensures types { Types (decoded c.now) types.new }
    ensures sizes { OnOk result (Sizes (decoded c.now) sizes.new) }
{
    types::find_types(c, types);
    if !entries::all_known(c) {
        return Err(Refusal::Kinds);
    }
    if !numbers::in_range(c, types, marks) {
        return Err(Refusal::Numbers);
    }
    if !uses::each_once(c, seen) {
        return Err(Refusal::Uses);
    }
    if !nesting::all_nested(c) {
        return Err(Refusal::Nesting);
    }
    sizes::find_sizes(c, sizes);
    if !sizes::all_sized(c, sizes) {
        return Err(Refusal::Sizes);
    }
    if !scopes::all_scoped(t, s, c, blocks) {
        return Err(Refusal::Scopes);
    }
    if !typing::all_typed(t, s, c, types) {
        return Err(Refusal::Types);
    }
    Ok(())
}

// What the check of an accepted table has found: the types of its nodes and the words of its types. They are arrays of the check's own,
// which no lent slot can overlap, and handed back whole.
#[derive(Clone, Copy)]
pub struct Found {
    pub types: [u16; 256],
    pub sizes: [u16; 258],
}

// The arrays of the small edition: sections of at most 255 rows.
fn judge_small(t: &[u8], s: table::Sections, c: &code::Slots) -> Result<Found, Refusal>
    requires decodes { Decodes t.now s c.now }
    requires w_value { s.w ≡ 1 }
    ensures { Judges (decoded c.now) result }
{
    let mut types = [0u16; 256];
    let mut sizes = [0u16; 258];
    let mut marks = [0u8; 256];
    let mut seen = [0u8; 256];
    let mut blocks = [0u16; 256];
    judge(
        t,
        s,
        c,
        &mut types,
        &mut sizes,
        &mut marks,
        &mut seen,
        &mut blocks,
    )?;
    Ok(Found { types, sizes })
}

// The bytes of the listing table, in hexadecimal as 01 has them: zero bytes are read as these.
const LISTING: [u8; 27] = [
    0x00, 0x00, 0x00, 0x01, 0x00, 0x00, 0x00, 0x00, 0x00, 0x00, 0x00, 0x00, 0x00, 0x00, 0x02, 0x00,
    0x00, 0x00, 0x00, 0x00, 0x00, 0x0d, 0x00, 0x00, 0x00, 0x00, 0x00,
];

// All refusals of the bytes that are read; of bytes that are accepted the table is left decoded.
fn check_bytes(t: &[u8], c: &mut code::Slots) -> Result<Found, Refusal>
    requires { decoding.Blank c.old }
    ensures { BytesAnswer 1 t.now result c.new }
{
    let s = table::read_sections(t, 1).ok_or(Refusal::Sections)?;
    code::decode::decode(t, s, c);
    judge_small(t, s, c)
}

// All refusals of any bytes, in the small edition; of bytes that are accepted the table is left decoded.
pub fn check_into(t: &[u8], c: &mut code::Slots) -> Result<Found, Refusal>
    requires { decoding.Blank c.old }
    ensures { CheckAnswer 1 t.now result c.new }
{
    if t.is_empty() {
        return check_bytes(&LISTING, c);
    }
    check_bytes(t, c)
}

// The verdict alone.
#[tactic(auto, using(code::proofs::Blanks::new_blank))]
pub fn check(t: &[u8]) -> u32
    ensures { result ≡ verdict 1 t.now }
{
    let mut c = [0u16; 8264];
    match check_into(t, &mut c) {
        Ok(_) => 0,
        Err(refusal) => refusal.into(),
    }
}
