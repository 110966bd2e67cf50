// Words in a slice of bytes, low byte first (01).
ghost use Rattle.std.specs.Prelude.{◌≡◌, ◌+◌, ◌*◌, ◌<◌, length};
ghost use Rattle.words.specs.Memory.{word_at_byte, put_at_byte, word_at, put_word};

// The word at byte `at`.
#[tactic(auto, unfolding(crate::specs::Memory::word_at_byte))]
pub fn get_at(s: &[u8], at: usize) -> u16
    requires { at + 1 < length s.now }
    ensures { result ≡ word_at_byte s.now at }
{
    u16::from_le_bytes([s[at], s[at + 1]])
}

#[tactic(auto, unfolding(crate::specs::Memory::put_at_byte))]
pub fn put_at(s: &mut [u8], at: usize, v: u16)
    requires { at + 1 < length s.old }
    ensures { s.new ≡ put_at_byte s.old at v }
{
    let [low, high] = v.to_le_bytes();
    s[at] = low;
    s[at + 1] = high;
}

// The word of index `i`: bytes 2i and 2i + 1.
#[tactic(auto, unfolding(crate::specs::Memory::word_at))]
pub fn get(s: &[u8], i: usize) -> u16
    requires { i * 2 + 1 < length s.now }
    ensures { result ≡ word_at s.now i }
{
    get_at(s, i * 2)
}

#[tactic(auto, unfolding(crate::specs::Memory::put_word))]
pub fn put(s: &mut [u8], i: usize, v: u16)
    requires { i * 2 + 1 < length s.old }
    ensures { s.new ≡ put_word s.old i v }
{
    put_at(s, i * 2, v);
}
