//! Words of 32 bits from bytes and back, high byte first.

ghost use Rattle.std.specs.Prelude.{◌≡◌, ◌+◌, ◌≤◌, length, take, drop};
ghost use Rattle.aes_core.specs.internal.Words.{state_bytes, word_bytes};

// The word at byte `at`.
#[inline(always)]
pub(crate) fn load_word(bytes: &[u8], at: usize) -> u32
    requires { at + 4 ≤ length bytes.now }
    ensures { word_bytes result ≡ take 4 (drop at bytes.now) }
{
    u32::from_be_bytes([bytes[at], bytes[at + 1], bytes[at + 2], bytes[at + 3]])
}

// A state of the cipher: its four columns, with the byte of row 0 highest in each.
#[derive(Clone, Copy)]
pub(crate) struct State {
    pub(crate) a: u32,
    pub(crate) b: u32,
    pub(crate) c: u32,
    pub(crate) d: u32,
}

impl State {
    // The state that a block is.
    #[inline(always)]
    pub(crate) fn from_block(block: &[u8; 16]) -> State
        ensures { state_bytes result ≡ block.now }
    {
        State {
            a: load_word(block, 0),
            b: load_word(block, 4),
            c: load_word(block, 8),
            d: load_word(block, 12),
        }
    }

    // The block that the state is.
    #[inline(always)]
    pub(crate) fn to_block(self) -> [u8; 16]
        ensures { result ≡ state_bytes self }
    {
        let mut block = [0u8; 16];
        block[0..4].copy_from_slice(&self.a.to_be_bytes());
        block[4..8].copy_from_slice(&self.b.to_be_bytes());
        block[8..12].copy_from_slice(&self.c.to_be_bytes());
        block[12..16].copy_from_slice(&self.d.to_be_bytes());
        block
    }
}
