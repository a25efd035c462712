// Numbers in a lent byte area, lowest byte first.
ghost use Rattle.std.specs.Prelude.{◌≡◌, ◌+◌, ◌≤◌, length, drop};
ghost use Rattle.codec.specs.Rows.{two_at, four_at, eight_of, eight_bytes};

// A number of two bytes, and one of four.
pub fn two_at(b: &[u8], at: usize) -> u16
    requires { at + 2 ≤ length b.now }
    ensures { result ≡ two_at b.now at }
{
    u16::from_le_bytes([b[at], b[at + 1]])
}

pub fn four_at(b: &[u8], at: usize) -> u32
    requires { at + 4 ≤ length b.now }
    ensures { result ≡ four_at b.now at }
{
    u32::from_le_bytes([b[at], b[at + 1], b[at + 2], b[at + 3]])
}

// A number of eight bytes.
pub fn word_at(b: &[u8], at: usize) -> u64
    requires { at + 8 ≤ length b.now }
    ensures { result ≡ eight_of (drop at b.now) }
{
    u64::from_le_bytes([
        b[at],
        b[at + 1],
        b[at + 2],
        b[at + 3],
        b[at + 4],
        b[at + 5],
        b[at + 6],
        b[at + 7],
    ])
}

// The eight bytes of a number.
pub fn word_bytes(x: u64) -> [u8; 8]
    ensures { result ≡ eight_bytes x }
{
    x.to_le_bytes()
}
