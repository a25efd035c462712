// Words from their five bytes, and bytes of what is written back.
ghost use Rattle.std.specs.Prelude.{◌≡◌, ◌*◌, ◌≤◌, length};
ghost use Rattle.area.specs.Parts.{paste};
ghost use Rattle.session_frame.specs.Fields.{words_of, word_of, word_bytes, found_bytes};
ghost use Rattle.block_bytes.specs.ByteBlocks.{word_size};

use crate::WORD;
use word::Checked;

fn word_of(a: u8, b: u8, c: u8, d: u8, e: u8) -> u64
    ensures { result ≡ word_of a b c d e }
{
    u64::from_be_bytes([0, 0, 0, a, b, c, d, e])
}

// The words of the bytes, to the front of the room; how many they are.
// By number, since what a loop over the room's own places writes is not known to a proof.
pub fn words_in(bytes: &[u8], room: &mut [u64]) -> usize
    requires { length bytes.now ≤ word_size * length room.old }
    ensures value { result ≡ length (words_of bytes.now) }
    ensures room_after { room.new ≡ paste 0 (words_of bytes.now) room.old }
{
    let n = bytes.len() / WORD;
    for i in 0..n {
        let at = i * WORD;
        room[i] = word_of(
            bytes[at],
            bytes[at + 1],
            bytes[at + 2],
            bytes[at + 3],
            bytes[at + 4],
        );
    }
    n
}

pub fn word_bytes(w: u64) -> [u8; 5]
    ensures { result ≡ word_bytes w }
{
    let [_, _, _, a, b, c, d, e] = w.to_be_bytes();
    [a, b, c, d, e]
}

// What a check found, its error left out.
pub fn found_bytes(c: Checked) -> [u8; 12]
    ensures { result ≡ found_bytes c }
{
    let mut told = [0; 12];
    told[..4].copy_from_slice(&c.sum.to_be_bytes());
    told[4..6].copy_from_slice(&c.number.to_be_bytes());
    told[6..10].copy_from_slice(&c.sumread.to_be_bytes());
    told[10..].copy_from_slice(&c.numberread.to_be_bytes());
    told
}
