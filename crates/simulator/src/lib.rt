// The calls of the C simulator: numbers and lent byte areas alone. Whatever is kept between calls stands in the state area, as an image.
// The crate `simulator_c` has them as functions that C links.
// Each call gives 0 or more, or minus its refusal; refused, it changes no byte.
#![tactic(auto)]

mod lines;

ghost use Rattle.std.specs.Prelude.{◌≡◌, length};
ghost use Rattle.block_bytes.specs.ByteBlocks.{seal_refusal, sealed_bytes, verdict_on, found_after};
ghost use Rattle.simulator.specs.Calls.{result_of, start_call, answer_call};

use block_bytes::{check_bytes, seal_bytes};
use lines::answer_held;
use session::{ANSWER, WORDS};
use session_frame::LONGEST;
use state::before_start;
use state_image::{IMAGE, image_in, put_image, read_area};

// The words of the program's area.
const AREA: usize = 4096;

// Fills the state area with the image of the state before the first fresh start, its area all zero. 0, or -1 for an area of another size.
pub fn plorrettix_start(state: &mut [u8]) -> i64
    ensures value { result ≡ (start_call state.old).result }
    ensures state_after { state.new ≡ (start_call state.old).state }
{
    if state.len() != IMAGE {
        return -1;
    }
    let s = before_start();
    let area = [0u64; AREA];
    put_image(state, s, &area);
    0
}

// Answers one frame, a line without its line feed: the length of the answer line, which stands at the front of the answer area, line feed last. The state
// area has the image of the state after it. -16 for a state area that is no image of a sound state, then -1 for an answer area under 10,249 bytes.
pub fn plorrettix_answer(state: &mut [u8], frame: &[u8], answer: &mut [u8]) -> i64
    ensures value { result ≡ (answer_call state.old frame.now answer.old).result }
    ensures state_after { state.new ≡ (answer_call state.old frame.now answer.old).state }
    ensures answer_after { answer.new ≡ (answer_call state.old frame.now answer.old).answer }
{
    let x = image_in(&state[..]);
    if !x.good {
        return -16;
    }
    if answer.len() < ANSWER {
        return -1;
    }
    let s = x.state;
    let mut area = [0u64; AREA];
    let mut room = [0u8; LONGEST];
    let mut words = [0u64; WORDS];
    read_area(&state[..], &mut area);
    let r = answer_held(s, &mut area, frame, &mut room, &mut words, answer);
    let t = r.state;
    put_image(state, t, &area);
    let n = r.length;
    n as i64
}

// What a call gives: minus its refusal, or 0 or more where it is not refused.
fn result_of(refusal: u8, value: u8) -> i64
    ensures { result ≡ result_of refusal value }
{
    if refusal == 0 {
        return value as i64;
    }
    0 - refusal as i64
}

// Seals a block: five bytes a word, highest first, the data words and, if a field is chosen (4 sequence, 8 check sums), five bytes more, which become the
// check word. 0, or -1, -2, -13.
pub fn plorrettix_seal(block: &mut [u8], fields: u32, number: u32) -> i64
    ensures value { result ≡ result_of (seal_refusal block.old fields number) 0 }
    ensures block_after { block.new ≡ sealed_bytes block.old fields number }
{
    let refusal = seal_bytes(block, fields, number);
    result_of(refusal, 0)
}

// Checks a block as delivered, check word last if a field is chosen: the error, 0 for none. What was found goes to the front of `found`. -1, -2, -13.
pub fn plorrettix_check(block: &[u8], fields: u32, number: u32, found: &mut [u8]) -> i64
    ensures value { result ≡ result_of (verdict_on block.now fields number (length found.old)).refusal (verdict_on block.now fields number (length found.old)).error }
    ensures found_after { found.new ≡ found_after block.now fields number found.old }
{
    let v = check_bytes(block, fields, number, found);
    result_of(v.refusal, v.error)
}
