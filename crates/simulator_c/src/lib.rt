// The calls of the C simulator, as functions that C links: each is the call of that name of the crate `simulator`, with its clauses.
#![tactic(auto)]

ghost use Rattle.std.specs.Prelude.{◌≡◌, length};
ghost use Rattle.block_bytes.specs.ByteBlocks.{seal_refusal, sealed_bytes, verdict_on, found_after};
ghost use Rattle.simulator.specs.Calls.{result_of, start_call, answer_call};

// Fills the state area with the image of the state before the first fresh start, its area all zero. 0, or -1 for an area of another size.
#[unsafe(no_mangle)]
pub extern "C" fn plorrettix_start(state: &mut [u8]) -> i64
    ensures value { result ≡ (start_call state.old).result }
    ensures state_after { state.new ≡ (start_call state.old).state }
{
    simulator::plorrettix_start(state)
}

// Answers one frame, a line without its line feed: the length of the answer line, which stands at the front of the answer area, line feed last. The state
// area has the image of the state after it. -16 for a state area that is no image of a sound state, then -1 for an answer area under 10,249 bytes.
#[unsafe(no_mangle)]
pub extern "C" fn plorrettix_answer(state: &mut [u8], frame: &[u8], answer: &mut [u8]) -> i64
    ensures value { result ≡ (answer_call state.old frame.now answer.old).result }
    ensures state_after { state.new ≡ (answer_call state.old frame.now answer.old).state }
    ensures answer_after { answer.new ≡ (answer_call state.old frame.now answer.old).answer }
{
    simulator::plorrettix_answer(state, frame, answer)
}

// Seals a block: five bytes a word, highest first, the data words and, if a field is chosen (4 sequence, 8 check sums), five bytes more, which become the
// check word. 0, or -1, -2, -13.
#[unsafe(no_mangle)]
pub extern "C" fn plorrettix_seal(block: &mut [u8], fields: u32, number: u32) -> i64
    ensures value { result ≡ result_of (seal_refusal block.old fields number) 0 }
    ensures block_after { block.new ≡ sealed_bytes block.old fields number }
{
    simulator::plorrettix_seal(block, fields, number)
}

// Checks a block as delivered, check word last if a field is chosen: the error, 0 for none. What was found goes to the front of `found`. -1, -2, -13.
#[unsafe(no_mangle)]
pub extern "C" fn plorrettix_check(block: &[u8], fields: u32, number: u32, found: &mut [u8]) -> i64
    ensures value { result ≡ result_of (verdict_on block.now fields number (length found.old)).refusal (verdict_on block.now fields number (length found.old)).error }
    ensures found_after { found.new ≡ found_after block.now fields number found.old }
{
    simulator::plorrettix_check(block, fields, number, found)
}
