// Plays cases of `word` and `block`: sums, check words, seals and judgements. Each line of the input is a case: its kind, its numbers
// and its words. Each gives a line of output; the stored output is that of the second program.
#![tactic(auto)]

ghost use Rattle.std.specs.Prelude.{◌≤◌, ◌<◌, length};

use std::io::Stdout;
use streams::{Line, read_full};
use word::Checked;

// The most words that a case has, and the most numbers before them.
const ROOM: usize = 1200;

const HEAD: usize = 5;

// What is left of the text.
#[derive(Drop)]
struct Numbers<'a> {
    rest: &'a [u8],
}

impl Numbers<'_> {
    // The next number, 0 where there is none.
    fn next(&mut self) -> u64
        ensures left { length self.new.rest.now ≤ length self.old.rest.now }
        ensures moves { 0 < length self.old.rest.now → length self.new.rest.now < length self.old.rest.now }
    {
        let number = numbers::next(self.rest, 0);
        self.rest = &self.rest[number.at..];
        number.value
    }

    // As many numbers as the room has places.
    fn fill(&mut self, room: &mut [u64])
        ensures { length self.new.rest.now ≤ length self.old.rest.now }
    {
        for place in room {
            *place = self.next();
        }
    }
}

// What a case tries.
#[derive(Clone, Copy)]
enum Kind {
    Sum,
    CheckWord,
    Seal,
    Judge,
    // Judges no words, by the numbers that the cases before it left.
    Again,
}

impl Kind {
    // The kind of that number; 0 is no case.
    fn of(number: u64) -> Option<Kind> {
        match number {
            0 => None,
            1 => Some(Kind::Sum),
            2 => Some(Kind::CheckWord),
            3 => Some(Kind::Seal),
            4 => Some(Kind::Judge),
            _ => Some(Kind::Again),
        }
    }

    // How many numbers such a case has before its words.
    fn head_count(self) -> usize
        ensures { result ≤ 5 }
    {
        match self {
            Kind::Sum => 1,
            Kind::CheckWord | Kind::Judge => 4,
            Kind::Seal => 5,
            Kind::Again => 0,
        }
    }

    // How many words it has: one of its numbers.
    fn word_count(self, head: [u64; HEAD]) -> usize
        ensures { result ≤ 1200 }
    {
        match self {
            Kind::Sum | Kind::Seal => count(head[0]),
            Kind::Judge => count(head[3]),
            Kind::CheckWord | Kind::Again => 0,
        }
    }
}

// A number as a count of words, and as a block number.
fn count(n: u64) -> usize
    ensures { result ≤ 1200 }
{
    n.min(ROOM as u64) as usize
}

fn block_number(n: u64) -> u16 {
    (n % 65536) as u16
}

// `1 n words`: whether each is below 2^36, their logical sum, and its fold.
fn play_sum(line: &mut Line, words: &[u64]) {
    let s = word::logical_sum(words);
    line.number(s.fits);
    line.number(s.sum);
    line.number(word::folded(s.sum));
}

// `2 sequence check number sum`: the check word, its two fields, and the next block number.
fn play_check_word(line: &mut Line, [sequence, check, number, sum, _]: [u64; HEAD]) {
    let n = block_number(number);
    let w = word::check_word(sequence != 0, check != 0, sum, n);
    line.number(w);
    line.number(word::sum_field(w));
    line.number(word::number_field(w));
    line.number(word::next_number(n));
}

// `3 len n sequence check number words`: sealing, the refusal and every word of the slice afterwards.
fn play_seal(line: &mut Line, [_, n, sequence, check, number]: [u64; HEAD], block: &mut [u64]) {
    let refusal = block::seal(
        block,
        count(n),
        sequence != 0,
        check != 0,
        block_number(number),
    );
    line.number(refusal);
    line.numbers(block);
}

// `4 sequence check number len words`: judging a block as delivered, the refusal, the error, the sum and the number worked out, and those read.
fn play_judge(line: &mut Line, [sequence, check, number, _, _]: [u64; HEAD], block: &[u64]) {
    let judged = block::judge(block, sequence != 0, check != 0, block_number(number));
    let Checked {
        error,
        sum,
        number,
        sumread,
        numberread,
    } = judged.found;
    line.number(judged.refusal);
    line.number(error);
    line.number(sum);
    line.number(number);
    line.number(sumread);
    line.number(numberread);
}

// The numbers of a case and its words, where those of the next take their place.
#[derive(Drop)]
struct Desk {
    head: [u64; HEAD],
    room: [u64; ROOM],
}

impl Desk {
    // Plays the next case, which answers with a line.
    fn play_case(&mut self, to: Stdout, numbers: &mut Numbers<'_>)
        ensures { (0 < length numbers.old.rest.now) → length numbers.new.rest.now < length numbers.old.rest.now }
    {
        let Some(kind) = Kind::of(numbers.next()) else {
            return;
        };
        numbers.fill(&mut self.head[..kind.head_count()]);
        let head = self.head;
        let words = &mut self.room[..kind.word_count(head)];
        numbers.fill(words);
        let mut line = Line::new(to);
        match kind {
            Kind::Sum => play_sum(&mut line, words),
            Kind::CheckWord => play_check_word(&mut line, head),
            Kind::Seal => play_seal(&mut line, head, words),
            Kind::Judge | Kind::Again => play_judge(&mut line, head, words),
        }
        line.end();
    }
}

fn main(rt: HostRuntime) {
    let mut text = [0u8; 131072];
    let n = read_full(&mut rt.stdin(), &mut text);
    let mut numbers = Numbers { rest: &text[..n] };
    let mut desk = Desk {
        head: [0; HEAD],
        room: [0; ROOM],
    };
    while !numbers.rest.is_empty() {
        desk.play_case(rt.stdout(), &mut numbers);
    }
}
