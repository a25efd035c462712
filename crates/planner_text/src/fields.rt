// What one line says: its fields are parted by single blanks.
ghost use Rattle.std.specs.Prelude.{◌≡◌, ◌≤◌, ◌<◌, min, length};
ghost use Rattle.area.specs.Lists.{count_of};
ghost use Rattle.planner_text.specs.Fields.{up_to, first_to, rest_to, same_bytes, blank, digit, capped, digits_from, number_of};
ghost use Rattle.planner_text.specs.Texts.{field1, field2, field3, close_event, open_event, event_of, byte_or0, limit_of, size_of, packed, row_of};

// The byte between fields.
const BLANK: u8 = 32;

// No number. It stays one past a byte: `row_of` and `packed` of specs/ give a field that is missing the same byte as a number too large.
const NONE: u16 = 256;

// How many bytes stand before the first `stop`: all, if there is none.
pub fn up_to(text: &[u8], stop: u8) -> usize
    ensures { (result ≡ up_to stop text.now) × (result ≤ length text.now) }
{
    text.iter().position(|c| *c == stop).unwrap_or(text.len())
}

// The bytes before the first `stop`.
pub fn first(text: &[u8], stop: u8) -> &[u8]
    ensures { result.now ≡ first_to stop text.now }
{
    let n = up_to(text, stop);
    &text[..n]
}

// The bytes after it: none, if there is no `stop`.
pub fn rest(text: &[u8], stop: u8) -> &[u8]
    ensures { result.now ≡ rest_to stop text.now }
{
    let n = up_to(text, stop);
    if n < text.len() {
        return &text[n + 1..];
    }
    &text[n..]
}

// How many blanks a line has: one fewer than fields.
fn blanks(line: &[u8]) -> usize
    ensures { result ≡ count_of blank line.now }
{
    let mut n = 0;
    for c in line {
        if *c == BLANK {
            n += 1;
        }
    }
    n
}

// Whether two texts are the same.
fn same(a: &[u8], b: &[u8]) -> bool
    ensures { result ≡ same_bytes a.now b.now }
{
    a == b
}

// Whether a byte is a decimal digit.
fn is_digit(c: u8) -> bool
    ensures { result ≡ digit c }
{
    (48 <= c) & (c <= 57)
}

// The number v with one digit more after it, or 255 where that is more.
fn with_digit(v: u16, c: u8) -> u16
    requires { (v < 256) × (48 ≤ c) × (c ≤ 57) }
    ensures { (result ≡ capped v c) × (result < 256) }
{
    let more = v * 10 + ((c - 48) as u16);
    if more < 256 {
        return more;
    }
    255
}

// The number that the digits say, or 256 if another byte is among them.
fn digits_from(field: &[u8]) -> u16
    ensures { (result ≡ digits_from 0 field.now) × (result ≤ 256) }
{
    let mut v = 0;
    for c in field {
        if !is_digit(*c) {
            return NONE;
        }
        v = with_digit(v, *c);
    }
    v
}

// The number that a field says: 255 for every larger one; 256 if it is no number, or has a zero in front.
fn number(field: &[u8]) -> u16
    ensures { (result ≡ number_of field.now) × (result ≤ 256) }
{
    if field.len() == 0 {
        return NONE;
    }
    if field.len() == 1 {
        return digits_from(field);
    }
    if field[0] == 48 {
        return NONE;
    }
    digits_from(field)
}

// A number as a byte, 0 if it is none.
fn byte_or_0(n: u16) -> u8
    ensures { result ≡ byte_or0 n }
{
    if 256 <= n {
        return 0;
    }
    n as u8
}

// The second and the third field of a line: nothing, where it has none.
fn second(line: &[u8]) -> &[u8]
    ensures { result.now ≡ field2 line.now }
{
    first(rest(line, BLANK), BLANK)
}

fn third(line: &[u8]) -> &[u8]
    ensures { result.now ≡ field3 line.now }
{
    second(rest(line, BLANK))
}

// The numbers that they say.
fn number1(line: &[u8]) -> u16
    ensures { (result ≡ number_of (field1 line.now)) × (result ≤ 256) }
{
    number(first(line, BLANK))
}

fn number2(line: &[u8]) -> u16
    ensures { (result ≡ number_of (field2 line.now)) × (result ≤ 256) }
{
    number(second(line))
}

fn number3(line: &[u8]) -> u16
    ensures { (result ≡ number_of (field3 line.now)) × (result ≤ 256) }
{
    number(third(line))
}

// The event of a closing of a file, by its first word.
fn close_event(file: u8, word: &[u8]) -> u8
    requires { file < 64 }
    ensures { result ≡ close_event file word.now }
{
    if same(word, b"close") {
        return 128 + file;
    }
    255
}

// The event of an opening, by its first and last word.
fn open_event(file: u8, word: &[u8], kind: &[u8]) -> u8
    requires { file < 64 }
    ensures { result ≡ open_event file word.now kind.now }
{
    if !same(word, b"open") {
        return 255;
    }
    if same(kind, b"single") {
        return file;
    }
    if same(kind, b"double") {
        return 64 + file;
    }
    255
}

// The event that a line of a list says, or 255, which is none.
pub fn event_of(line: &[u8]) -> u8
    ensures { result ≡ event_of line.now }
{
    let file = number2(line);
    if 64 <= file {
        return 255;
    }
    let n = blanks(line);
    if n == 1 {
        return close_event(file as u8, first(line, BLANK));
    }
    if n == 2 {
        return open_event(file as u8, first(line, BLANK), third(line));
    }
    255
}

// The limit that the first line of a list says, or 0.
pub fn limit_of(line: &[u8]) -> u8
    ensures { result ≡ limit_of line.now }
{
    byte_or_0(number(line))
}

// The size that the first line of a proposal says, or 0.
pub fn size_of(line: &[u8]) -> u8
    ensures { result ≡ size_of line.now }
{
    let word = same(first(line, BLANK), b"size");
    let n = blanks(line);
    if word & (n == 1) {
        return byte_or_0(number2(line));
    }
    0
}

// The smaller of a number and 255.
fn low(n: usize) -> u32
    ensures { (result ≡ min n 255) × (result < 256) }
{
    if n < 255 {
        return n as u32;
    }
    255
}

// A row: count of buffers, file, second and first buffer, a byte each.
fn packed(count: usize, file: u16, high: u16, base: u16) -> u32
    ensures { result ≡ packed count file high base }
{
    let c = low(count);
    let f = low(file as usize);
    let s = low(high as usize);
    let b = low(base as usize);
    c * 16777216 + f * 65536 + s * 256 + b
}

// The row that a line of a proposal says; one of file 255 if a field is no number.
pub fn row_of(line: &[u8]) -> u32
    ensures { result ≡ row_of line.now }
{
    let n = blanks(line);
    let file = number1(line);
    if 256 <= file {
        return 16711680;
    }
    let b = number2(line);
    if (1 <= n) & (256 <= b) {
        return 16711680;
    }
    let c = number3(line);
    if (2 <= n) & (256 <= c) {
        return 16711680;
    }
    packed(n, file, c, b)
}
