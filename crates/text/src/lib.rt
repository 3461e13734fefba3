// The text that scripts are written in: lines, their fields, numbers and words, read from byte slices and written to them.
#![tactic(auto)]

ghost use Rattle.std.specs.Prelude.{◌≡◌, [], ◌∷◌, ◌+◌, ◌≤◌, length, drop, replicate};
ghost use Rattle.std.proofs.lemmas.List.Edits.{sets};
ghost use Rattle.text.specs.Fields.{fields_of, field_of, fields_from};
ghost use Rattle.text.specs.Prefixes.{upto};
ghost use Rattle.text.specs.Lines.{line_at, begins_of};
ghost use Rattle.text.specs.Numbers.{digits_from, number_of, numbers_from, decimal_of};
ghost use Rattle.text.specs.Words.{is_word};
ghost use Rattle.text.specs.Letters.{capital_of};
ghost use Rattle.text.specs.LineFields.{field_in, has_tab, begins_with, fields_at, fields_after, Reads};
ghost use Rattle.text.specs.WrittenBytes.{Wrote};
ghost use Rattle.text.specs.RightSet.{space, right_set};

const TAB: u8 = 9;

const NEWLINE: u8 = 10;

const SPACE: u8 = 32;

// The place of the first such byte at or after a place; otherwise the end. A place past the end is given back as it is.
fn find_byte(s: &[u8], from: usize, byte: u8) -> usize
    ensures { result ≡ from + length (upto byte (drop from s.now)) }
{
    for i in from..s.len() {
        if s[i] == byte {
            return i;
        }
    }
    from.max(s.len())
}

// Where the field k of a line begins, counted from 0. Past the last: the line's end.
fn field_start(line: &[u8], k: usize) -> usize
    ensures { (result ≤ length line.now) × (fields_of (drop result line.now) ≡ fields_from line.now k) }
{
    let mut start: usize = 0;
    for _ in 0..k {
        let t = find_byte(line, start, TAB);
        if t == line.len() {
            return t;
        }
        start = t + 1;
    }
    start
}

// The field k of a line: a part of the caller's slice. Past the last: the empty part at the line's end.
pub fn field(line: &[u8], k: usize) -> &[u8]
    ensures { result.now ≡ field_of line.now k }
{
    let start = field_start(line, k);
    let end = find_byte(line, start, TAB);
    &line[start..end]
}

// How many fields a line has: one more than its tabs.
#[tactic(auto, using(crate::specs::FieldLaws::fields_count))]
pub fn field_count(line: &[u8]) -> usize
    ensures { result ≡ length (fields_of line.now) }
{
    line.iter().filter(|b| **b == TAB).count() + 1
}

// One to seven digits, with no leading zero but 0 itself.
pub fn number(part: &[u8]) -> Option<u32>
    ensures { result ≡ number_of part.now }
{
    let n = part.len();
    if n < 1 || 7 < n {
        return None;
    }
    if 1 < n && part[0] == b'0' {
        return None;
    }
    digits(part)
}

// The value of at most seven digits, or none where a byte is no digit.
fn digits(part: &[u8]) -> Option<u32>
    requires { length part.now ≤ 7 }
    ensures { result ≡ digits_from 0 part.now }
{
    let mut v: u32 = 0;
    for &b in part {
        if !b.is_ascii_digit() {
            return None;
        }
        v = v * 10 + u32::from(b - b'0');
    }
    Some(v)
}

// Numbers in order; the places past the count are 0.
// Kept: the count stands beside an array, since there is no heap, and each line asks for a number of its own; `numbers_from` speaks of both.
#[derive(Clone, Copy)]
pub struct Numbers {
    pub count: usize,
    pub values: [u32; 8],
}

// The numbers in a line's fields from the field k on, up to the first that is none: eight at most. Each field begins where the one before ends.
pub fn field_numbers(line: &[u8], k: usize) -> Numbers
    ensures { result ≡ numbers_from line.now k }
{
    let mut values = [0; 8];
    let mut start = field_start(line, k);
    for count in 0..8 {
        let part = field(&line[start..], 0);
        let Some(v) = number(part) else {
            return Numbers { count, values };
        };
        values[count] = v;
        let end = start + part.len();
        if end == line.len() {
            return Numbers {
                count: count + 1,
                values,
            };
        }
        start = end + 1;
    }
    Numbers { count: 8, values }
}

// The one capital letter that a part is, as its byte.
pub fn capital(part: &[u8]) -> Option<u32>
    ensures { result ≡ capital_of part.now }
{
    match part {
        [letter] if letter.is_ascii_uppercase() => Some(u32::from(*letter)),
        _ => None,
    }
}

// Whether a part is this word.
pub fn is_word(part: &[u8], word: &[u8]) -> bool
    ensures { result ≡ is_word word.now part.now }
{
    part == word
}

// Where the field at a place ends: at the next tab or byte 10, or at the text's end. Read from field to field, a line is looked at once: its
// end is where its last field ends.
fn field_end(text: &[u8], from: usize) -> usize
    ensures { result ≡ from + length (field_in (drop from text.now)) }
{
    for i in from..text.len() {
        if text[i] == TAB || text[i] == NEWLINE {
            return i;
        }
    }
    from.max(text.len())
}

// The field at a place: a part of the caller's slice.
fn field_at(text: &[u8], from: usize) -> &[u8]
    requires { from ≤ length text.now }
    ensures { result.now ≡ field_in (drop from text.now) }
{
    let end = field_end(text, from);
    &text[from..end]
}

// What a field says, and where it ends.
// Kept: the end is wanted where the field says nothing too, so an `Option` of both would lose it.
#[derive(Clone, Copy)]
pub struct ReadField {
    pub said: Option<u32>,
    pub end: usize,
}

// The number in the field at a place.
pub fn number_at(text: &[u8], from: usize) -> ReadField
    requires { from ≤ length text.now }
    ensures { Reads number_of (fields_at text.now from) text.now from result }
{
    let part = field_at(text, from);
    ReadField {
        said: number(part),
        end: from + part.len(),
    }
}

// The capital letter in it.
// Kept: a type parameter for the reader of the part needs a trait with a law, and that is longer than this twin of `number_at`.
fn capital_at(text: &[u8], from: usize) -> ReadField
    requires { from ≤ length text.now }
    ensures { Reads capital_of (fields_at text.now from) text.now from result }
{
    let part = field_at(text, from);
    ReadField {
        said: capital(part),
        end: from + part.len(),
    }
}

// Whether a tab is at a place.
fn is_tab(text: &[u8], at: usize) -> bool
    ensures { result ≡ has_tab (drop at text.now) }
{
    at < text.len() && text[at] == TAB
}

// The number in the field after one that ends at a place. Past the last: none, and the place.
pub fn number_after(text: &[u8], end: usize) -> ReadField
    ensures { Reads number_of (fields_after text.now end) text.now end result }
{
    if is_tab(text, end) {
        return number_at(text, end + 1);
    }
    ReadField { said: None, end }
}

// The capital letter in it.
pub fn capital_after(text: &[u8], end: usize) -> ReadField
    ensures { Reads capital_of (fields_after text.now end) text.now end result }
{
    if is_tab(text, end) {
        return capital_at(text, end + 1);
    }
    ReadField { said: None, end }
}

// Whether this word is at a place, and a tab after it.
pub fn word_at(text: &[u8], at: usize, word: &[u8]) -> bool
    ensures { result ≡ begins_with word.now (drop at text.now) }
{
    if text.len() <= at {
        return false;
    }
    if text.len() - at <= word.len() {
        return false;
    }
    let end = at + word.len();
    if text[end] != TAB {
        return false;
    }
    is_word(&text[at..end], word)
}

// Each writer writes at a place, where the caller has room, and gives back the place after what it wrote.
pub fn put_byte(out: &mut [u8], at: usize, byte: u8) -> usize
    requires { at + 1 ≤ length out.old }
    ensures { (result ≡ at + 1) × (out.new ≡ sets out.old at (byte ∷ [])) }
{
    out[at] = byte;
    at + 1
}

pub fn put_word(out: &mut [u8], at: usize, word: &[u8]) -> usize
    requires { at + length word.now ≤ length out.old }
    ensures { (result ≡ at + length word.now) × (out.new ≡ sets out.old at word.now) }
{
    let end = at + word.len();
    out[at..end].copy_from_slice(word);
    end
}

// How many digits a number has.
fn number_len(v: u32) -> usize
    ensures { result ≡ length (decimal_of v) }
{
    let mut rest = v;
    let mut n: usize = 1;
    while 10 <= rest {
        rest = rest / 10;
        n += 1;
    }
    n
}

// In decimal, from the last digit to the first.
pub fn put_number(out: &mut [u8], at: usize, v: u32) -> usize
    requires { at + length (decimal_of v) ≤ length out.old }
    ensures { (result ≡ at + length (decimal_of v)) × (out.new ≡ sets out.old at (decimal_of v)) }
{
    let end = at + number_len(v);
    let mut rest = v;
    let mut i = end - 1;
    while 10 <= rest {
        out[i] = 48 + ((rest % 10) as u8);
        rest = rest / 10;
        i -= 1;
    }
    out[i] = 48 + (rest as u8);
    end
}

pub fn put_spaces(out: &mut [u8], at: usize, count: usize) -> usize
    requires { at + count ≤ length out.old }
    ensures { Wrote count out.old at (replicate count space) out.new result }
{
    let end = at + count;
    out[at..end].fill(SPACE);
    end
}

// Right-set in `width` columns.
pub fn put_word_right(out: &mut [u8], at: usize, width: usize, word: &[u8]) -> usize
    requires { (length word.now ≤ width) × (at + width ≤ length out.old) }
    ensures { Wrote width out.old at (right_set width word.now) out.new result }
{
    let p = put_spaces(out, at, width - word.len());
    put_word(out, p, word)
}

pub fn put_number_right(out: &mut [u8], at: usize, width: usize, v: u32) -> usize
    requires { (length (decimal_of v) ≤ width) × (at + width ≤ length out.old) }
    ensures { Wrote width out.old at (right_set width (decimal_of v)) out.new result }
{
    let p = put_spaces(out, at, width - number_len(v));
    put_number(out, p, v)
}

// Where a line ends, and whether byte 10 closes it there.
// Kept: the end is wanted of an unclosed line too, so an `Option` of it would lose it.
#[derive(Clone, Copy)]
pub struct Line {
    pub end: usize,
    pub closed: bool,
}

// The line that begins at a place. Past the text's end: the empty, unclosed one.
pub fn next_line(text: &[u8], from: usize) -> Line
    ensures { result ≡ line_at text.now from }
{
    let end = find_byte(text, from, NEWLINE);
    Line {
        end,
        closed: end < text.len(),
    }
}

// How a text begins: it is empty; it is too long or its first line is not closed; or that line ends at a place.
// Kept: three cases of one rank, and neither of the first two is an error of the other: a `Result` of an `Option` is no plainer.
#[derive(Clone, Copy)]
pub enum Begins {
    Nothing,
    Malformed,
    Line(usize),
}

// The first line of a text that may have `longest` bytes.
pub fn first_line(text: &[u8], longest: usize) -> Begins
    ensures { result ≡ begins_of longest text.now }
{
    if longest < text.len() {
        return Begins::Malformed;
    }
    if text.len() < 1 {
        return Begins::Nothing;
    }
    let line = next_line(text, 0);
    if line.closed {
        return Begins::Line(line.end);
    }
    Begins::Malformed
}
