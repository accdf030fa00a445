// One line of a session file, out of its bytes: `None` where it is malformed.
ghost use Rattle.std.specs.Prelude.{◌≡◌, ◌==◌, position, take, drop};
ghost use Rattle.std.specs.Str.{bytes_eq};
ghost use Rattle.text.specs.Parsed.{read_decimal};
ghost use Rattle.session.specs.Inner.{find, source_in, leaf_of, pass_named, word, pass_line, two_sided, with_left, operation, words, read_line};

use text::{read_decimal, read_hex};

// An operand as it is written: the node of an index, or the number of a pattern.
#[derive(Clone, Copy)]
pub(crate) enum Source {
    Node(usize),
    Number(u64),
}

// What a line says, under the names that it has in the file.
#[derive(Clone, Copy)]
pub(crate) enum Line {
    Leaf(u64),
    // Operations 1 to 6, by the byte that the file has and `record` takes.
    Op(u8, Source, Source),
    Op7(Source),
    Op10(Source),
    MarkSet,
    MarkReset,
    RewindMark,
    RewindInit,
    ClearAdj,
    PassBack(usize),
    PassTomark(usize),
    PassTostart(usize),
    PassRest,
}

// Reads a line, its line feed included, to its end.
pub(crate) fn read_line(line: &[u8]) -> Option<Line>
    ensures { result ≡ read_line line.now }
{
    let text = line.strip_suffix(b"\n")?;
    read_words(text)
}

// A line is one word, or a first word and, from its space on, the rest.
fn read_words(text: &[u8]) -> Option<Line>
    ensures { result ≡ words text.now }
{
    let (first, rest) = cut_at(text, b' ');
    if rest.is_empty() {
        read_word(first)
    } else if let Some(number) = first.strip_prefix(b"op=") {
        read_operation(number, rest)
    } else {
        read_pass(first, rest)
    }
}

fn read_word(first: &[u8]) -> Option<Line>
    ensures { result ≡ word first.now }
{
    if is(first, b"mark=set") {
        Some(Line::MarkSet)
    } else if is(first, b"mark=reset") {
        Some(Line::MarkReset)
    } else if is(first, b"rewind=mark") {
        Some(Line::RewindMark)
    } else if is(first, b"rewind=init") {
        Some(Line::RewindInit)
    } else if is(first, b"clear=adj") {
        Some(Line::ClearAdj)
    } else if is(first, b"pass=rest") {
        Some(Line::PassRest)
    } else {
        read_leaf(first)
    }
}

fn read_leaf(first: &[u8]) -> Option<Line>
    ensures { result ≡ leaf_of first.now }
{
    read_hex(first.strip_prefix(b"leaf=")?).map(Line::Leaf)
}

fn read_pass(first: &[u8], rest: &[u8]) -> Option<Line>
    ensures { result ≡ pass_line first.now rest.now }
{
    let root = read_index(rest.strip_prefix(b" root=")?)?;
    pass_from(first, root)
}

fn pass_from(first: &[u8], root: usize) -> Option<Line>
    ensures { result ≡ pass_named first.now root }
{
    if is(first, b"pass=back") {
        Some(Line::PassBack(root))
    } else if is(first, b"pass=tomark") {
        Some(Line::PassTomark(root))
    } else if is(first, b"pass=tostart") {
        Some(Line::PassTostart(root))
    } else {
        None
    }
}

// An operation's number, and from the space behind it on its operands.
fn read_operation(number: &[u8], rest: &[u8]) -> Option<Line>
    ensures { result ≡ operation number.now rest.now }
{
    let (left, rest) = cut_at(rest.strip_prefix(b" left=")?, b' ');
    let left = read_source(left)?;
    read_with_left(number, left, rest)
}

fn read_with_left(number: &[u8], left: Source, rest: &[u8]) -> Option<Line>
    ensures { result ≡ with_left number.now rest.now left }
{
    if is(number, b"7") && rest.is_empty() {
        Some(Line::Op7(left))
    } else if is(number, b"10") && rest.is_empty() {
        Some(Line::Op10(left))
    } else {
        read_two_sided(read_decimal(number, 1)?, left, rest)
    }
}

fn read_two_sided(op: u64, left: Source, rest: &[u8]) -> Option<Line>
    ensures { result ≡ two_sided left rest.now op }
{
    if 1 <= op && op <= 6 {
        let right = read_source(rest.strip_prefix(b" right=")?)?;
        Some(Line::Op(op as u8, left, right))
    } else {
        None
    }
}

// Indexes and roots have at most so many digits.
const INDEX_DIGITS: usize = 5;

fn read_source(text: &[u8]) -> Option<Source>
    ensures { result ≡ source_in text.now }
{
    match text {
        [b'n', index @ ..] => read_index(index).map(Source::Node),
        [b'c', pattern @ ..] => read_hex(pattern).map(Source::Number),
        _ => None,
    }
}

fn read_index(digits: &[u8]) -> Option<usize>
    ensures { result ≡ read_decimal 5 digits.now }
{
    read_decimal(digits, INDEX_DIGITS).map(|index| index as usize)
}

// The text up to the first such byte, and from it on; the whole text where there is none.
fn cut_at(text: &[u8], byte: u8) -> (&[u8], &[u8])
    ensures front { result.0.now ≡ take (find byte text.now) text.now }
    ensures back { result.1.now ≡ drop (find byte text.now) text.now }
{
    let end = first_at(text, byte).unwrap_or(text.len());
    text.split_at(end)
}

fn first_at(text: &[u8], byte: u8) -> Option<usize>
    ensures { result ≡ position (λ b. b == byte) text.now }
{
    text.iter().position(|b| *b == byte)
}

// Whether a text is this word. A slice and a byte string have no `==`, and a `match` on byte strings says nothing of the
// words that are not there but byte by byte, in some fifty cases. By a loop, which a compiler makes of a word that it knows
// in place; `==` is called, and a line takes a tenth more.
fn is(text: &[u8], word: &[u8]) -> bool
    ensures { result ≡ bytes_eq text.now word.now }
{
    if text.len() != word.len() {
        return false;
    }
    for i in 0..text.len() {
        if text[i] != word[i] {
            return false;
        }
    }
    true
}
