//! Lines, words and numbers of a file.

use text_lines::{
    Lines, Number, Words, digits_to_u32, is_blank_line, leading_digits_len, number_to_u64,
    trim_blanks_start,
};

// Returns whether a file has exactly these lines.
fn has_lines(text: &[u8], wanted: &[&[u8]]) -> bool {
    let mut lines = Lines::new(text);
    for line in wanted {
        if lines.next() != Some(*line) {
            return false;
        }
    }
    lines.next().is_none()
}

// Returns whether a line has exactly these words.
fn has_words(line: &[u8], wanted: &[&[u8]]) -> bool {
    let mut words = Words::new(line);
    for word in wanted {
        if words.next() != Some(*word) {
            return false;
        }
    }
    words.next().is_none()
}

/// Files, and the lines into which each is cut.
const LINES: [(&[u8], &[&[u8]]); 3] = [
    (
        b"a\tbc \r\n\r\r\n \t\n\nd\r",
        &[b"a\tbc ", b"\r", b" \t", b"", b"d"],
    ),
    (b"", &[]),
    (b"\r", &[b""]),
];

#[test]
fn cuts_lines(rt: HostRuntime) {
    for (text, lines) in &LINES {
        assert!(rt; has_lines(text, lines));
    }
}

/// Lines, and the words of each.
const WORDS: [(&[u8], &[&[u8]]); 2] = [(b"a\tbc ", &[b"a", b"bc"]), (b" \t", &[])];

#[test]
fn cuts_words(rt: HostRuntime) {
    for (line, words) in &WORDS {
        assert!(rt; has_words(line, words));
    }
}

#[test]
fn knows_blanks(rt: HostRuntime) {
    assert!(rt; is_blank_line(b"\t ") && !is_blank_line(b" \r"));
    assert!(rt; trim_blanks_start(b"\t x ") == b"x ".as_slice());
}

/// A question about a word, together with the expected answer.
#[derive(Clone, Copy)]
enum Answer {
    /// The word is not a number.
    NoNumber,
    /// A number, with its value if that is within these limits.
    Within(i32, i32, Option<i32>),
    /// A number, and whether it is above this limit.
    Above(u32, bool),
    /// A number, with its value if that is a `u64`.
    U64(Option<u64>),
    /// The word is not an integer.
    NoInteger,
    /// An integer, with its value if that is within these limits.
    IntegerWithin(i32, i32, Option<i32>),
    /// Only digits, with their value if that is a `u32`.
    Digits(Option<u32>),
}

fn is_within(number: Option<Number>, least: i32, most: i32, value: Option<i32>) -> bool {
    match number {
        Some(number) => number.within(least, most) == value,
        None => false,
    }
}

fn is_above(number: Option<Number>, limit: u32, is: bool) -> bool {
    match number {
        Some(number) => number.is_above(limit) == is,
        None => false,
    }
}

fn is_u64(number: Option<Number>, value: Option<u64>) -> bool {
    match number {
        Some(number) => number.to_u64() == value,
        None => false,
    }
}

// Returns whether the functions of `text_lines` answer this for a word.
fn answers(word: &[u8], answer: &Answer) -> bool {
    match answer {
        Answer::NoNumber => Number::parse(word).is_none() && number_to_u64(word).is_none(),
        Answer::Within(least, most, value) => {
            is_within(Number::parse(word), *least, *most, *value)
        }
        Answer::Above(limit, is) => is_above(Number::parse(word), *limit, *is),
        Answer::U64(value) => {
            is_u64(Number::parse(word), *value) && number_to_u64(word) == *value
        }
        Answer::NoInteger => Number::parse_integer(word).is_none(),
        Answer::IntegerWithin(least, most, value) => {
            is_within(Number::parse_integer(word), *least, *most, *value)
        }
        Answer::Digits(value) => digits_to_u32(word) == *value,
    }
}

/// Words, and the expected answer for each.
const ANSWERS: [(&[u8], Answer); 33] = [
    (b"0", Answer::Within(-1_000_000, 100_000_000, Some(0))),
    (b"007", Answer::Within(-1_000_000, 100_000_000, Some(7))),
    (b"5.", Answer::Within(-1_000_000, 100_000_000, Some(5))),
    (b"5.0", Answer::Within(-1_000_000, 100_000_000, Some(5))),
    (b"+5.000", Answer::Within(-1_000_000, 100_000_000, Some(5))),
    (b"-0", Answer::Within(-1_000_000, 100_000_000, Some(0))),
    (b"-0.", Answer::Within(-1_000_000, 100_000_000, Some(0))),
    (
        b"-1000000",
        Answer::Within(-1_000_000, 100_000_000, Some(-1_000_000)),
    ),
    (
        b"0000000000000000000000000000100000000.00",
        Answer::Within(-1_000_000, 100_000_000, Some(100_000_000)),
    ),
    (b"", Answer::NoNumber),
    (b".0", Answer::NoNumber),
    (b".", Answer::NoNumber),
    (b"+", Answer::NoNumber),
    (b"-", Answer::NoNumber),
    (b"5.01", Answer::NoNumber),
    (b"1e3", Answer::NoNumber),
    (b"+-5", Answer::NoNumber),
    (b"5 ", Answer::NoNumber),
    (b"30.5", Answer::NoNumber),
    (b"18446744073709551615", Answer::U64(Some(u64::MAX))),
    (
        b"340282366920938463463374607431768211456",
        Answer::U64(None),
    ),
    (b"-1", Answer::U64(None)),
    (
        b"340282366920938463463374607431768211456",
        Answer::Within(i32::MIN, i32::MAX, None),
    ),
    (
        b"340282366920938463463374607431768211456",
        Answer::Above(u32::MAX, true),
    ),
    (b"40000", Answer::Above(40_000, false)),
    (b"4294967295", Answer::Digits(Some(u32::MAX))),
    (b"4294967296", Answer::Digits(None)),
    (b"+1", Answer::Digits(None)),
    (b"1.0", Answer::Digits(None)),
    (
        b"-00000000000000000009",
        Answer::IntegerWithin(-9, 9, Some(-9)),
    ),
    (b"000000000000000000009", Answer::NoInteger),
    (b"+9", Answer::NoInteger),
    (b"-", Answer::NoInteger),
];

#[test]
fn reads_numbers(rt: HostRuntime) {
    for (word, answer) in &ANSWERS {
        assert!(rt; answers(word, answer));
    }
    assert!(rt; leading_digits_len(b"12x3") == 2);
}

// Returns whether the words of a line are exactly these numbers. `None` means that a word is not a number in
// -999..=999, or is missing.
fn has_numbers(line: &[u8], values: &[Option<i32>]) -> bool {
    let mut words = Words::new(line);
    for value in values {
        if words.next_number(-999, 999) != *value {
            return false;
        }
    }
    words.next().is_none()
}

/// Lines, and the numbers of their words, as `has_numbers` expects them.
const NEXT_NUMBERS: [(&[u8], &[Option<i32>]); 6] = [
    (b"5 -6  007", &[Some(5), Some(-6), Some(7)]),
    (b"\t +5.0 -0.\t1000", &[Some(5), Some(0), None]),
    (b"5x 6 -", &[None, Some(6), None]),
    (b"999 1000 -1000", &[Some(999), None, None]),
    (
        b"0000000000000000000000005 99999999999999999999 8",
        &[Some(5), None, Some(8)],
    ),
    (b"30.5 - ", &[None, None, None]),
];

#[test]
fn reads_the_next_numbers(rt: HostRuntime) {
    for (line, values) in &NEXT_NUMBERS {
        assert!(rt; has_numbers(line, values));
    }
}
