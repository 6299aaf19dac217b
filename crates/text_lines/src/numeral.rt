//! Words that are numbers of any length.
ghost use Rattle.std.specs.Prelude.{◌≡◌, ◌+◌, ◌*◌, ◌^◌, ◌<◌, ◌≤◌, ◌↔◌, ℕ, true, Some, None, pos, ◌≤ℤ◌, ◌<ℤ◌, IsTrue, IfSome, is_some, length, take};
ghost use Rattle.std.specs.Char.{digit_value, is_ascii_digit};
ghost use Rattle.std.specs.List.{list_all, prefix_len};
ghost use Rattle.std.specs.Int.RustNames.{unsigned_abs};
ghost use Rattle.std.specs.Option.{SomeIff, option_and_then, option_map};
ghost use Rattle.std.specs.Str.Parse.{digits_value, starts_with_minus, without_leading_sign};
ghost use Rattle.text_lines.specs.NumberPrefix.{BeginsWithNumber};
ghost use Rattle.text_lines.specs.Numbers.{IsFittingValue, below, digits_of, integer_of, is_digits, is_zero, is_zero_fraction, magnitude, number_of, signed, whole_of, without_minus};

use crate::word_iter::ends_word;
use std::marker::Model;

// The greatest number of digits that always fit a `u64`.
const MAX_FITTING_DIGITS: usize = 19;

/// The numeric value of a word. It may have any number of digits.
#[derive(Drop)]
pub struct Number<'a> {
    negative: bool,
    digits: &'a [u8],
    // The value of the digits if it fits a `u64`. The scan that finds the digits computes it.
    value: Option<u64>,
}

impl<'a> Model for Number<'a> {
    ghost use Rattle.std.specs.Prelude.{ℤ};
    ghost use Rattle.std.specs.Str.Parse.{digits_value};
    ghost use Rattle.text_lines.specs.Numbers.{IsFittingValue, signed};

    ghost Value = { ℤ };

    ghost view = { λ number. signed number.negative (digits_value 10 number.digits.now) };

    ghost invariant = { λ number. IsFittingValue number.digits.now number.value };
}

impl<'a> Number<'a> {
    /// Parses a word as a number: a plus, a minus or no sign, digits, and optionally a point with only zeros
    /// after it.
    #[inline]
    pub fn parse(word: &'a [u8]) -> Option<Number<'a>>
        ensures { result ≡ number_of word.now }
    {
        let (negative, body) = split_sign(word);
        let (digits, value) = whole_digits(body)?;
        Some(Number {
            negative,
            digits,
            value,
        })
    }

    /// Parses the first word of a text on a fast path and returns the number and the rest of the text.
    ///
    /// The fast path covers nearly every number: the text begins with the word, and the word is at most 19
    /// digits with a minus or no sign. In other cases the result is `None`.
    #[inline(always)]
    pub(crate) fn parse_prefix(text: &'a [u8]) -> Option<(Number<'a>, &'a [u8])>
        ensures { IfSome result (λ found. BeginsWithNumber text.now found.0 found.1.now) }
    {
        let (negative, body) = split_minus(text);
        let (len, value) = first_digits(body);
        let (digits, rest) = body.split_at(len);
        if digits.is_empty() || !ends_word(rest) {
            return None;
        }
        let number = Number {
            negative,
            digits,
            value: Some(value),
        };
        Some((number, rest))
    }

    /// Parses a word of a command as an integer: a minus or no sign, and 1 to 20 digits.
    #[inline]
    pub fn parse_integer(word: &'a [u8]) -> Option<Number<'a>>
        ensures { result ≡ integer_of word.now }
    {
        let (negative, digits) = split_minus(word);
        if digits.len() > 20 {
            return None;
        }
        let value = word_value(digits)?;
        Some(Number {
            negative,
            digits,
            value,
        })
    }

    /// Returns the number if it is within these limits, both inclusive.
    #[inline]
    pub fn within(&self, least: i32, most: i32) -> Option<i32>
        ensures { SomeIff result ((least ≤ℤ self.now) × (self.now ≤ℤ most)) self.now }
    {
        let magnitude = u32::try_from(self.value?).ok()?;
        let value = i32::try_from(signed_value(self.negative, magnitude)).ok()?;
        if value < least || most < value {
            return None;
        }
        Some(value)
    }

    /// Returns the number if it fits a `u64`.
    #[inline]
    pub fn to_u64(&self) -> Option<u64>
        ensures { SomeIff result
            ((pos 0 ≤ℤ self.now) × (self.now <ℤ pos (2 ^ 64)))
            (unsigned_abs self.now) }
    {
        let value = self.value?;
        if self.negative && value > 0 {
            return None;
        }
        Some(value)
    }

    /// Returns whether the number is greater than `limit`.
    #[inline]
    pub fn is_above(&self, limit: u32) -> bool
        ensures { IsTrue result ↔ (pos limit <ℤ self.now) }
    {
        if self.negative {
            return false;
        }
        match self.value {
            Some(value) => value > u64::from(limit),
            None => true,
        }
    }
}

/// Returns the value of a word that consists of digits only, if it fits a `u32`.
#[inline]
pub fn digits_to_u32(word: &[u8]) -> Option<u32>
    ensures { result ≡ below (2 ^ 32) (digits_of word.now) }
{
    let value = word_value(word)?;
    u32::try_from(value?).ok()
}

/// Returns the value of a word that is a number, if it fits a `u64`.
#[inline]
pub fn number_to_u64(word: &[u8]) -> Option<u64>
    ensures { result ≡ below (2 ^ 64) (option_and_then magnitude (number_of word.now)) }
{
    Number::parse(word)?.to_u64()
}

fn signed_value(negative: bool, magnitude: u32) -> i64
    ensures { result ≡ signed negative magnitude }
{
    let value = i64::from(magnitude);
    if negative { -value } else { value }
}

// Returns `None` if the word is not all digits, otherwise its value, which is `None` again if it does not fit a
// `u64`.
fn word_value(word: &[u8]) -> Option<Option<u64>>
    ensures digits { is_some result ≡ is_digits word.now }
    ensures value { IfSome result (IsFittingValue word.now) }
{
    let (len, value) = leading_digits(word);
    if len == 0 {
        return None;
    }
    if len < word.len() {
        return None;
    }
    Some(value)
}

// Returns the number of leading digits, and their value if it fits a `u64`.
fn leading_digits(text: &[u8]) -> (usize, Option<u64>)
    ensures len { result.0 ≡ prefix_len is_ascii_digit text.now }
    ensures value { IsFittingValue (take (prefix_len is_ascii_digit text.now) text.now) result.1 }
{
    if text.len() <= MAX_FITTING_DIGITS {
        let (len, value) = short_leading_digits(text);
        return (len, Some(value));
    }
    let len = leading_digits_len(text);
    (len, value_of(&text[..len]))
}

// Like `leading_digits`, for a text that is short enough for its value to fit. It takes one pass and covers
// nearly every word.
fn short_leading_digits(text: &[u8]) -> (usize, u64)
    requires { length text.now ≤ 19 }
    ensures len { result.0 ≡ prefix_len is_ascii_digit text.now }
    ensures value { result.1
        ≡ digits_value 10 (take (prefix_len is_ascii_digit text.now) text.now) }
{
    let mut value = 0;
    for (i, byte) in text.iter().enumerate() {
        if !byte.is_ascii_digit() {
            return (i, value);
        }
        value = value * 10 + u64::from(byte - b'0');
    }
    (text.len(), value)
}

// Returns the number of leading digits, at most 19, and their value.
#[inline(always)]
fn first_digits(text: &[u8]) -> (usize, u64)
    ensures fits { result.0 ≤ length text.now }
    ensures digits { list_all is_ascii_digit (take result.0 text.now) ≡ true }
    ensures value { result.1 ≡ digits_value 10 (take result.0 text.now) }
{
    short_leading_digits(&text[..text.len().min(MAX_FITTING_DIGITS)])
}

/// Returns the number of leading digits.
pub fn leading_digits_len(text: &[u8]) -> usize
    ensures value { result ≡ prefix_len is_ascii_digit text.now }
    ensures bound { result ≤ length text.now }
{
    text.iter()
        .position(|byte| !byte.is_ascii_digit())
        .unwrap_or(text.len())
}

// Returns the digits of a number without its sign, and their value if it fits a `u64`.
fn whole_digits(body: &[u8]) -> Option<(&[u8], Option<u64>)>
    ensures whole { whole_of body.now ≡ option_map (λ found. digits_value 10 found.0.now) result }
    ensures value { IfSome result (λ found. IsFittingValue found.0.now found.1) }
{
    let (len, value) = leading_digits(body);
    let (digits, rest) = body.split_at(len);
    if digits.is_empty() {
        return None;
    }
    if !is_zero_fraction_text(rest) {
        return None;
    }
    Some((digits, value))
}

fn all_zeros(text: &[u8]) -> bool
    ensures { result ≡ list_all is_zero text.now }
{
    text.iter().all(|byte| *byte == b'0')
}

fn is_zero_fraction_text(text: &[u8]) -> bool
    ensures { result ≡ is_zero_fraction text.now }
{
    match text {
        [] => true,
        [b'.', zeros @ ..] => all_zeros(zeros),
        _ => false,
    }
}

// Returns the value of the digits if it fits a `u64`.
fn value_of(digits: &[u8]) -> Option<u64>
    requires { list_all is_ascii_digit digits.now ≡ true }
    ensures { IsFittingValue digits.now result }
{
    let mut value = 0;
    for digit in digits {
        value = with_digit(value, *digit)?;
    }
    Some(value)
}

fn with_digit(value: u64, digit: u8) -> Option<u64>
    requires { is_ascii_digit digit ≡ true }
    ensures { SomeIff result
        (value * 10 + digit_value digit < 2 ^ 64)
        (value * 10 + digit_value digit) }
{
    value.checked_mul(10)?.checked_add(u64::from(digit - b'0'))
}

fn split_minus(word: &[u8]) -> (bool, &[u8])
    ensures minus { result.0 ≡ starts_with_minus word.now }
    ensures rest { result.1.now ≡ without_minus word.now }
{
    let negative = matches!(word, [b'-', ..]);
    // Signs come in no predictable order, so a branch on the sign would often be mispredicted.
    (negative, &word[usize::from(negative)..])
}

fn split_sign(word: &[u8]) -> (bool, &[u8])
    ensures minus { result.0 ≡ starts_with_minus word.now }
    ensures rest { result.1.now ≡ without_leading_sign word.now }
{
    match word {
        [b'+', rest @ ..] => (false, rest),
        _ => split_minus(word),
    }
}
