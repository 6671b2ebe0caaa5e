ghost use Rattle.std.specs.Prelude.{◌≡◌, ◌∷◌, [], ◌==◌, ◌≤◌, IfOk, position, true};
ghost use Rattle.std.specs.List.{list_all};
ghost use Rattle.occ_nform_table.specs.occ_lex.Spelling.{is_digit, is_numeral, value_of};
ghost use Rattle.occ_nform_table.specs.Words.{Finds, behind, before, between, cut, each, items_of, number_of, small_number_of, has_no_leading_zero, at_most, then_read};
ghost use Rattle.occ_nform_table.specs.Lines.{below, is_number};

use occ_syntax::{List, Memory};
use std::alloc::Global;

/// The bytes behind a front.
#[tactic(auto, unfolding(occ_nform_table::specs::Words::behind))]
pub fn behind<'a>(front: &[u8], text: &'a [u8]) -> Option<&'a [u8]>
    ensures { Finds (λ rest. rest.now) result (behind front.now text.now) }
{
    text.strip_prefix(front)
}

/// The bytes before a back.
#[tactic(auto, unfolding(occ_nform_table::specs::Words::before))]
pub fn before<'a>(back: &[u8], text: &'a [u8]) -> Option<&'a [u8]>
    ensures { Finds (λ rest. rest.now) result (before back.now text.now) }
{
    text.strip_suffix(back)
}

/// The bytes between a front and a back.
#[tactic(auto, unfolding(occ_nform_table::specs::Words::between))]
pub fn between<'a>(front: &[u8], back: &[u8], text: &'a [u8]) -> Option<&'a [u8]>
    ensures { Finds (λ rest. rest.now) result (between front.now back.now text.now) }
{
    match behind(front, text) {
        Some(rest) => before(back, rest),
        None => None,
    }
}

fn place_of(byte: u8, text: &[u8]) -> Option<usize>
    ensures { result ≡ position (λ b. b == byte) text.now }
{
    text.iter().position(|other| *other == byte)
}

/// The bytes in front of the first of a byte, and those behind it.
pub fn cut(byte: u8, text: &[u8]) -> Option<(&[u8], &[u8])>
    ensures { Finds (λ parts. (parts.0.now, parts.1.now)) result (cut byte text.now) }
{
    match place_of(byte, text) {
        Some(place) => Some((&text[..place], &text[place + 1..])),
        None => None,
    }
}

fn is_digit(byte: u8) -> bool
    ensures { result ≡ is_digit byte }
{
    matches!(byte, b'0'..=b'9')
}

/// The number below 2 ^ 32 that decimal digits write.
fn value_of(word: &[u8]) -> Option<u32>
    requires { is_numeral word.now ≡ true }
    ensures { result ≡ at_most 4294967295 (value_of word.now) }
{
    let mut value: u64 = 0;
    for byte in word {
        value = 10 * value + u64::from(*byte - b'0');
        if value > 4294967295 {
            return None;
        }
    }
    Some(value as u32)
}

fn are_digits(word: &[u8]) -> bool
    ensures { result ≡ list_all is_digit word.now }
{
    word.iter().all(|byte| is_digit(*byte))
}

#[tactic(auto, unfolding(crate::specs::is_numeral))]
fn is_numeral(word: &[u8]) -> bool
    ensures { result ≡ is_numeral word.now }
{
    !word.is_empty() && are_digits(word)
}

fn has_no_leading_zero(word: &[u8]) -> bool
    ensures { result ≡ has_no_leading_zero word.now }
{
    match word {
        [first, _, ..] => *first != b'0',
        _ => true,
    }
}

/// The number below 2 ^ 32 that a word writes in decimal without leading zeros.
#[tactic(auto, unfolding(occ_nform_table::specs::Words::number_of, occ_nform_table::specs::Words::small_number_of))]
pub fn small_number_of(word: &[u8]) -> Option<u32>
    ensures { result ≡ small_number_of word.now }
{
    if is_numeral(word) && has_no_leading_zero(word) {
        value_of(word)
    } else {
        None
    }
}

/// The number below n that a word writes.
pub fn lower(n: u64, word: &[u8]) -> Option<u32>
    requires { n ≤ 4294967295 }
    ensures { result ≡ then_read (number_of word.now) (below n) }
{
    match small_number_of(word) {
        Some(row) => { if u64::from(row) < n { Some(row) } else { None } }
        None => None,
    }
}

/// Whether a word writes the number n.
pub fn is_number(n: u64, word: &[u8]) -> bool
    requires { n ≤ 4294967295 }
    ensures { result ≡ is_number n (number_of word.now) }
{
    match small_number_of(word) {
        Some(row) => u64::from(row) == n,
        None => false,
    }
}

/// The numbers that words write, with single spaces between them, where each writes one.
pub fn numbers_of(alloc: Global, text: &[u8]) -> Result<Option<List<u32>>, Memory>
    ensures { IfOk result (λ numbers. numbers ≡ each small_number_of (items_of text.now)) }
{
    let mut numbers = List::new(alloc);
    if text.is_empty() {
        return Ok(Some(numbers));
    }
    let mut rest = text;
    while let Some((word, others)) = cut(b' ', rest) {
        let Some(number) = small_number_of(word) else {
            return Ok(None);
        };
        numbers.push(number)?;
        rest = others;
    }
    let Some(number) = small_number_of(rest) else {
        return Ok(None);
    };
    numbers.push(number)?;
    Ok(Some(numbers))
}
