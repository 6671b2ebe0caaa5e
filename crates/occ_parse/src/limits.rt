//! The limits on a text and its lines.

ghost use Rattle.std.specs.Prelude.{◌≡◌, ◌≤◌};
ghost use Rattle.occ_parse.specs.Limits.{counted, counts_nothing, frame_of as frame_in, is_limited as is_limited_by, is_too_long as is_longer, line_limit as limit_of, opens as opens_index, weight as weight_of};

use crate::{Bound, Which};
use occ_parse_layout::Frame;
use occ_parse_rules::{Row, Sign, Symbol};

const MOST_BYTES: usize = 65_536;

const MOST_LEVELS: u32 = 64;

const MOST_TOKENS: usize = 4_096;

/// Whether a text has more bytes than are allowed.
pub fn is_too_long(bound: Bound, text: &[u8]) -> bool
    ensures { result ≡ is_longer bound text.now }
{
    match bound {
        Bound::Program => text.len() > MOST_BYTES,
        Bound::First => false,
        Bound::Script => false,
    }
}

/// What the lines of a text are to be together.
pub fn frame_of(bound: Bound) -> Frame
    ensures { result ≡ frame_in bound }
{
    match bound {
        Bound::Program => Frame::Program,
        Bound::First => Frame::Program,
        Bound::Script => Frame::Plain,
    }
}

/// Whether the limits on levels and on programs bind a text.
pub fn is_limited(bound: Bound) -> bool
    ensures { result ≡ is_limited_by bound }
{
    match bound {
        Bound::Program => true,
        Bound::First => true,
        Bound::Script => false,
    }
}

fn counts_nothing(sign: Sign) -> bool
    ensures { result ≡ counts_nothing sign }
{
    matches!(sign, Sign::OpenIndex | Sign::CloseIndex)
}

/// What one symbol counts.
fn weight(opened: bool, symbol: Symbol) -> usize
    ensures weight { result ≡ weight_of opened symbol }
    ensures one { result ≤ 1 }
{
    match symbol {
        Symbol::Sign(sign) => usize::from(!counts_nothing(sign)),
        Symbol::Numeral(_) => usize::from(!opened),
        Symbol::Name(_) => 1,
        Symbol::Keyword(_) => 1,
    }
}

/// Whether a symbol opens an index.
fn opens(symbol: Symbol) -> bool
    ensures { result ≡ opens_index symbol }
{
    match symbol {
        Symbol::Sign(sign) => matches!(sign, Sign::OpenIndex),
        Symbol::Numeral(_) => false,
        Symbol::Name(_) => false,
        Symbol::Keyword(_) => false,
    }
}

/// How many tokens a line has, without the brackets of indices and the numerals directly behind the first of them.
fn count_of(symbols: &[Symbol]) -> usize
    ensures { result ≡ counted symbols.now }
{
    let mut count = 0;
    let mut opened = false;
    for symbol in symbols {
        count += weight(opened, *symbol);
        opened = opens(*symbol);
    }
    count
}

/// The limit that a line is over, levels before tokens; None where it is over none.
pub fn line_limit(bound: Bound, row: &Row) -> Option<Which>
    ensures { result ≡ limit_of bound row.now }
{
    if is_limited(bound) && row.level > MOST_LEVELS {
        return Some(Which::Levels);
    }
    if count_of(row.symbols.items()) > MOST_TOKENS {
        return Some(Which::Tokens);
    }
    None
}
