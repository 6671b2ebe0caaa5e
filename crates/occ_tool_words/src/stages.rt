ghost use Rattle.std.specs.Prelude.{◌≡◌, decimal};
ghost use Rattle.std.specs.Str.{bytes_eq};
ghost use Rattle.occ_tool_words.specs.Words.{shape_of, stages_of};

use itoa::Buffer;
use occ_gen::Shape;

/// The greatest number of stages.
const MOST: u64 = 48;

/// The kind of chain that a word names.
pub(crate) fn shape_in(word: &str) -> Option<Shape>
    ensures { result ≡ shape_of word.now }
{
    if word == "buffers" {
        Some(Shape::Buffers)
    } else if word == "adders" {
        Some(Shape::Adders)
    } else if word == "muxes" {
        Some(Shape::Muxes)
    } else {
        None
    }
}

/// The number of stages that a word says: a decimal numeral from 1 to 48, without a sign or a leading zero.
pub(crate) fn stages_in(word: &str) -> Option<u64>
    ensures { result ≡ stages_of word.now }
{
    for stages in 1..=MOST {
        if is_numeral(stages, word) {
            return Some(stages);
        }
    }
    None
}

/// Whether a word is the decimal numeral of a number.
fn is_numeral(number: u64, word: &str) -> bool
    ensures { result ≡ bytes_eq (decimal number) word.now }
{
    let mut buffer = Buffer::new();
    buffer.format(number) == word
}
