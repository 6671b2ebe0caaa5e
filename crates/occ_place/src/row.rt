//! A row of a table of steps.

ghost use Rattle.std.specs.Prelude.{◌≡◌, not, true, ◌==◌};
ghost use Rattle.std.specs.List.{list_all};
ghost use Rattle.occ_place.specs.Plain.{is_plain as is_plain_text};

use crate::spans::Span;
use std::alloc::Global;

/// A row: steps, the spaces in front of their numbers, and what is told of them, with what stands in front of that.
#[derive(Drop)]
pub struct Row {
    pub span: Span,
    pub pad: usize,
    pub(crate) tail: Vec<u8>,
    pub ghost plain: { is_plain_text tail.items ≡ true },
}

/// The row of a span. What is told of it is left out where it is more than a line.
pub(crate) fn row_of(alloc: Global, span: Span, pad: usize, tail: Vec<u8>) -> Row
    ensures { result.span ≡ span }
{
    if is_plain(&tail) {
        return Row { span, pad, tail };
    }
    Row {
        span,
        pad,
        tail: Vec::new(alloc),
    }
}

/// Whether no line ends in a text, and it is nothing or begins with a space.
fn is_plain(text: &[u8]) -> bool
    ensures { result ≡ is_plain_text text.now }
{
    match text {
        [] => true,
        [first, rest @ ..] => *first == b' ' && has_no_feed(rest),
    }
}

fn has_no_feed(text: &[u8]) -> bool
    ensures { result ≡ list_all (λ byte. not (byte == 10)) text.now }
{
    text.iter().all(|byte| *byte != b'\n')
}
