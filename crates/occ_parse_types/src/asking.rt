ghost use Rattle.std.specs.Prelude.{◌≡◌};
ghost use Rattle.occ_syntax.specs.Scopes.{same_dir};
ghost use Rattle.occ_parse_rules.specs.Types.{channel_sort, class, fits, greatest, is_against, is_truth_value, sort_clashes, variable_sort, width_of_sort};
ghost use Rattle.occ_parse_types.specs.Asking.{class_of, holds_of, refuses_width};

use occ_parse_forms::Item;
use occ_parse_rules::Sort;
use occ_syntax::{Dir, Op, Width, same_width};

/// Who asks for a width: something that has one, whatever values the indices take, or an item with the width that it
/// has at their values.
#[derive(Clone, Copy, Debug, PartialEq, Eq)]
pub enum Asker {
    /// Something of that width.
    Fixed(Width),
    /// An item.
    Like(Item),
}

/// What is asked for a width, where it is no item.
#[derive(Clone, Copy, Debug, PartialEq, Eq)]
pub enum Asked {
    /// A bare numeral.
    Numeral(u8),
    /// A numeral with a width.
    Typed(u8, Width),
    /// Something whose value is a truth value.
    Truth,
    /// Something whose value is a word.
    Word,
}

/// A test of what an item stands for.
#[derive(Clone, Copy, Debug, PartialEq, Eq)]
pub enum Test {
    /// It stands for no variable.
    NotVariable,
    /// It stands for no channel.
    NotChannel,
    /// It is a channel parameter that has the other mark.
    Against(Dir),
    /// It can't stand for a value of that width.
    Clashes(Width),
    /// It has another width.
    Differs(Width),
    /// It has a width that isn't that of what it asks.
    Refused(Asked),
}

/// A place on a line where something is written to or read from, or communicated on.
#[derive(Clone, Copy, Debug, PartialEq, Eq)]
pub enum Place {
    /// Only a variable may stand there.
    Variable,
    /// Only a channel may stand there.
    Channel,
}

/// What an operator does with the widths of its operands.
#[derive(Clone, Copy, Debug, PartialEq, Eq)]
pub enum Classed {
    /// It gives a word of its operands' width.
    Words,
    /// It joins truth values.
    TruthValues,
    /// It compares two operands of one width.
    Comparing,
    /// It compares two words of one width by their order.
    Ordering,
}

/// What an operator does with the widths of its operands. It takes no memory.
pub fn class(op: Op) -> Classed
    ensures { class_of result ≡ class op }
{
    match op {
        Op::Plus | Op::Minus | Op::BitAnd | Op::BitOr | Op::BitXor => Classed::Words,
        Op::And | Op::Or => Classed::TruthValues,
        Op::Equal | Op::Differ => Classed::Comparing,
        Op::Less | Op::Greater | Op::AtMost | Op::AtLeast => Classed::Ordering,
    }
}

fn same_dir(left: Dir, right: Dir) -> bool
    ensures { result ≡ same_dir left right }
{
    match left {
        Dir::Input => match right {
            Dir::Input => true,
            Dir::Output => false,
        },
        Dir::Output => match right {
            Dir::Input => false,
            Dir::Output => true,
        },
    }
}

fn is_truth_value(width: Width) -> bool
    ensures { result ≡ is_truth_value width }
{
    match width {
        Width::Bool => true,
        Width::Word(_) => false,
    }
}

/// Whether a numeral has a value of the width.
fn fits(width: Width, value: u16) -> bool
    ensures { result ≡ fits width value }
{
    match width {
        Width::Bool => false,
        Width::Word(bits) => bits >= 16 || u32::from(value) < 1u32 << bits,
    }
}

/// The greatest value that an index takes, or its base where it takes none.
fn greatest(base: u8, count: u8) -> u16
    ensures { result ≡ greatest base count }
{
    u16::from(base) + u16::from(count.saturating_sub(1))
}

/// The width of what an item stands for.
pub fn width_of_sort(sort: Option<Sort>) -> Option<Width>
    ensures { result ≡ width_of_sort sort }
{
    match sort {
        Some(Sort::Variable(width)) => Some(width),
        Some(Sort::Channel(width, _)) => Some(width),
        Some(Sort::Counter { .. }) => None,
        None => None,
    }
}

/// Whether an item can't stand for a value of the width.
pub fn sort_clashes(width: Width, sort: Option<Sort>) -> bool
    ensures { result ≡ sort_clashes width sort }
{
    match sort {
        Some(Sort::Variable(other)) => !same_width(width, other),
        Some(Sort::Channel(_, _)) => true,
        Some(Sort::Counter { base, count }) => !fits(width, greatest(base, count)),
        None => true,
    }
}

fn is_against(dir: Dir, sort: Option<Sort>) -> bool
    ensures { result ≡ is_against dir sort }
{
    match sort {
        Some(Sort::Channel(_, Some(mark))) => !same_dir(mark, dir),
        Some(Sort::Channel(_, None)) => false,
        Some(Sort::Variable(_)) => false,
        Some(Sort::Counter { .. }) => false,
        None => false,
    }
}

/// Whether what is asked for a width hasn't got it.
pub fn refuses_width(asked: Asked, width: Width) -> bool
    ensures { result ≡ refuses_width asked width }
{
    match asked {
        Asked::Numeral(value) => !fits(width, u16::from(value)),
        Asked::Typed(value, other) => !same_width(width, other) || !fits(other, u16::from(value)),
        Asked::Truth => !is_truth_value(width),
        Asked::Word => is_truth_value(width),
    }
}

/// Whether a test holds of what an item stands for.
pub fn holds_of(test: Test, sort: Option<Sort>) -> bool
    ensures { result ≡ holds_of test sort }
{
    match test {
        Test::NotVariable => !matches!(sort, Some(Sort::Variable(_))),
        Test::NotChannel => !matches!(sort, Some(Sort::Channel(_, _))),
        Test::Against(dir) => is_against(dir, sort),
        Test::Clashes(width) => sort_clashes(width, sort),
        Test::Differs(width) => match width_of_sort(sort) {
            Some(other) => !same_width(width, other),
            None => false,
        },
        Test::Refused(asked) => match width_of_sort(sort) {
            Some(width) => refuses_width(asked, width),
            None => false,
        },
    }
}
