ghost use Rattle.std.specs.Prelude.{◌≡◌, slice_get};
ghost use Rattle.occ_derive_search.specs.Digits.{told};

use occ_derive_moves::Direction;
use occ_syntax::Op;

/// What a digit tells the machine to do. The machine has a number that grows from 0 and one that is kept, and it puts expressions, waits
/// and parts on three piles. What takes the number or the kept one lets both begin with 0 again.
#[derive(Clone, Copy)]
pub enum Instruction {
    /// The number grows by one.
    More,
    /// The number is kept, and the next one begins.
    Keep,
    /// The variable of that number.
    Variable,
    /// The numeral of the number, with the kept number of bits.
    Word,
    /// TRUE or FALSE.
    Truth(bool),
    /// NOT of the last expression.
    Not,
    /// `~` of the last expression.
    Flip,
    /// An operator between the last two expressions.
    Two(Op),
    /// A wait for nothing.
    Ready,
    /// A wait for an input from the kept channel into the variable of the number.
    Get,
    /// A wait for an output of the last expression to the channel of the number.
    Put,
    /// SKIP.
    Skip,
    /// STOP.
    Stop,
    /// An assignment without a pair.
    Assign,
    /// The last part, an assignment, has one more pair: the variable of the number, and the last expression.
    AndPair,
    /// An input from the kept channel into the variable of the number.
    Input,
    /// An output of the last expression to the channel of the number.
    Output,
    /// SEQ without a part.
    Seq,
    /// PAR without a part.
    Par,
    /// The last part is one more of the SEQ or PAR in front of it.
    AndPart,
    /// IF without a choice.
    If,
    /// The last expression and the last part are one more choice of the IF in front of it.
    AndChoice,
    /// ALT without an alternative.
    Alt,
    /// The last expression, wait and part are one more alternative of the ALT in front of it.
    AndBranch,
    /// The last part inside a variable of that number. The kept number is its width, and 0 that of a truth value.
    Var,
    /// The last part inside a channel of that number. The kept number is its width, and 0 that of a truth value.
    Chan,
    /// The path of the next step goes on by the number.
    Enter,
    /// A step: the law of the number, that way, on the path; it makes the part there the last part.
    Step(Direction),
}

/// How many digits there are: 0 and those below this number.
pub const DIGITS: u8 = 42;

/// What each digit tells, in their order.
pub const INSTRUCTIONS: [Instruction; 42] = [
    Instruction::More,
    Instruction::Keep,
    Instruction::Variable,
    Instruction::Word,
    Instruction::Truth(false),
    Instruction::Truth(true),
    Instruction::Not,
    Instruction::Flip,
    Instruction::Two(Op::Plus),
    Instruction::Two(Op::Minus),
    Instruction::Two(Op::And),
    Instruction::Two(Op::Or),
    Instruction::Two(Op::BitAnd),
    Instruction::Two(Op::BitOr),
    Instruction::Two(Op::BitXor),
    Instruction::Two(Op::Equal),
    Instruction::Two(Op::Differ),
    Instruction::Two(Op::Less),
    Instruction::Two(Op::Greater),
    Instruction::Two(Op::AtMost),
    Instruction::Two(Op::AtLeast),
    Instruction::Ready,
    Instruction::Get,
    Instruction::Put,
    Instruction::Skip,
    Instruction::Stop,
    Instruction::Assign,
    Instruction::AndPair,
    Instruction::Input,
    Instruction::Output,
    Instruction::Seq,
    Instruction::Par,
    Instruction::AndPart,
    Instruction::If,
    Instruction::AndChoice,
    Instruction::Alt,
    Instruction::AndBranch,
    Instruction::Var,
    Instruction::Chan,
    Instruction::Enter,
    Instruction::Step(Direction::Forward),
    Instruction::Step(Direction::Backward),
];

/// What a digit tells; None where it is none.
pub(crate) fn instruction_of(digit: u8) -> Option<Instruction>
    ensures { result ≡ told digit }
{
    instruction_at(&INSTRUCTIONS, usize::from(digit))
}

fn instruction_at(instructions: &[Instruction], place: usize) -> Option<Instruction>
    ensures { result ≡ slice_get instructions.now place }
{
    instructions.get(place).copied()
}
