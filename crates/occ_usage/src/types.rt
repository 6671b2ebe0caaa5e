ghost use Rattle.std.specs.Prelude.{◌≡◌, ◌&&◌, ◌^◌, None, Some, is_none, nat_lt, IfOk, if◌then◌else◌};
ghost use Rattle.occ_syntax.specs.occ_base.declared.width.Width.TheVariants.{Word};
ghost use Rattle.occ_syntax.specs.Scopes.{environment};
ghost use Rattle.occ_syntax.specs.Types.{type_of as type_in, type_given as given_by, type_of_two as of_two, if_truth_value as only_truth_value, if_word as only_word, is_width as is_a_width, agree as agreeing, is_condition as is_condition_in, input_kept as input_kept_in, output_kept as output_kept_in, waiting_kept as waiting_kept_in, pairs_kept as pairs_kept_in, is_pair, can_declare as can_declare_in, width_of_kind};
ghost use Rattle.occ_syntax.specs.View.{exp, exps, numbers, waiting};
ghost use Rattle.occ_names.specs.Once.{is_distinct, same_number};
ghost use Rattle.occ_usage.specs.Typed.{agreeing_pairs};

use crate::kinds::Kinds;
use occ_names::NameSet;
use occ_syntax::{Dir, Expr, Kind, Memory, Name, Op, Wait, Width, same_width};
use std::alloc::Global;

/// Whether a word has 1 to 8 bits.
pub fn is_width(width: Width) -> bool
    ensures { result ≡ is_a_width width }
{
    match width {
        Width::Bool => true,
        Width::Word(bits) => 1 <= bits && bits <= 8,
    }
}

pub fn width_of(kind: Kind) -> Width
    ensures { result ≡ width_of_kind kind }
{
    match kind {
        Kind::Var(width) | Kind::Chan(width, _) => width,
    }
}

fn agree(left: Option<Width>, right: Option<Width>) -> bool
    ensures { result ≡ agreeing left right }
{
    match left {
        None => false,
        Some(width) => match right {
            None => false,
            Some(other) => same_width(width, other),
        },
    }
}

// The type of a numeral, whose value must fit its bits.
fn type_of_numeral(bits: u8, value: u8) -> Option<Width>
    ensures { result ≡ (if is_a_width (Word bits) && nat_lt value (2 ^ bits) then Some (Word bits) else None) }
{
    if !is_width(Width::Word(bits)) {
        return None;
    }
    if u16::from(value) < 1 << bits {
        Some(Width::Word(bits))
    } else {
        None
    }
}

fn if_truth_value(given: Option<Width>) -> Option<Width>
    ensures { result ≡ only_truth_value given }
{
    match given {
        Some(Width::Bool) => Some(Width::Bool),
        _ => None,
    }
}

fn if_word(given: Option<Width>) -> Option<Width>
    ensures { result ≡ only_word given }
{
    match given {
        Some(Width::Word(bits)) => Some(Width::Word(bits)),
        _ => None,
    }
}

// The type that an operator gives to two operands of one type.
fn type_given(op: Op, width: Width) -> Option<Width>
    ensures { result ≡ given_by op width }
{
    match op {
        Op::Plus | Op::Minus | Op::BitAnd | Op::BitOr | Op::BitXor => if_word(Some(width)),
        Op::And | Op::Or => if_truth_value(Some(width)),
        Op::Equal | Op::Differ => Some(Width::Bool),
        Op::Less | Op::Greater | Op::AtMost | Op::AtLeast => match width {
            Width::Bool => None,
            Width::Word(_) => Some(Width::Bool),
        },
    }
}

fn type_of_two(op: Op, left: Option<Width>, right: Option<Width>) -> Option<Width>
    ensures { result ≡ of_two op left right }
{
    match left {
        None => None,
        Some(width) => {
            if agree(Some(width), right) {
                type_given(op, width)
            } else {
                None
            }
        }
    }
}

fn is_one(vars: &[Name]) -> bool
    ensures { result ≡ is_pair (numbers vars.now) }
{
    match vars {
        [] => false,
        [_, ..] => true,
    }
}

/// Whether no name stands twice.
pub fn distinct(alloc: Global, names: &[Name]) -> Result<bool, Memory>
    ensures { IfOk result (λ test. test ≡ is_distinct same_number (numbers names.now)) }
{
    let mut seen = NameSet::new(alloc);
    for name in names {
        if seen.contains(*name) {
            return Ok(false);
        }
        seen.insert(*name)?;
    }
    Ok(true)
}

impl Kinds {
    /// The type of an expression; None where it has none.
    pub fn type_of(&self, expr: &Expr) -> Option<Width>
        ensures { result ≡ type_in (environment self.now) (exp expr.now) }
    {
        match expr {
            Expr::Var(name) => self.variable_width(*name),
            Expr::Word { bits, value } => type_of_numeral(*bits, *value),
            Expr::Bool(_) => Some(Width::Bool),
            Expr::Not(operand) => if_truth_value(self.type_of(operand)),
            Expr::Flip(operand) => if_word(self.type_of(operand)),
            Expr::Two(op, left, right) => {
                type_of_two(*op, self.type_of(left), self.type_of(right))
            }
        }
    }

    pub fn is_condition(&self, expr: &Expr) -> bool
        ensures { result ≡ is_condition_in (environment self.now) (exp expr.now) }
    {
        agree(self.type_of(expr), Some(Width::Bool))
    }

    /// Whether a name that isn't in scope may be declared with that width.
    pub fn can_declare(&self, name: Name, width: Width) -> bool
        ensures { result ≡ can_declare_in (environment self.now) name.0 width }
    {
        match self.kind(name) {
            Some(_) => false,
            None => is_width(width),
        }
    }

    pub fn input_kept(&self, chan: Name, var: Name) -> bool
        ensures { result ≡ input_kept_in (environment self.now) chan.0 var.0 }
    {
        self.allows(chan, Dir::Input) && agree(self.channel_width(chan), self.variable_width(var))
    }

    pub fn output_kept(&self, chan: Name, value: &Expr) -> bool
        ensures { result ≡ output_kept_in (environment self.now) chan.0 (exp value.now) }
    {
        self.allows(chan, Dir::Output) && agree(self.channel_width(chan), self.type_of(value))
    }

    pub fn waiting_kept(&self, wait: &Wait) -> bool
        ensures { result ≡ waiting_kept_in (environment self.now) (waiting wait.now) }
    {
        match wait {
            Wait::Skip => true,
            Wait::Get { chan, var } => self.input_kept(*chan, *var),
            Wait::Put { chan, value } => self.output_kept(*chan, value),
        }
    }

    // Whether there are as many values as variables, each of its variable's type.
    fn pairs_agree(&self, vars: &[Name], values: &[Expr]) -> bool
        ensures { result ≡ agreeing_pairs (environment self.now) (numbers vars.now) (exps values.now) }
    {
        if vars.len() != values.len() {
            return false;
        }
        for place in 0..vars.len() {
            if !agree(
                self.variable_width(vars[place]),
                self.type_of(&values[place]),
            ) {
                return false;
            }
        }
        true
    }

    /// Whether an assignment has a variable, and each once, with a value of its type.
    pub fn assignment_kept(
        &self,
        alloc: Global,
        vars: &[Name],
        values: &[Expr],
    ) -> Result<bool, Memory>
        ensures { IfOk result (λ kept. kept ≡ (is_pair (numbers vars.now) && pairs_kept_in (environment self.now) (numbers vars.now) (exps values.now))) }
    {
        if !is_one(vars) {
            return Ok(false);
        }
        if !self.pairs_agree(vars, values) {
            return Ok(false);
        }
        distinct(alloc, vars)
    }
}
