//! The machine follows instructions. One that can't be followed may do anything.

ghost use Rattle.std.specs.Prelude.{◌≡◌, IfOk, Some, ◌<◌};
ghost use Rattle.occ_derive_search.specs.Codes.{follows, runs};
ghost use Rattle.occ_derive_search.specs.declared.instruction.Instruction.TheVariants as instruction;
ghost use Rattle.occ_derive_search.specs.Piles.{Held, Obeys, width_of};
ghost use Rattle.occ_derive_search.specs.Seen.{held};

use crate::Instruction;
use crate::instruction::instruction_of;
use crate::longer::{
    alt_none, if_none, par_none, seq_none, with_alternative, with_choice, with_pair, with_part,
};
use crate::machine::Machine;
use occ_derive_moves::Direction;
use occ_engine::LawId;
use occ_syntax::{Expr, Exprs, Guard, Memory, Name, NameList, Op, Proc, Wait, Width};

/// The width of that number of bits; 0 stands for that of a truth value.
fn width(bits: usize) -> Option<Width>
    ensures { bits < 256 → result ≡ Some (width_of bits) }
{
    match u8::try_from(bits) {
        Ok(0) => Some(Width::Bool),
        Ok(bits) => Some(Width::Word(bits)),
        Err(_) => None,
    }
}

impl Machine {
    fn variable(&mut self) -> Result<(), Memory>
        ensures { IfOk result (λ done. Obeys instruction.Variable (held self.old) (held self.new)) }
    {
        let (_, number) = self.take_numbers();
        self.push_expr(Expr::Var(Name(number)))
    }

    fn word(&mut self) -> Result<(), Memory>
        ensures { IfOk result (λ done. Obeys instruction.Word (held self.old) (held self.new)) }
    {
        let (bits, value) = self.take_numbers();
        let (Ok(bits), Ok(value)) = (u8::try_from(bits), u8::try_from(value)) else {
            return Ok(());
        };
        self.push_expr(Expr::Word { bits, value })
    }

    fn not(&mut self) -> Result<(), Memory>
        ensures { IfOk result (λ done. Obeys instruction.Not (held self.old) (held self.new)) }
    {
        let Some(operand) = self.pop_expr() else {
            return Ok(());
        };
        let operand = Box::new(self.alloc, operand)?;
        self.push_expr(Expr::Not(operand))
    }

    fn flip(&mut self) -> Result<(), Memory>
        ensures { IfOk result (λ done. Obeys instruction.Flip (held self.old) (held self.new)) }
    {
        let Some(operand) = self.pop_expr() else {
            return Ok(());
        };
        let operand = Box::new(self.alloc, operand)?;
        self.push_expr(Expr::Flip(operand))
    }

    fn two(&mut self, op: Op) -> Result<(), Memory>
        ensures { IfOk result (λ done. Obeys (instruction.Two op) (held self.old) (held self.new)) }
    {
        let Some(right) = self.pop_expr() else {
            return Ok(());
        };
        let Some(left) = self.pop_expr() else {
            return Ok(());
        };
        let left = Box::new(self.alloc, left)?;
        let right = Box::new(self.alloc, right)?;
        self.push_expr(Expr::Two(op, left, right))
    }

    fn get(&mut self) -> Result<(), Memory>
        ensures { IfOk result (λ done. Obeys instruction.Get (held self.old) (held self.new)) }
    {
        let (chan, var) = self.take_numbers();
        self.push_wait(Wait::Get {
            chan: Name(chan),
            var: Name(var),
        })
    }

    fn put(&mut self) -> Result<(), Memory>
        ensures { IfOk result (λ done. Obeys instruction.Put (held self.old) (held self.new)) }
    {
        let Some(value) = self.pop_expr() else {
            return Ok(());
        };
        let (_, chan) = self.take_numbers();
        self.push_wait(Wait::Put {
            chan: Name(chan),
            value,
        })
    }

    #[tactic(auto, unfolding(crate::specs::tree))]
    fn assign(&mut self) -> Result<(), Memory>
        ensures { IfOk result (λ done. Obeys instruction.Assign (held self.old) (held self.new)) }
    {
        self.push_part(Proc::Assign {
            vars: NameList::new(self.alloc),
            values: Exprs::new(self.alloc),
        })
    }

    fn and_pair(&mut self) -> Result<(), Memory>
        ensures { IfOk result (λ done. Obeys instruction.AndPair (held self.old) (held self.new)) }
    {
        let Some(value) = self.pop_expr() else {
            return Ok(());
        };
        let Some(whole) = self.pop_part() else {
            return Ok(());
        };
        let (_, var) = self.take_numbers();
        let longer = with_pair(self.alloc, whole, Name(var), value)?;
        self.push_part(longer)
    }

    #[tactic(auto, unfolding(crate::specs::tree))]
    fn input(&mut self) -> Result<(), Memory>
        ensures { IfOk result (λ done. Obeys instruction.Input (held self.old) (held self.new)) }
    {
        let (chan, var) = self.take_numbers();
        self.push_part(Proc::Input {
            chan: Name(chan),
            var: Name(var),
        })
    }

    #[tactic(auto, unfolding(crate::specs::tree))]
    fn output(&mut self) -> Result<(), Memory>
        ensures { IfOk result (λ done. Obeys instruction.Output (held self.old) (held self.new)) }
    {
        let Some(value) = self.pop_expr() else {
            return Ok(());
        };
        let (_, chan) = self.take_numbers();
        self.push_part(Proc::Output {
            chan: Name(chan),
            value,
        })
    }

    fn seq(&mut self) -> Result<(), Memory>
        ensures { IfOk result (λ done. Obeys instruction.Seq (held self.old) (held self.new)) }
    {
        let part = seq_none(self.alloc);
        self.push_part(part)
    }

    fn par(&mut self) -> Result<(), Memory>
        ensures { IfOk result (λ done. Obeys instruction.Par (held self.old) (held self.new)) }
    {
        let part = par_none(self.alloc);
        self.push_part(part)
    }

    fn and_part(&mut self) -> Result<(), Memory>
        ensures { IfOk result (λ done. Obeys instruction.AndPart (held self.old) (held self.new)) }
    {
        let Some(part) = self.pop_part() else {
            return Ok(());
        };
        let Some(whole) = self.pop_part() else {
            return Ok(());
        };
        let longer = with_part(self.alloc, whole, part)?;
        self.push_part(longer)
    }

    fn choose(&mut self) -> Result<(), Memory>
        ensures { IfOk result (λ done. Obeys instruction.If (held self.old) (held self.new)) }
    {
        let part = if_none(self.alloc);
        self.push_part(part)
    }

    fn and_choice(&mut self) -> Result<(), Memory>
        ensures { IfOk result (λ done. Obeys instruction.AndChoice (held self.old) (held self.new)) }
    {
        let Some(condition) = self.pop_expr() else {
            return Ok(());
        };
        let Some(part) = self.pop_part() else {
            return Ok(());
        };
        let Some(whole) = self.pop_part() else {
            return Ok(());
        };
        let longer = with_choice(self.alloc, whole, condition, part)?;
        self.push_part(longer)
    }

    fn alt(&mut self) -> Result<(), Memory>
        ensures { IfOk result (λ done. Obeys instruction.Alt (held self.old) (held self.new)) }
    {
        let part = alt_none(self.alloc);
        self.push_part(part)
    }

    fn and_branch(&mut self) -> Result<(), Memory>
        ensures { IfOk result (λ done. Obeys instruction.AndBranch (held self.old) (held self.new)) }
    {
        let Some(condition) = self.pop_expr() else {
            return Ok(());
        };
        let Some(wait) = self.pop_wait() else {
            return Ok(());
        };
        let Some(part) = self.pop_part() else {
            return Ok(());
        };
        let Some(whole) = self.pop_part() else {
            return Ok(());
        };
        let longer = with_alternative(self.alloc, whole, Guard { condition, wait }, part)?;
        self.push_part(longer)
    }

    #[tactic(auto, unfolding(crate::specs::tree))]
    fn var(&mut self) -> Result<(), Memory>
        ensures { IfOk result (λ done. Obeys instruction.Var (held self.old) (held self.new)) }
    {
        let Some(body) = self.pop_part() else {
            return Ok(());
        };
        let (bits, number) = self.take_numbers();
        let Some(width) = width(bits) else {
            return Ok(());
        };
        let body = Box::new(self.alloc, body)?;
        self.push_part(Proc::Var {
            name: Name(number),
            width,
            body,
        })
    }

    #[tactic(auto, unfolding(crate::specs::tree))]
    fn chan(&mut self) -> Result<(), Memory>
        ensures { IfOk result (λ done. Obeys instruction.Chan (held self.old) (held self.new)) }
    {
        let Some(body) = self.pop_part() else {
            return Ok(());
        };
        let (bits, number) = self.take_numbers();
        let Some(width) = width(bits) else {
            return Ok(());
        };
        let body = Box::new(self.alloc, body)?;
        self.push_part(Proc::Chan {
            name: Name(number),
            width,
            body,
        })
    }

    fn step(&mut self, dir: Direction) -> Result<(), Memory>
        ensures { IfOk result (λ done. Obeys (instruction.Step dir) (held self.old) (held self.new)) }
    {
        let Some(part) = self.pop_part() else {
            return Ok(());
        };
        let (_, number) = self.take_numbers();
        let Ok(law) = u8::try_from(number) else {
            return Ok(());
        };
        self.push_step(LawId(law), dir, part)
    }

    fn keeps(&mut self) -> Result<(), Memory>
        ensures { IfOk result (λ done. Obeys instruction.Keep (held self.old) (held self.new)) }
    {
        self.keep();
        Ok(())
    }

    /// Follows an instruction.
    #[tactic(auto, unfolding(crate::specs::tree))]
    fn follow(&mut self, instruction: Instruction) -> Result<(), Memory>
        ensures { IfOk result (λ done. Obeys instruction (held self.old) (held self.new)) }
    {
        match instruction {
            Instruction::More => self.grow(),
            Instruction::Keep => self.keeps(),
            Instruction::Variable => self.variable(),
            Instruction::Word => self.word(),
            Instruction::Truth(truth) => self.push_expr(Expr::Bool(truth)),
            Instruction::Not => self.not(),
            Instruction::Flip => self.flip(),
            Instruction::Two(op) => self.two(op),
            Instruction::Ready => self.push_wait(Wait::Skip),
            Instruction::Get => self.get(),
            Instruction::Put => self.put(),
            Instruction::Skip => self.push_part(Proc::Skip),
            Instruction::Stop => self.push_part(Proc::Stop),
            Instruction::Assign => self.assign(),
            Instruction::AndPair => self.and_pair(),
            Instruction::Input => self.input(),
            Instruction::Output => self.output(),
            Instruction::Seq => self.seq(),
            Instruction::Par => self.par(),
            Instruction::AndPart => self.and_part(),
            Instruction::If => self.choose(),
            Instruction::AndChoice => self.and_choice(),
            Instruction::Alt => self.alt(),
            Instruction::AndBranch => self.and_branch(),
            Instruction::Var => self.var(),
            Instruction::Chan => self.chan(),
            Instruction::Enter => self.enter(),
            Instruction::Step(dir) => self.step(dir),
        }
    }

    /// Follows a digit. What isn't one does nothing.
    fn obey(&mut self, digit: u8) -> Result<(), Memory>
        ensures { (next : Held) → follows digit (held self.old) ≡ Some next → IfOk result (λ done. held self.new ≡ next) }
    {
        match instruction_of(digit) {
            Some(instruction) => self.follow(instruction),
            None => Ok(()),
        }
    }

    /// Follows a row of digits, one after the other.
    pub(crate) fn run(&mut self, code: &[u8]) -> Result<(), Memory>
        ensures { (next : Held) → runs code.now (held self.old) ≡ Some next → IfOk result (λ done. held self.new ≡ next) }
    {
        for digit in code {
            self.obey(*digit)?;
        }
        Ok(())
    }
}
