ghost use Rattle.std.specs.Prelude.{◌≡◌, IfOk, false};
ghost use Rattle.occ_syntax.specs.Declarations.{is_declaration};
ghost use Rattle.occ_syntax.specs.View.{numbers, exp, exps, waiting, tree, trees, cases, branches, in_procs, in_choices, in_alternatives};
ghost use Rattle.occ_meaning.specs.Rename.{replacing, renamed, renamed_exp, renamed_names, renamed_exps, renamed_waiting, all_renamed, cases_renamed, branches_renamed};

use occ_syntax::{
    Alternatives, Choices, Expr, Exprs, Guard, Memory, Name, NameList, Proc, Procs, Scope, Wait,
};
use std::alloc::Global;

/// A new name in the place of an old one, wherever it stands, in declarations too.
#[derive(Clone, Copy)]
pub struct Replace {
    pub old: Name,
    pub new: Name,
}

impl Replace {
    fn name(self, name: Name) -> Name
        ensures { result.0 ≡ replacing self.old.0 self.new.0 name.0 }
    {
        if name == self.old { self.new } else { name }
    }

    fn names(self, alloc: Global, names: &[Name]) -> Result<NameList, Memory>
        ensures { IfOk result (λ made. numbers made ≡ renamed_names (replacing self.old.0 self.new.0) (numbers names.now)) }
    {
        let mut made = NameList::new(alloc);
        for name in names {
            made.push(self.name(*name))?;
        }
        Ok(made)
    }

    fn expr(self, alloc: Global, expr: &Expr) -> Result<Expr, Memory>
        ensures { IfOk result (λ made. exp made ≡ renamed_exp (replacing self.old.0 self.new.0) (exp expr.now)) }
    {
        match expr {
            Expr::Var(name) => Ok(Expr::Var(self.name(*name))),
            Expr::Word { bits, value } => Ok(Expr::Word {
                bits: *bits,
                value: *value,
            }),
            Expr::Bool(truth) => Ok(Expr::Bool(*truth)),
            Expr::Not(operand) => Ok(Expr::Not(Box::new(alloc, self.expr(alloc, operand)?)?)),
            Expr::Flip(operand) => Ok(Expr::Flip(Box::new(alloc, self.expr(alloc, operand)?)?)),
            Expr::Two(op, left, right) => {
                let left = Box::new(alloc, self.expr(alloc, left)?)?;
                let right = Box::new(alloc, self.expr(alloc, right)?)?;
                Ok(Expr::Two(*op, left, right))
            }
        }
    }

    fn exprs(self, alloc: Global, exprs: &[Expr]) -> Result<Exprs, Memory>
        ensures { IfOk result (λ made. exps made ≡ renamed_exps (replacing self.old.0 self.new.0) (exps exprs.now)) }
    {
        let mut made = Exprs::new(alloc);
        for expr in exprs {
            made.push(self.expr(alloc, expr)?)?;
        }
        Ok(made)
    }

    fn wait(self, alloc: Global, wait: &Wait) -> Result<Wait, Memory>
        ensures { IfOk result (λ made. waiting made ≡ renamed_waiting (replacing self.old.0 self.new.0) (waiting wait.now)) }
    {
        match wait {
            Wait::Skip => Ok(Wait::Skip),
            Wait::Get { chan, var } => Ok(Wait::Get {
                chan: self.name(*chan),
                var: self.name(*var),
            }),
            Wait::Put { chan, value } => Ok(Wait::Put {
                chan: self.name(*chan),
                value: self.expr(alloc, value)?,
            }),
        }
    }

    fn guard(self, alloc: Global, guard: &Guard) -> Result<Guard, Memory>
        ensures condition { IfOk result (λ made. exp made.condition ≡ renamed_exp (replacing self.old.0 self.new.0) (exp guard.now.condition)) }
        ensures wait { IfOk result (λ made. waiting made.wait ≡ renamed_waiting (replacing self.old.0 self.new.0) (waiting guard.now.wait)) }
    {
        Ok(Guard {
            condition: self.expr(alloc, &guard.condition)?,
            wait: self.wait(alloc, &guard.wait)?,
        })
    }

    /// The part with the new name wherever the old one stands.
    #[cycle(replace)]
    pub fn part(self, alloc: Global, part: &Proc) -> Result<Proc, Memory>
        ensures { IfOk result (λ made. tree made ≡ renamed (tree part.now) (replacing self.old.0 self.new.0)) }
    {
        let mut declarations = Scope::new(alloc);
        let mut rest = part;
        while let Some((name, kind, body)) = rest.declared() {
            declarations.push((self.name(name), kind))?;
            rest = body;
        }
        let made = self.undeclared(alloc, rest)?;
        made.within(alloc, declarations.items())
    }

    #[tactic(auto, unfolding(crate::specs::tree))]
    #[cycle(replace)]
    fn undeclared(self, alloc: Global, part: &Proc) -> Result<Proc, Memory>
        requires { is_declaration (tree part.now) ≡ false }
        ensures { IfOk result (λ made. tree made ≡ renamed (tree part.now) (replacing self.old.0 self.new.0)) }
    {
        match part {
            Proc::Skip => Ok(Proc::Skip),
            Proc::Stop => Ok(Proc::Stop),
            Proc::Assign { vars, values } => Ok(Proc::Assign {
                vars: self.names(alloc, vars.items())?,
                values: self.exprs(alloc, values.items())?,
            }),
            Proc::Input { chan, var } => Ok(Proc::Input {
                chan: self.name(*chan),
                var: self.name(*var),
            }),
            Proc::Output { chan, value } => Ok(Proc::Output {
                chan: self.name(*chan),
                value: self.expr(alloc, value)?,
            }),
            Proc::Seq(parts) => Ok(Proc::Seq(self.parts(alloc, parts.items())?)),
            Proc::Par(parts) => Ok(Proc::Par(self.parts(alloc, parts.items())?)),
            Proc::If(choices) => Ok(Proc::If(self.choices(alloc, choices.items())?)),
            Proc::Alt(alternatives) => {
                Ok(Proc::Alt(self.alternatives(alloc, alternatives.items())?))
            }
            Proc::Var { .. } | Proc::Chan { .. } => unreachable!(),
        }
    }

    #[cycle(replace)]
    fn parts(self, alloc: Global, parts: &[Proc]) -> Result<Procs, Memory>
        ensures { IfOk result (λ made. trees (in_procs made) ≡ all_renamed (trees parts.now) (replacing self.old.0 self.new.0)) }
    {
        let mut made = Procs::new(alloc);
        for part in parts {
            made.push(self.part(alloc, part)?)?;
        }
        Ok(made)
    }

    #[cycle(replace)]
    fn choices(self, alloc: Global, choices: &[(Expr, Proc)]) -> Result<Choices, Memory>
        ensures { IfOk result (λ made. cases (in_choices made) ≡ cases_renamed (cases choices.now) (replacing self.old.0 self.new.0)) }
    {
        let mut made = Choices::new(alloc);
        for (condition, part) in choices {
            let condition = self.expr(alloc, condition)?;
            made.push((condition, self.part(alloc, part)?))?;
        }
        Ok(made)
    }

    #[cycle(replace)]
    fn alternatives(
        self,
        alloc: Global,
        alternatives: &[(Guard, Proc)],
    ) -> Result<Alternatives, Memory>
        ensures { IfOk result (λ made. branches (in_alternatives made) ≡ branches_renamed (branches alternatives.now) (replacing self.old.0 self.new.0)) }
    {
        let mut made = Alternatives::new(alloc);
        for (guard, part) in alternatives {
            let guard = self.guard(alloc, guard)?;
            made.push((guard, self.part(alloc, part)?))?;
        }
        Ok(made)
    }
}
