ghost use Rattle.std.specs.Prelude.{◌≡◌, ◌∷◌, [], ◌++◌, OnOk, IfOk, Some, false};
ghost use Rattle.occ_syntax.specs.occ_base.declared.event.Dir.TheVariants.{Input, Output};
ghost use Rattle.occ_syntax.specs.Declarations.{is_declaration};
ghost use Rattle.occ_syntax.specs.View.{numbers, exp, exps, waiting, tree, trees, cases, branches};
ghost use Rattle.occ_names.specs.declared.mention.Mention.TheVariants.{Write, End};
ghost use Rattle.occ_names.specs.Mentions.{reads, reads_of_all, writes, mentions_of_waiting, number_in, used, outside, mentions as mentions_of, mentions_of_all as of_all, mentions_of_cases as of_cases, mentions_of_branches as of_branches};

use crate::NameSet;
use crate::mention::Mention;
use occ_syntax::{Dir, Expr, Guard, List, Memory, Name, Proc, Wait};
use std::alloc::Global;

/// What a part does with names, in the order of its text: each of its declarations, and each use of a name that none of
/// them governs.
pub fn mentions(alloc: Global, part: &Proc) -> Result<List<Mention>, Memory>
    ensures { IfOk result (λ found. found ≡ mentions_of (tree part.now)) }
{
    let mut collector = Collector {
        bound: NameSet::new(alloc),
        found: List::new(alloc),
    };
    collector.part(part)?;
    Ok(collector.found)
}

// The mentions so far, and the names that are declared round the place.
#[derive(Drop)]
struct Collector {
    bound: NameSet,
    found: List<Mention>,
}

impl Collector {
    // Notes the use of a name, unless it is declared round the place.
    fn note(&mut self, name: Name, mention: Mention) -> Result<(), Memory>
        requires { number_in (Some name) ≡ used (mention ∷ []) }
        ensures found { OnOk result (self.new.found ≡ self.old.found ++ outside self.old.bound (mention ∷ [])) }
        ensures bound { self.new.bound ≡ self.old.bound }
    {
        if self.bound.contains(name) {
            return Ok(());
        }
        self.found.push(mention)
    }

    fn read(&mut self, expr: &Expr) -> Result<(), Memory>
        ensures found { OnOk result (self.new.found ≡ self.old.found ++ outside self.old.bound (reads (exp expr.now))) }
        ensures bound { OnOk result (self.new.bound ≡ self.old.bound) }
    {
        match expr {
            Expr::Var(name) => self.note(*name, Mention::Read(*name)),
            Expr::Word { .. } | Expr::Bool(_) => Ok(()),
            Expr::Not(operand) | Expr::Flip(operand) => self.read(operand),
            Expr::Two(_, left, right) => {
                self.read(left)?;
                self.read(right)
            }
        }
    }

    fn read_all(&mut self, exprs: &[Expr]) -> Result<(), Memory>
        ensures found { OnOk result (self.new.found ≡ self.old.found ++ outside self.old.bound (reads_of_all (exps exprs.now))) }
        ensures bound { OnOk result (self.new.bound ≡ self.old.bound) }
    {
        for expr in exprs {
            self.read(expr)?;
        }
        Ok(())
    }

    fn write_all(&mut self, vars: &[Name]) -> Result<(), Memory>
        ensures found { OnOk result (self.new.found ≡ self.old.found ++ outside self.old.bound (writes (numbers vars.now))) }
        ensures bound { OnOk result (self.new.bound ≡ self.old.bound) }
    {
        for var in vars {
            self.note(*var, Mention::Write(*var))?;
        }
        Ok(())
    }

    fn input(&mut self, chan: Name, var: Name) -> Result<(), Memory>
        ensures found { OnOk result (self.new.found ≡ self.old.found ++ outside self.old.bound (End chan Input ∷ Write var ∷ [])) }
        ensures bound { OnOk result (self.new.bound ≡ self.old.bound) }
    {
        self.note(chan, Mention::End(chan, Dir::Input))?;
        self.note(var, Mention::Write(var))
    }

    fn output(&mut self, chan: Name, value: &Expr) -> Result<(), Memory>
        ensures found { OnOk result (self.new.found ≡ self.old.found ++ outside self.old.bound (End chan Output ∷ reads (exp value.now))) }
        ensures bound { OnOk result (self.new.bound ≡ self.old.bound) }
    {
        self.note(chan, Mention::End(chan, Dir::Output))?;
        self.read(value)
    }

    fn wait(&mut self, wait: &Wait) -> Result<(), Memory>
        ensures found { OnOk result (self.new.found ≡ self.old.found ++ outside self.old.bound (mentions_of_waiting (waiting wait.now))) }
        ensures bound { OnOk result (self.new.bound ≡ self.old.bound) }
    {
        match wait {
            Wait::Skip => Ok(()),
            Wait::Get { chan, var } => self.input(*chan, *var),
            Wait::Put { chan, value } => self.output(*chan, value),
        }
    }

    // The declarations round a process are a loop, since there may be thousands.
    #[cycle(collect)]
    fn part(&mut self, part: &Proc) -> Result<(), Memory>
        ensures found { OnOk result (self.new.found ≡ self.old.found ++ outside self.old.bound (mentions_of (tree part.now))) }
        ensures bound { OnOk result (self.new.bound ≡ self.old.bound) }
    {
        let before = self.bound.len();
        let mut rest = part;
        while let Some((name, _, body)) = rest.declared() {
            self.found.push(Mention::Declare(name))?;
            self.bound.insert(name)?;
            rest = body;
        }
        self.undeclared(rest)?;
        self.bound.truncate(before);
        Ok(())
    }

    #[tactic(auto, unfolding(crate::specs::tree))]
    #[cycle(collect)]
    fn undeclared(&mut self, part: &Proc) -> Result<(), Memory>
        requires { is_declaration (tree part.now) ≡ false }
        ensures found { OnOk result (self.new.found ≡ self.old.found ++ outside self.old.bound (mentions_of (tree part.now))) }
        ensures bound { OnOk result (self.new.bound ≡ self.old.bound) }
    {
        match part {
            Proc::Skip | Proc::Stop => Ok(()),
            Proc::Assign { vars, values } => {
                self.write_all(vars.items())?;
                self.read_all(values.items())
            }
            Proc::Input { chan, var } => self.input(*chan, *var),
            Proc::Output { chan, value } => self.output(*chan, value),
            Proc::Seq(parts) => self.parts(parts.items()),
            Proc::Par(parts) => self.parts(parts.items()),
            Proc::If(choices) => self.choices(choices.items()),
            Proc::Alt(alternatives) => self.alternatives(alternatives.items()),
            Proc::Var { .. } | Proc::Chan { .. } => unreachable!(),
        }
    }

    #[cycle(collect)]
    fn parts(&mut self, parts: &[Proc]) -> Result<(), Memory>
        ensures found { OnOk result (self.new.found ≡ self.old.found ++ outside self.old.bound (of_all (trees parts.now))) }
        ensures bound { OnOk result (self.new.bound ≡ self.old.bound) }
    {
        for part in parts {
            self.part(part)?;
        }
        Ok(())
    }

    #[cycle(collect)]
    fn choices(&mut self, choices: &[(Expr, Proc)]) -> Result<(), Memory>
        ensures found { OnOk result (self.new.found ≡ self.old.found ++ outside self.old.bound (of_cases (cases choices.now))) }
        ensures bound { OnOk result (self.new.bound ≡ self.old.bound) }
    {
        for (condition, part) in choices {
            self.read(condition)?;
            self.part(part)?;
        }
        Ok(())
    }

    #[cycle(collect)]
    fn alternatives(&mut self, alternatives: &[(Guard, Proc)]) -> Result<(), Memory>
        ensures found { OnOk result (self.new.found ≡ self.old.found ++ outside self.old.bound (of_branches (branches alternatives.now))) }
        ensures bound { OnOk result (self.new.bound ≡ self.old.bound) }
    {
        for (guard, part) in alternatives {
            self.read(&guard.condition)?;
            self.wait(&guard.wait)?;
            self.part(part)?;
        }
        Ok(())
    }
}
