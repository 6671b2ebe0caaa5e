ghost use Rattle.std.specs.Prelude.{◌≡◌, ◌&&◌, OnOk, IfOk, false};
ghost use Rattle.occ_syntax.specs.Declarations.{is_declaration};
ghost use Rattle.occ_syntax.specs.Scopes.{environment};
ghost use Rattle.occ_syntax.specs.Types.{is_condition, waiting_kept, types_kept, all_types_kept, cases_kept, branches_kept};
ghost use Rattle.occ_syntax.specs.View.{exp, waiting, tree, trees, cases, branches};
ghost use Rattle.occ_usage.specs.Typed.{unmarked as without_mark};

use crate::kinds::Kinds;
use crate::types::width_of;
use occ_syntax::{Expr, Guard, Kind, Memory, Proc};
use std::alloc::Global;

// A channel that a part declares has no mark.
fn unmarked(kind: Kind) -> Kind
    ensures { result ≡ without_mark kind }
{
    match kind {
        Kind::Var(width) => Kind::Var(width),
        Kind::Chan(width, _) => Kind::Chan(width, None),
    }
}

/// A walk over the processes of a part, with the names in scope.
#[derive(Drop)]
pub struct Typing {
    pub alloc: Global,
    pub kinds: Kinds,
}

impl Typing {
    /// Whether names, types and directions are kept in a part.
    // The declarations round a process are a loop, since there may be thousands.
    #[cycle(typing)]
    pub fn part(&mut self, part: &Proc) -> Result<bool, Memory>
        ensures kept { IfOk result (λ kept. kept ≡ types_kept (tree part.now) (environment self.old.kinds)) }
        ensures kinds { OnOk result (self.new.kinds ≡ self.old.kinds) }
    {
        let before = self.kinds.len();
        let mut rest = part;
        while let Some((name, kind, body)) = rest.declared() {
            if !self.kinds.can_declare(name, width_of(kind)) {
                self.kinds.truncate(before);
                return Ok(false);
            }
            self.kinds.enter(name, unmarked(kind))?;
            rest = body;
        }
        let kept = self.undeclared(rest)?;
        self.kinds.truncate(before);
        Ok(kept)
    }

    #[tactic(auto, unfolding(crate::specs::tree))]
    #[cycle(typing)]
    fn undeclared(&mut self, part: &Proc) -> Result<bool, Memory>
        requires { is_declaration (tree part.now) ≡ false }
        ensures kept { IfOk result (λ kept. kept ≡ types_kept (tree part.now) (environment self.old.kinds)) }
        ensures kinds { OnOk result (self.new.kinds ≡ self.old.kinds) }
    {
        match part {
            Proc::Skip | Proc::Stop => Ok(true),
            Proc::Assign { vars, values } => {
                self.kinds
                    .assignment_kept(self.alloc, vars.items(), values.items())
            }
            Proc::Input { chan, var } => Ok(self.kinds.input_kept(*chan, *var)),
            Proc::Output { chan, value } => Ok(self.kinds.output_kept(*chan, value)),
            Proc::Seq(parts) => self.parts(parts.items()),
            Proc::Par(parts) => self.parts(parts.items()),
            Proc::If(choices) => self.choices(choices.items()),
            Proc::Alt(alternatives) => self.alternatives(alternatives.items()),
            Proc::Var { .. } | Proc::Chan { .. } => unreachable!(),
        }
    }

    #[cycle(typing)]
    fn parts(&mut self, parts: &[Proc]) -> Result<bool, Memory>
        ensures kept { IfOk result (λ kept. kept ≡ all_types_kept (trees parts.now) (environment self.old.kinds)) }
        ensures kinds { OnOk result (self.new.kinds ≡ self.old.kinds) }
    {
        for part in parts {
            if !self.part(part)? {
                return Ok(false);
            }
        }
        Ok(true)
    }

    #[cycle(typing)]
    fn choices(&mut self, choices: &[(Expr, Proc)]) -> Result<bool, Memory>
        ensures kept { IfOk result (λ kept. kept ≡ cases_kept (cases choices.now) (environment self.old.kinds)) }
        ensures kinds { OnOk result (self.new.kinds ≡ self.old.kinds) }
    {
        for (condition, part) in choices {
            if !self.kinds.is_condition(condition) {
                return Ok(false);
            }
            if !self.part(part)? {
                return Ok(false);
            }
        }
        Ok(true)
    }

    #[cycle(typing)]
    fn alternatives(&mut self, alternatives: &[(Guard, Proc)]) -> Result<bool, Memory>
        ensures kept { IfOk result (λ kept. kept ≡ branches_kept (branches alternatives.now) (environment self.old.kinds)) }
        ensures kinds { OnOk result (self.new.kinds ≡ self.old.kinds) }
    {
        for (guard, part) in alternatives {
            if !self.guard_kept(guard) {
                return Ok(false);
            }
            if !self.part(part)? {
                return Ok(false);
            }
        }
        Ok(true)
    }

    fn guard_kept(&self, guard: &Guard) -> bool
        ensures { result ≡ (is_condition (environment self.now.kinds) (exp guard.now.condition) && waiting_kept (environment self.now.kinds) (waiting guard.now.wait)) }
    {
        self.kinds.is_condition(&guard.condition) && self.kinds.waiting_kept(&guard.wait)
    }
}
