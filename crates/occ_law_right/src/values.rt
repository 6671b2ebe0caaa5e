ghost use Rattle.std.specs.Prelude.{◌≡◌, ◌∷◌, IfOk, [], true};
ghost use Rattle.occ_law_seq.specs.occ_law.Instances.{IsOnly};
ghost use Rattle.occ_law_seq.specs.occ_law.Scope.{VarAny, each_value as each_value_of, values_of};
ghost use Rattle.occ_law_scope.specs.Turns.{begun};
ghost use Rattle.occ_law_scope.specs.Values.{value_at};
ghost use Rattle.occ_syntax.specs.Scopes.{environment};
ghost use Rattle.occ_syntax.specs.Tree.{alt, assign, declare};
ghost use Rattle.occ_syntax.specs.Types.{is_width, types_kept};
ghost use Rattle.occ_syntax.specs.View.{exp, tree};

use occ_law_scope::count_of;
use occ_law_seq::in_turn;
use occ_syntax::{
    Alternatives, Expr, Exprs, Guard, Kind, Memory, Name, NameList, Proc, Scope, Wait, Width,
};
use std::alloc::Global;

/// VAR x: P = the ALT that has for each value v of x the branch TRUE & SKIP VAR x: SEQ(x := v, P)
pub(crate) fn var_any(alloc: Global, _scope: &Scope, left: &Proc) -> Result<Option<Proc>, Memory>
    requires { types_kept (tree left.now) (environment _scope.now) ≡ true }
    ensures { IfOk result (IsOnly (VarAny []) (tree left.now)) }
{
    form!(left, Var(name, width, body) => Ok(Some(Variable { name, width, body }.each_value(alloc)?)))
}

/// A declared variable, and the process that it is declared for.
#[derive(Clone, Copy)]
struct Variable<'a> {
    name: Name,
    width: Width,
    body: &'a Proc,
}

impl Variable<'_> {
    /// The ALT of branches that are ready at once and begin by giving the variable its values, each branch one value, in
    /// increasing order.
    fn each_value(&self, alloc: Global) -> Result<Proc, Memory>
        requires { is_width self.now.width ≡ true }
        ensures { IfOk result (λ made. tree made
            ≡ alt (each_value_of self.now.name.0 self.now.width (tree self.now.body.now) (values_of self.now.width))) }
    {
        let count = count_of(self.width);
        let mut made = Alternatives::new(alloc);
        for value in 0..count {
            let guard = Guard {
                condition: Expr::Bool(true),
                wait: Wait::Skip,
            };
            made.push((guard, self.given(alloc, value as u8)?))?;
        }
        Ok(Proc::Alt(made))
    }

    /// The declared variable of the process that begins by giving it that value.
    fn given(&self, alloc: Global, value: u8) -> Result<Proc, Memory>
        ensures { IfOk result (λ made. tree made
            ≡ declare self.now.name.0 self.now.width (begun self.now.name.0 (value_at self.now.width value) (tree self.now.body.now))) }
    {
        let first = giving(alloc, self.name, constant(self.width, value))?;
        let whole = in_turn(alloc, first, self.body.copy(alloc)?)?;
        whole.declare(alloc, self.name, Kind::Var(self.width))
    }
}

/// The assignment of one value to one variable.
fn giving(alloc: Global, name: Name, value: Expr) -> Result<Proc, Memory>
    ensures { IfOk result (λ made. tree made ≡ assign (name.0 ∷ []) (exp value ∷ [])) }
{
    let mut vars = NameList::new(alloc);
    vars.push(name)?;
    let mut values = Exprs::new(alloc);
    values.push(value)?;
    Ok(Proc::Assign { vars, values })
}

/// That value as a constant of a width.
fn constant(width: Width, value: u8) -> Expr
    ensures { exp result ≡ value_at width value }
{
    match width {
        Width::Bool => Expr::Bool(value > 0),
        Width::Word(bits) => Expr::Word { bits, value },
    }
}
