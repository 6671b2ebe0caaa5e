ghost use Rattle.std.specs.Prelude.{◌≡◌, ◌∷◌, IfOk, true};
ghost use Rattle.occ_syntax.specs.Eval.{eval};
ghost use Rattle.occ_syntax.specs.Scopes.{channel_width, environment, values};
ghost use Rattle.occ_syntax.specs.Types.{can_declare, scope_kept, type_of};
ghost use Rattle.occ_syntax.specs.declared.scope.Kind.TheVariants.{Var};
ghost use Rattle.occ_syntax.specs.View.{exp};
ghost use Rattle.std.specs.Prelude.{IsSome};
ghost use Rattle.occ_run.specs.View.{can_connect, with_channels};

use occ_syntax::{Expr, Kind, Memory, Name, Width, value};
use std::alloc::Global;

/// Where a control stands: the names in scope and the values of the variables, the innermost first.
#[derive(Drop)]
pub struct Place {
    pub(crate) alloc: Global,
    pub(crate) scope: Vec<(Name, Kind)>,
    pub(crate) state: Vec<(Name, u8)>,
    pub ghost kept: { scope_kept scope.items ≡ true },
}

impl Place {
    /// The allocator of the place.
    pub fn alloc(&self) -> Global
        ensures { result ≡ self.now.alloc }
    {
        self.alloc
    }

    /// The names in scope, the innermost first.
    pub fn scope(&self) -> &[(Name, Kind)]
        ensures { result.now ≡ self.now.scope.items }
    {
        self.scope.as_slice()
    }

    /// The values of the variables. A later one of a name doesn't count.
    pub fn state(&self) -> &[(Name, u8)]
        ensures { result.now ≡ self.now.state.items }
    {
        self.state.as_slice()
    }

    /// The place within a VAR, whose variable has that value.
    pub fn with_variable(&self, name: Name, width: Width, value: u8) -> Result<Place, Memory>
        requires { can_declare (environment self.now.scope.items) name.0 width ≡ true }
        ensures scope { IfOk result (λ inner. inner.scope.items ≡ (name, Var width) ∷ self.now.scope.items) }
        ensures state { IfOk result (λ inner. inner.state.items ≡ (name, value) ∷ self.now.state.items) }
    {
        let mut scope = Vec::new(self.alloc);
        scope.push((name, Kind::Var(width)))?;
        scope.extend_from_slice(&self.scope)?;
        let mut state = Vec::new(self.alloc);
        state.push((name, value))?;
        state.extend_from_slice(&self.state)?;
        Ok(Place {
            alloc: self.alloc,
            scope,
            state,
        })
    }

    /// The place within CHANs in a row, the first outermost.
    pub fn within(&self, first: (Name, Width), more: &[(Name, Width)]) -> Result<Place, Memory>
        requires { can_connect (environment self.now.scope.items) (first ∷ more.now) ≡ true }
        ensures scope { IfOk result (λ inner. environment inner.scope.items
            ≡ with_channels (environment self.now.scope.items) (first ∷ more.now)) }
        ensures state { IfOk result (λ inner. inner.state.items ≡ self.now.state.items) }
    {
        let mut scope = Vec::new(self.alloc);
        for (name, width) in more.iter().rev() {
            scope.push((*name, Kind::Chan(*width, None)))?;
        }
        scope.push((first.0, Kind::Chan(first.1, None)))?;
        scope.extend_from_slice(&self.scope)?;
        Ok(Place {
            alloc: self.alloc,
            scope,
            state: Vec::from_slice(self.alloc, &self.state)?,
        })
    }

    /// The value of an expression that has a type here.
    pub(crate) fn value(&self, expr: &Expr) -> u8
        requires { IsSome (type_of (environment self.now.scope.items) (exp expr.now)) }
        ensures { result ≡ eval (environment self.now.scope.items) (exp expr.now) (values self.now.state.items) }
    {
        value(&self.scope, &self.state, expr)
    }

    /// The width of a channel; None where there is none of that name.
    pub(crate) fn width(&self, chan: Name) -> Option<Width>
        ensures { result ≡ channel_width (environment self.now.scope.items) chan.0 }
    {
        let mut rest = self.scope.as_slice();
        while let [(other, kind), later @ ..] = rest {
            if chan == *other {
                return match kind {
                    Kind::Chan(width, _) => Some(*width),
                    Kind::Var(_) => None,
                };
            }
            rest = later;
        }
        None
    }
}
