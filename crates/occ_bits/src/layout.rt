ghost use Rattle.std.specs.Prelude.{◌≡◌, ◌≤◌, true, IfOk};
ghost use Rattle.occ_syntax.specs.Counts.{bits_of_scope};
ghost use Rattle.occ_syntax.specs.Types.{scope_kept};
ghost use Rattle.occ_bits.specs.Layout.{laid_out, entry_of, IsLayout};

use occ_dd::{List, Memory, Name, Width};
use occ_syntax::{Kind, Scope};
use std::alloc::Global;
use std::marker::Model;

/// The bits of the variables of a scope: each variable with its width and its first bit, in the order of the scope.
/// A variable has as many bits as its width, the lowest digit of its value at the first of them. An assignment of the
/// bits, a `u64`, stands for a state of the variables. A layout is always what `of` gives for some scope.
#[derive(Debug, Drop)]
pub struct Layout {
    entries: List<(Name, Width, u32)>,
}

impl Model for Layout {
    ghost use Rattle.std.specs.Prelude.{List, ℕ};
    ghost use Rattle.occ_dd.specs.occ_base.declared.names.Name.{Name};
    ghost use Rattle.occ_dd.specs.occ_base.declared.width.Width.{Width};
    ghost use Rattle.occ_bits.specs.Layout.{IsLayout};

    ghost Value = { List (Name × Width × ℕ) };

    ghost view = { λ layout. layout.entries };

    ghost invariant = { λ layout. IsLayout layout.entries };
}

impl Layout {
    /// Numbers the bits of the variables of a scope from 0, in the order of the scope, the low bit of each first.
    /// The variables of the scope have at most 64 bits together.
    pub fn of(alloc: Global, scope: &Scope) -> Result<Layout, Memory>
        requires scope { scope_kept scope.now ≡ true }
        requires few { bits_of_scope scope.now ≤ 64 }
        ensures { IfOk result (λ layout. layout ≡ laid_out 0 scope.now) }
    {
        let mut entries = List::new(alloc);
        let mut first: u32 = 0;
        for (name, kind) in scope.items() {
            if let Kind::Var(width) = kind {
                entries.push((*name, *width, first))?;
                first += u32::from(width.bits());
            }
        }
        Ok(Layout { entries })
    }

    /// The variables in order, each with its width and its first bit. It takes no memory.
    pub fn items(&self) -> &[(Name, Width, u32)]
        ensures items { result.now ≡ self.now }
        ensures laid { IsLayout self.now }
    {
        self.entries.items()
    }
}

/// The width and the first bit of a variable; None where the layout has none of that name.
pub(crate) fn find(entries: &[(Name, Width, u32)], name: Name) -> Option<(Width, u32)>
    ensures { result ≡ entry_of entries.now name.0 }
{
    for (variable, width, first) in entries {
        if *variable == name {
            return Some((*width, *first));
        }
    }
    None
}
