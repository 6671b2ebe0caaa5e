ghost use Rattle.std.specs.Prelude.{◌≡◌, IfOk, true};
ghost use Rattle.std.specs.List.{list_any};
ghost use Rattle.occ_meaning.specs.Parallel.{EachWritesApart};
ghost use Rattle.occ_syntax.specs.Names.{is_in};
ghost use Rattle.occ_syntax.specs.View.{numbers, trees};

use occ_names::written;
use occ_syntax::{Memory, Name, Proc};
use std::alloc::Global;

// Whether a name is among some.
fn has_name(names: &[Name], name: Name) -> bool
    ensures { result ≡ is_in (numbers names.now) name.0 }
{
    names.contains(&name)
}

// Whether some names have one in common with others.
fn has_any(names: &[Name], others: &[Name]) -> bool
    ensures { result ≡ list_any (λ name. is_in (numbers others.now) name.0) names.now }
{
    names.iter().any(|name| has_name(others, *name))
}

/// Whether no variable is written by two of the parts.
pub fn write_apart(alloc: Global, parts: &[Proc]) -> Result<bool, Memory>
    ensures { IfOk result (λ answer. answer ≡ true → EachWritesApart (trees parts.now)) }
{
    let mut later = Vec::new(alloc);
    let mut left = parts.len();
    while left > 0 {
        left -= 1;
        let names = written(alloc, &parts[left])?;
        let found = names.as_slice();
        let known = later.as_slice();
        if has_any(found, known) {
            return Ok(false);
        }
        later.extend_from_slice(found)?;
    }
    Ok(true)
}
