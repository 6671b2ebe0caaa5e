ghost use Rattle.std.specs.Prelude.{◌≡◌, ◌+◌, ◌-◌, ◌^◌, min, false};
ghost use Rattle.occ_syntax.specs.Declarations.{is_declaration};
ghost use Rattle.occ_syntax.specs.View.{tree, trees, cases, branches};
ghost use Rattle.occ_syntax.specs.Counts.{capped, controls as controls_of, controls_of_all as of_all, controls_of_cases as of_cases, controls_of_branches as of_branches};
ghost use Rattle.occ_syntax.specs.Counts.{bits_of_scope, most_bits as most_of, most_bits_of_all as most_of_all, most_bits_of_cases as most_of_cases, most_bits_of_branches as most_of_branches};

use crate::{Expr, Guard, Kind, Proc, Program};
use occ_base::Name;

/// The controls of a part, the measure of a program's size: one for each SKIP, STOP, assignment, input, output, SEQ, PAR
/// and declaration; one for each IF and ALT, and one more for each of their branches. A count that no `u64` holds is
/// answered as the greatest `u64`. It takes no memory.
#[cycle(controls)]
pub fn controls(part: &Proc) -> u64
    ensures { result ≡ capped (controls_of (tree part.now)) }
{
    let mut count: u64 = 0;
    let mut rest = part;
    while let Some((_, _, body)) = rest.declared() {
        count = count.saturating_add(1);
        rest = body;
    }
    count.saturating_add(controls_of_one(rest))
}

#[tactic(auto, unfolding(crate::specs::View::tree))]
#[cycle(controls)]
fn controls_of_one(part: &Proc) -> u64
    ensures { result ≡ capped (controls_of (tree part.now)) }
{
    match part {
        Proc::Skip | Proc::Stop => 1,
        Proc::Assign { .. } | Proc::Input { .. } | Proc::Output { .. } => 1,
        Proc::Seq(parts) => controls_of_all(parts.items()).saturating_add(1),
        Proc::Par(parts) => controls_of_all(parts.items()).saturating_add(1),
        Proc::If(choices) => controls_of_choices(choices.items()).saturating_add(1),
        Proc::Alt(alternatives) => {
            controls_of_alternatives(alternatives.items()).saturating_add(1)
        }
        Proc::Var { body, .. } => controls(body).saturating_add(1),
        Proc::Chan { body, .. } => controls(body).saturating_add(1),
    }
}

#[cycle(controls)]
fn controls_of_all(parts: &[Proc]) -> u64
    ensures { result ≡ capped (of_all (trees parts.now)) }
{
    let mut count: u64 = 0;
    for part in parts {
        count = count.saturating_add(controls(part));
    }
    count
}

#[cycle(controls)]
fn controls_of_choices(choices: &[(Expr, Proc)]) -> u64
    ensures { result ≡ capped (of_cases (cases choices.now)) }
{
    let mut count: u64 = 0;
    for (_, part) in choices {
        count = count.saturating_add(controls(part)).saturating_add(1);
    }
    count
}

#[cycle(controls)]
fn controls_of_alternatives(alternatives: &[(Guard, Proc)]) -> u64
    ensures { result ≡ capped (of_branches (branches alternatives.now)) }
{
    let mut count: u64 = 0;
    for (_, part) in alternatives {
        count = count.saturating_add(controls(part)).saturating_add(1);
    }
    count
}

/// The bits of a program's parameter variables together; a channel has none. A count that no `u64` holds is answered as
/// the greatest `u64`. It takes no memory.
pub fn interface_bits(program: &Program) -> u64
    ensures { result ≡ capped (bits_of_scope program.now.params) }
{
    bits_together(program.params.items())
}

/// The most bits of variables that are in scope together at one place of a program: those of its parameters and of each
/// declaration round the place. A count that no `u64` holds is answered as the greatest `u64`. It takes no memory.
pub fn scope_bits(program: &Program) -> u64
    ensures { result ≡ capped (most_of (tree program.now.body) (bits_of_scope program.now.params)) }
{
    most_bits(&program.body, interface_bits(program))
}

fn bits_together(scope: &[(Name, Kind)]) -> u64
    ensures { result ≡ capped (bits_of_scope scope.now) }
{
    let mut bits: u64 = 0;
    for (_, kind) in scope {
        bits = bits.saturating_add(u64::from(kind.bits()));
    }
    bits
}

// The most bits in scope at one place of a part, where `outer` bits are in scope already.
#[cycle(most_bits)]
fn most_bits(part: &Proc, outer: u64) -> u64
    ensures { result ≡ capped (most_of (tree part.now) outer) }
{
    let mut bits = outer;
    let mut rest = part;
    while let Some((_, kind, body)) = rest.declared() {
        bits = bits.saturating_add(u64::from(kind.bits()));
        rest = body;
    }
    most_bits_of_one(rest, bits)
}

#[tactic(auto, unfolding(crate::specs::View::tree))]
#[cycle(most_bits)]
fn most_bits_of_one(part: &Proc, outer: u64) -> u64
    requires { is_declaration (tree part.now) ≡ false }
    ensures { result ≡ capped (most_of (tree part.now) outer) }
{
    match part {
        Proc::Skip | Proc::Stop => outer,
        Proc::Assign { .. } | Proc::Input { .. } | Proc::Output { .. } => outer,
        Proc::Seq(parts) => most_bits_of_all(parts.items(), outer),
        Proc::Par(parts) => most_bits_of_all(parts.items(), outer),
        Proc::If(choices) => most_bits_of_choices(choices.items(), outer),
        Proc::Alt(alternatives) => most_bits_of_alternatives(alternatives.items(), outer),
        Proc::Var { .. } | Proc::Chan { .. } => unreachable!(),
    }
}

#[cycle(most_bits)]
fn most_bits_of_all(parts: &[Proc], outer: u64) -> u64
    ensures { result ≡ capped (most_of_all (trees parts.now) outer) }
{
    let mut most = outer;
    for part in parts {
        let bits = most_bits(part, outer);
        most = most.max(bits);
    }
    most
}

#[cycle(most_bits)]
fn most_bits_of_choices(choices: &[(Expr, Proc)], outer: u64) -> u64
    ensures { result ≡ capped (most_of_cases (cases choices.now) outer) }
{
    let mut most = outer;
    for (_, part) in choices {
        most = most.max(most_bits(part, outer));
    }
    most
}

#[cycle(most_bits)]
fn most_bits_of_alternatives(alternatives: &[(Guard, Proc)], outer: u64) -> u64
    ensures { result ≡ capped (most_of_branches (branches alternatives.now) outer) }
{
    let mut most = outer;
    for (_, part) in alternatives {
        most = most.max(most_bits(part, outer));
    }
    most
}
