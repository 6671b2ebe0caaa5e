ghost use Rattle.std.specs.Prelude.{◌≡◌};
ghost use Rattle.occ_syntax.specs.View.{cases, exp, tree, trees};
ghost use Rattle.occ_norm_arrange.specs.Straight.{all_straight, always, leads_straight as cases_straight, straight};

use occ_syntax::{Expr, Proc};

// Whether a condition is TRUE as it is written.
fn is_always(condition: &Expr) -> bool
    ensures { result ≡ always (exp condition.now) }
{
    match condition {
        Expr::Bool(value) => *value,
        Expr::Var(_) | Expr::Word { .. } => false,
        Expr::Not(_) | Expr::Flip(_) => false,
        Expr::Two { .. } => false,
    }
}

/// Whether a part is SKIP, an assignment, a SEQ of such parts, or an IF of such parts with a condition that is TRUE as it is
/// written. It doesn't communicate then, and always ends at once, in one state.
#[cycle(is_straight)]
#[tactic(auto, unfolding(crate::specs::tree))]
pub fn is_straight(part: &Proc) -> bool
    ensures { result ≡ straight (tree part.now) }
{
    match part {
        Proc::Skip | Proc::Assign { .. } => true,
        Proc::Seq(parts) => are_straight(parts.items()),
        Proc::If(choices) => leads_straight(choices.items()),
        Proc::Stop | Proc::Par(_) | Proc::Alt(_) => false,
        Proc::Input { .. } | Proc::Output { .. } => false,
        Proc::Var { .. } | Proc::Chan { .. } => false,
    }
}

// Whether each of some parts is.
#[cycle(is_straight)]
fn are_straight(parts: &[Proc]) -> bool
    ensures { result ≡ all_straight (trees parts.now) }
{
    for part in parts {
        if !is_straight(part) {
            return false;
        }
    }
    true
}

// Whether the parts of choices are, as far as they can be taken, and one is always taken.
#[cycle(is_straight)]
fn leads_straight(choices: &[(Expr, Proc)]) -> bool
    ensures { result ≡ cases_straight (cases choices.now) }
{
    for (condition, part) in choices {
        if !is_straight(part) {
            return false;
        }
        if is_always(condition) {
            return true;
        }
    }
    false
}
