ghost use Rattle.std.specs.Prelude.{◌≡◌, ◌↔◌, IfOk, IsTrue};
ghost use Rattle.occ_law_shape.specs.occ_law.Scope.{ChanAlt, without_channel};
ghost use Rattle.occ_law_shape.specs.Answer.{IsAnswer};
ghost use Rattle.occ_syntax.specs.View.{branches, tree};

use crate::declaration::Declaration;
use crate::mentions::is_on;
use occ_law_shape::shape;
use occ_syntax::{Guard, Memory, Name, Proc, Width};

/// CHAN c: ALT(gs) = the ALT of the branches whose guard isn't on c, each process P under CHAN c
pub(crate) fn chan_alt(left: &Proc, right: &Proc) -> Result<bool, Memory>
    ensures { IfOk result (IsAnswer ChanAlt (tree left.now) (tree right.now)) }
{
    shape!(left, Chan(name, width, body) => shape!(body, Alt(alternatives) => shape!(right, Alt(others) => {
        Ok(are_without_channel(name, width, alternatives, others))
    })))
}

/// Whether the other branches are those whose guard isn't on the channel, each process under the declared channel.
fn are_without_channel(
    channel: Name,
    width: Width,
    alternatives: &[(Guard, Proc)],
    others: &[(Guard, Proc)],
) -> bool
    ensures { IsTrue result ↔ (branches others.now ≡ without_channel channel.0 width (branches alternatives.now)) }
{
    let mut rest = others;
    for branch in alternatives {
        if !is_on(&branch.0.wait, channel) {
            let [other, more @ ..] = rest else {
                return false;
            };
            if !Declaration::Chan(channel, width).governs_branch(other, branch) {
                return false;
            }
            rest = more;
        }
    }
    rest.is_empty()
}
