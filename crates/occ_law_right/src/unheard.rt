ghost use Rattle.std.specs.Prelude.{◌≡◌, IfOk, []};
ghost use Rattle.occ_law_seq.specs.occ_law.Instances.{IsOnly};
ghost use Rattle.occ_law_seq.specs.occ_law.Scope.{ChanAlt, without_channel};
ghost use Rattle.occ_syntax.specs.Tree.{alt};
ghost use Rattle.occ_syntax.specs.View.{branches, tree};

use crate::declaration::Declaration;
use occ_law_scope::is_on;
use occ_syntax::{Alternatives, Guard, Kind, Memory, Name, Proc, Width};
use std::alloc::Global;

/// CHAN c: ALT(gs) = the ALT of the branches whose guard isn't on c, each process P under CHAN c
pub(crate) fn chan_alt(alloc: Global, left: &Proc) -> Result<Option<Proc>, Memory>
    ensures { IfOk result (IsOnly (ChanAlt []) (tree left.now)) }
{
    form!(left, Chan(name, width, body) => form!(body, Alt(alternatives) => {
        Ok(Some(off_channel(alloc, name, width, alternatives)?))
    }))
}

/// The ALT of the branches whose guard isn't on the channel, each process under the declared channel.
fn off_channel(
    alloc: Global,
    channel: Name,
    width: Width,
    alternatives: &[(Guard, Proc)],
) -> Result<Proc, Memory>
    ensures { IfOk result (λ made. tree made ≡ alt (without_channel channel.0 width (branches alternatives.now))) }
{
    let mut made = Alternatives::new(alloc);
    for (guard, part) in alternatives {
        if !is_on(&guard.wait, channel) {
            let guard = guard.copy(alloc)?;
            let kind = Kind::Chan(width, None);
            let under = Declaration {
                name: channel,
                kind,
            }
            .over(alloc, part)?;
            made.push((guard, under))?;
        }
    }
    Ok(Proc::Alt(made))
}
