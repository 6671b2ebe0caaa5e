ghost use Rattle.std.specs.Prelude.{◌≡◌, IfOk, IfSome, MatchOption, OnOk};
ghost use Rattle.occ_meaning.specs.Parallel.{all_of};
ghost use Rattle.occ_syntax.specs.Tree.{par};
ghost use Rattle.occ_syntax.specs.View.{in_procs, tree, trees};
ghost use Rattle.occ_norm_arrange.specs.FlatArranged.{IsReshaped};
ghost use Rattle.occ_norm_arrange.specs.Spread.{AreKnown, IsNext, spread};

use crate::declared::note_declared;
use occ_names::NameSet;
use occ_syntax::{Kind, Memory, Proc, Procs, Scope};
use std::alloc::Global;

// Channels that are declared round parts side by side, and the names that these declare.
#[derive(Drop)]
struct Spread {
    chans: Scope,
    parts: Procs,
    names: NameSet,
}

impl Spread {
    // Adds copies of parts at the end.
    fn push_all(&mut self, alloc: Global, parts: &[Proc]) -> Result<(), Memory>
        requires { AreKnown self.old.names (trees (in_procs self.old.parts)) }
        ensures parts { OnOk result (trees (in_procs self.new.parts)
            ≡ all_of (trees (in_procs self.old.parts)) (trees parts.now)) }
        ensures known { OnOk result (AreKnown self.new.names (trees (in_procs self.new.parts))) }
        ensures chans { self.new.chans ≡ self.old.chans }
    {
        for part in parts {
            note_declared(part, &mut self.names)?;
            self.parts.push(part.copy(alloc)?)?;
        }
        Ok(())
    }

    // Takes a last part apart, if it declares a channel whose name no other part declares, or is a PAR with parts: what is last
    // then.
    #[tactic(auto, unfolding(crate::specs::tree))]
    fn next<'a>(&mut self, alloc: Global, last: &'a Proc) -> Result<Option<&'a Proc>, Memory>
        requires { AreKnown self.old.names (trees (in_procs self.old.parts)) }
        ensures known { OnOk result (AreKnown self.new.names (trees (in_procs self.new.parts))) }
        ensures next { IfOk result (λ found. MatchOption found
            ((self.new.chans ≡ self.old.chans) × (trees (in_procs self.new.parts) ≡ trees (in_procs self.old.parts)))
            (λ next. IsNext self.old.chans (trees (in_procs self.old.parts)) (tree last.now)
            self.new.chans (trees (in_procs self.new.parts)) (tree next.now))) }
    {
        match last {
            Proc::Chan { name, width, body } => {
                if self.names.contains(*name) {
                    return Ok(None);
                }
                self.chans.push((*name, Kind::Chan(*width, None)))?;
                Ok(Some(body))
            }
            Proc::Par(parts) => {
                let items = parts.items();
                if items.is_empty() {
                    return Ok(None);
                }
                let front = items.len() - 1;
                self.push_all(alloc, &items[..front])?;
                Ok(Some(&items[front]))
            }
            _ => Ok(None),
        }
    }

    // The PAR of the parts and a last one, within the declarations.
    fn with_last(self, alloc: Global, last: &Proc) -> Result<Proc, Memory>
        ensures { IfOk result (λ flat. tree flat ≡ spread self.chans (trees (in_procs self.parts)) (tree last.now)) }
    {
        let Spread {
            chans,
            mut parts,
            names: _,
        } = self;
        parts.push(last.copy(alloc)?)?;
        Proc::Par(parts).within(alloc, chans.items())
    }
}

// Whether a part is a PAR within declarations of channels, if there are any.
fn is_nested(part: &Proc) -> bool {
    let mut body = part;
    while let Some((_, kind, inside)) = body.declared() {
        if let Kind::Var(_) = kind {
            return false;
        }
        body = inside;
    }
    matches!(body, Proc::Par(_))
}

// Whether the last of some parts is nested in the PAR of them.
fn has_nested(parts: &[Proc]) -> bool {
    match parts.last() {
        Some(last) => is_nested(last),
        None => false,
    }
}

// The PAR of parts with one PAR in the place of those in its last part, if there are any.
fn flat(alloc: Global, parts: &[Proc]) -> Result<Option<Proc>, Memory>
    ensures { IfOk result (λ found. IfSome found (λ flat. IsReshaped (par (trees parts.now)) (tree flat))) }
{
    if parts.is_empty() {
        return Ok(None);
    }
    let front = parts.len() - 1;
    let mut spread = Spread {
        chans: Scope::new(alloc),
        parts: Procs::new(alloc),
        names: NameSet::new(alloc),
    };
    spread.push_all(alloc, &parts[..front])?;
    let mut last = &parts[front];
    let mut is_other = false;
    while let Some(next) = spread.next(alloc, last)? {
        last = next;
        is_other = true;
    }
    if !is_other {
        return Ok(None);
    }
    let whole = spread.with_last(alloc, last)?;
    Ok(Some(whole))
}

/// The process with one PAR in the place of a PAR, another in its last part, one in the last part of that, and so on, each
/// perhaps within declarations of channels, which then stand round the one PAR. None where the process within its own
/// declarations is no PAR in whose last part a PAR stands so. A channel whose name is declared in a part beside it stays where
/// it is.
pub fn last_flattened(alloc: Global, part: &Proc) -> Result<Option<Proc>, Memory>
    ensures { IfOk result (λ found. IfSome found (λ flat. IsReshaped (tree part.now) (tree flat))) }
{
    let mut declarations = Scope::new(alloc);
    let mut body = part;
    while let Some((name, kind, inside)) = body.declared() {
        declarations.push((name, kind))?;
        body = inside;
    }
    let Proc::Par(parts) = body else {
        return Ok(None);
    };
    if !has_nested(parts.items()) {
        return Ok(None);
    }
    let Some(flat) = flat(alloc, parts.items())? else {
        return Ok(None);
    };
    let whole = flat.within(alloc, declarations.items())?;
    Ok(Some(whole))
}
