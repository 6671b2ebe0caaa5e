ghost use Rattle.std.specs.Prelude.{◌≡◌, ◌⊎◌, ℕ, false, true, IfOk, IfSome, OnOk};
ghost use Rattle.occ_meaning.specs.Parallel.{all_of, one};
ghost use Rattle.occ_syntax.specs.Names.{free as is_free, is_in};
ghost use Rattle.occ_syntax.specs.Tree.{Trees, no_tree, par, seq};
ghost use Rattle.occ_syntax.specs.View.{in_procs, numbers, tree, trees};
ghost use Rattle.occ_norm_arrange.specs.Arranged.{IsArranged};
ghost use Rattle.occ_norm_arrange.specs.Split.{IsSplit};
ghost use Rattle.occ_norm_arrange.specs.Straight.{straight};

use crate::names::{has_any, note_all};
use crate::straight::is_straight;
use occ_names::{NameSet, free, written};
use occ_syntax::{Memory, Name, Proc, Procs};
use std::alloc::Global;

// The parts of a PAR so far: the straight ones, which go in front, and the others; the names that the former write, and those that
// are free in any.
#[derive(Drop)]
struct Split {
    front: Procs,
    others: Procs,
    writes: NameSet,
    names: NameSet,
}

impl Split {
    fn new(alloc: Global) -> Split
        ensures { IsSplit no_tree (trees (in_procs result.front)) (trees (in_procs result.others)) result.writes result.names }
    {
        Split {
            front: Procs::new(alloc),
            others: Procs::new(alloc),
            writes: NameSet::new(alloc),
            names: NameSet::new(alloc),
        }
    }

    // Puts a straight part behind those in front, if none of its variables stands free in another; its free names are given.
    fn add_straight(&mut self, alloc: Global, part: &Proc, names: &[Name]) -> Result<bool, Memory>
        requires straight { straight (tree part.now) ≡ true }
        requires free { (x : ℕ) → is_in (numbers names.now) x ≡ is_free (tree part.now) x }
        requires off { (x : ℕ) → (is_in self.old.writes x ≡ false) ⊎ (is_free (tree part.now) x ≡ false) }
        ensures { IfOk result (λ fits. fits ≡ true → (ps : Trees)
            → IsSplit ps (trees (in_procs self.old.front)) (trees (in_procs self.old.others)) self.old.writes self.old.names
            → IsSplit (all_of ps (one (tree part.now))) (trees (in_procs self.new.front)) (trees (in_procs self.new.others))
            self.new.writes self.new.names) }
    {
        let own = written(alloc, part)?;
        if has_any(own.as_slice(), &self.names) {
            return Ok(false);
        }
        note_all(&mut self.writes, own.as_slice())?;
        note_all(&mut self.names, names)?;
        self.front.push(part.copy(alloc)?)?;
        Ok(true)
    }

    // Puts another part behind the others; its free names are given.
    fn add_other(&mut self, alloc: Global, part: &Proc, names: &[Name]) -> Result<bool, Memory>
        requires free { (x : ℕ) → is_in (numbers names.now) x ≡ is_free (tree part.now) x }
        requires off { (x : ℕ) → (is_in self.old.writes x ≡ false) ⊎ (is_free (tree part.now) x ≡ false) }
        ensures { IfOk result (λ fits. fits ≡ true → (ps : Trees)
            → IsSplit ps (trees (in_procs self.old.front)) (trees (in_procs self.old.others)) self.old.writes self.old.names
            → IsSplit (all_of ps (one (tree part.now))) (trees (in_procs self.new.front)) (trees (in_procs self.new.others))
            self.new.writes self.new.names) }
    {
        note_all(&mut self.names, names)?;
        self.others.push(part.copy(alloc)?)?;
        Ok(true)
    }

    // Adds a part, if no variable that a straight one of both writes stands free in the other.
    fn add(&mut self, alloc: Global, part: &Proc) -> Result<bool, Memory>
        ensures { IfOk result (λ fits. fits ≡ true → (ps : Trees)
            → IsSplit ps (trees (in_procs self.old.front)) (trees (in_procs self.old.others)) self.old.writes self.old.names
            → IsSplit (all_of ps (one (tree part.now))) (trees (in_procs self.new.front)) (trees (in_procs self.new.others))
            self.new.writes self.new.names) }
    {
        let found = free(alloc, part)?;
        let names = found.as_slice();
        if has_any(names, &self.writes) {
            return Ok(false);
        }
        if is_straight(part) {
            return self.add_straight(alloc, part, names);
        }
        self.add_other(alloc, part, names)
    }

    // The parts in front, and behind them the PAR of the others, if there are any.
    fn in_turn(self, alloc: Global) -> Result<Procs, Memory>
        ensures { IfOk result (λ r. (ps : Trees)
            → IsSplit ps (trees (in_procs self.front)) (trees (in_procs self.others)) self.writes self.names
            → IsArranged (par ps) (seq (trees (in_procs r)))) }
    {
        let Split {
            mut front,
            others,
            writes: _,
            names: _,
        } = self;
        if others.items().is_empty() {
            return Ok(front);
        }
        front.push(together(alloc, others)?)?;
        Ok(front)
    }
}

// The PAR of some parts; of one part that part.
fn together(alloc: Global, parts: Procs) -> Result<Proc, Memory>
    ensures { IfOk result (λ p. IsArranged (par (trees (in_procs parts))) (tree p)) }
{
    let items = parts.items();
    if items.len() == 1 {
        return items[0].copy(alloc);
    }
    Ok(Proc::Par(parts))
}

// The parts of a PAR split, if they are apart.
fn parted(alloc: Global, parts: &[Proc]) -> Result<Option<Split>, Memory>
    ensures { IfOk result (λ found. IfSome found (λ r.
        IsSplit (trees parts.now) (trees (in_procs r.front)) (trees (in_procs r.others)) r.writes r.names)) }
{
    let mut split = Split::new(alloc);
    for part in parts {
        let fits = split.add(alloc, part)?;
        if !fits {
            return Ok(None);
        }
    }
    Ok(Some(split))
}

/// The straight parts of a PAR in front, and behind them the PAR of the others: parts that do in turn what the parts of the PAR
/// do at the same time. None where none of the parts is straight, or a straight one writes a variable that stands free in another.
pub fn front_in_turn(alloc: Global, parts: &[Proc]) -> Result<Option<Procs>, Memory>
    ensures { IfOk result (λ found. IfSome found (λ r. IsArranged (par (trees parts.now)) (seq (trees (in_procs r))))) }
{
    if !parts.iter().any(|part| is_straight(part)) {
        return Ok(None);
    }
    let Some(split) = parted(alloc, parts)? else {
        return Ok(None);
    };
    let list = split.in_turn(alloc)?;
    Ok(Some(list))
}
