ghost use Rattle.std.specs.Prelude.{◌≡◌, ◌++◌, ◌∷◌, IfOk, None, OnOk, [], cond, if◌then◌else◌};
ghost use Rattle.indexmap.specs.IndexMap.{get};
ghost use Rattle.occ_syntax.specs.occ_base.declared.names.Name.{Name};
ghost use Rattle.occ_run.specs.Tables.{HaveMore, Lists, row_at, row_of, same_name};

use crate::run::Run;
use indexmap::IndexMap;
use occ_syntax::{Memory, Name};
use std::alloc::Global;

/// Runs by the channels that they are on. Those of one channel stand in the order in which they came.
#[derive(Drop)]
pub(crate) struct Table {
    rows: IndexMap<Name, Vec<Run>>,
}

impl Table {
    /// The table without runs.
    pub(crate) fn new(alloc: Global) -> Table
        ensures { (c : Name) → row_of (get same_name result.rows c) ≡ [] }
    {
        Table {
            rows: IndexMap::new(alloc),
        }
    }

    /// Adds runs.
    pub(crate) fn add_all(&mut self, alloc: Global, runs: &[Run]) -> Result<(), Memory>
        ensures { OnOk result (HaveMore (get same_name self.old.rows) (get same_name self.new.rows) runs.now) }
    {
        for run in runs {
            self.add(alloc, *run)?;
        }
        Ok(())
    }

    /// Adds a run.
    fn add(&mut self, alloc: Global, run: Run) -> Result<(), Memory>
        ensures { OnOk result (HaveMore (get same_name self.old.rows) (get same_name self.new.rows) (run ∷ [])) }
    {
        match run {
            Run::Unseen => {}
            Run::Sends(chan, _) => self.note(alloc, chan, run)?,
            Run::Takes(chan, _) => self.note(alloc, chan, run)?,
        }
        Ok(())
    }

    /// Adds a run that is on a channel.
    fn note(&mut self, alloc: Global, chan: Name, run: Run) -> Result<(), Memory>
        ensures { OnOk result ((c : Name) → row_of (get same_name self.new.rows c)
            ≡ row_of (get same_name self.old.rows c) ++ (if same_name chan c then run ∷ [] else [])) }
    {
        let mut row = self.take_row(alloc, chan);
        row.push(run)?;
        self.rows.insert(chan, row)?;
        Ok(())
    }

    /// Takes the runs on a channel out.
    fn take_row(&mut self, alloc: Global, chan: Name) -> Vec<Run>
        ensures row { result.items ≡ row_of (get same_name self.old.rows chan) }
        ensures others { (c : Name) → get same_name self.new.rows c ≡ cond (same_name chan c) None (get same_name self.old.rows c) }
    {
        match self.rows.swap_remove(&chan) {
            Some(row) => row,
            None => Vec::new(alloc),
        }
    }

    /// The runs on a channel.
    fn row(&self, chan: Name) -> &[Run]
        ensures { result.now ≡ row_of (get same_name self.now.rows chan) }
    {
        match self.rows.get(&chan) {
            Some(row) => row,
            None => &[],
        }
    }

    /// The runs on the channel of a run.
    pub(crate) fn row_for(&self, run: Run) -> &[Run]
        ensures { result.now ≡ row_at (get same_name self.now.rows) run }
    {
        match run {
            Run::Unseen => &[],
            Run::Sends(chan, _) => self.row(chan),
            Run::Takes(chan, _) => self.row(chan),
        }
    }
}

/// The table of some runs.
pub(crate) fn table_of(alloc: Global, runs: &[Run]) -> Result<Table, Memory>
    ensures { IfOk result (λ table. Lists (get same_name table.rows) runs.now) }
{
    let mut table = Table::new(alloc);
    table.add_all(alloc, runs)?;
    Ok(table)
}
