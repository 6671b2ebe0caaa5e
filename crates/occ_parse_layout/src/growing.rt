ghost use Rattle.occ_parse_rules.specs.Forest.{forest, in_nodes, lines_at};
ghost use Rattle.occ_parse_layout.specs.Layout.{laid_rows};
ghost use Rattle.occ_parse_layout.specs.Nesting.{IsAbove, Nest, Takes, left};
ghost use Rattle.std.specs.Prelude.{◌≡◌, ◌≤◌, ◌<◌, ◌++◌, ℕ, IfOk, MatchOption, OnOk, vec_len};

use crate::Placed;
use occ_parse_rules::{Memory, Node, Nodes};
use std::alloc::Global;

/// Takes the next line where that is at the level. The rows lie the other way round, the next one last.
fn next_at(rows: &mut Vec<Placed>, level: u64) -> Option<Placed>
    ensures takes { Takes level (left rows.old.items) result (left rows.new.items) }
    ensures shorter { MatchOption result (vec_len rows.new ≡ vec_len rows.old) (λ row. vec_len rows.new < vec_len rows.old) }
{
    let len = rows.len();
    if len == 0 || u64::from(rows[len - 1].level) != level {
        return None;
    }
    rows.pop()
}

/// Takes the next lines at the level, each with the lines below it.
fn siblings(alloc: Global, rows: &mut Vec<Placed>, level: u64) -> Result<Nodes, Memory>
    ensures lines { IfOk result (λ nodes. left rows.old.items ≡ lines_at level (forest (in_nodes nodes)) ++ left rows.new.items) }
    ensures nest { OnOk result ((base : ℕ) → Nest base level (left rows.old.items) → IsAbove level (left rows.new.items) × Nest base level (left rows.new.items)) }
    ensures shorter { vec_len rows.new ≤ vec_len rows.old }
{
    let mut nodes = Nodes::new(alloc);
    while let Some(row) = next_at(rows, level) {
        let below = siblings(alloc, rows, u64::from(row.level) + 1)?;
        nodes.push(Node::new(row.number, row.form, below))?;
    }
    Ok(nodes)
}

/// The forest of lines. The first of them is at the level `base`, none is at a smaller one, and none is more than one level
/// deeper than the line before.
pub fn grown(alloc: Global, rows: Vec<Placed>, base: u32) -> Result<Nodes, Memory>
    requires { Nest base base (laid_rows rows.items) }
    ensures { IfOk result (λ nodes. lines_at base (forest (in_nodes nodes)) ≡ laid_rows rows.items) }
{
    let mut rows = rows;
    rows.reverse();
    siblings(alloc, &mut rows, u64::from(base))
}
