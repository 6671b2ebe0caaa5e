ghost use Rattle.std.specs.Prelude.{◌≡◌, ◌++◌, ◌∷◌, decimal, IfOk, OnOk};
ghost use Rattle.std.specs.List.{flat_map};
ghost use Rattle.occ_tool_run.specs.occ_behaviour.Members.{AreNamed};
ghost use Rattle.occ_tool_run.specs.occ_behaviour.Texts.{state_text};
ghost use Rattle.occ_tool_run.specs.occ_nform_table.Rows.{AcceptsAreNamed, OffersAreNamed, RowIsNamed};
ghost use Rattle.occ_draw.specs.Adding.{AreNamedEdges};
ghost use Rattle.occ_draw.specs.Edges.{edges_of};
ghost use Rattle.occ_draw.specs.Pictures.{accept_line, edge_text, ends_line, node_text, row_label, row_text, states_text};

use crate::edges::{Edge, edges};
use crate::spans::push_events;
use crate::strings::push_quoted;
use itoa::Buffer;
use occ_syntax::{Event, Events, Memory, Names, State};
use occ_tool_run::{TableRow, push_state};
use std::alloc::Global;

/// Adds a row: its node and its edges.
pub(crate) fn push_row(
    alloc: Global,
    text: &mut Vec<u8>,
    names: &Names,
    number: u64,
    row: &TableRow,
) -> Result<(), Memory>
    requires { RowIsNamed names.now row.now }
    ensures { OnOk result (text.new.items ≡ text.old.items ++ row_text names.now number row.now) }
{
    push_node(alloc, text, names, number, row)?;
    push_edges(alloc, text, names, number, row.offers.items())
}

fn push_node(
    alloc: Global,
    text: &mut Vec<u8>,
    names: &Names,
    number: u64,
    row: &TableRow,
) -> Result<(), Memory>
    requires { RowIsNamed names.now row.now }
    ensures { OnOk result (text.new.items ≡ text.old.items ++ node_text names.now number row.now) }
{
    let label = row_label(alloc, names, number, row)?;
    text.extend_from_slice(b"  r")?;
    push_number(text, number)?;
    text.extend_from_slice(b" [label=")?;
    push_quoted(text, label.as_slice())?;
    text.extend_from_slice(b"];\n")?;
    Ok(())
}

// The label of a row: its number, its final states and its acceptances, a line each.
fn row_label(alloc: Global, names: &Names, number: u64, row: &TableRow) -> Result<Vec<u8>, Memory>
    requires { RowIsNamed names.now row.now }
    ensures { IfOk result (λ label. label.items ≡ row_label names.now number row.now) }
{
    let mut label = Vec::new(alloc);
    label.extend_from_slice(b"ROW ")?;
    push_number(&mut label, number)?;
    push_ends(&mut label, row.ends.items())?;
    push_accepts(&mut label, names, row.accepts.items())?;
    Ok(label)
}

fn push_ends(label: &mut Vec<u8>, ends: &[State]) -> Result<(), Memory>
    ensures { OnOk result (label.new.items ≡ label.old.items ++ ends_line ends.now) }
{
    if ends.is_empty() {
        return Ok(());
    }
    label.extend_from_slice(b"\nEND ")?;
    push_states(label, ends)
}

/// Adds states, with one space between.
pub(crate) fn push_states(text: &mut Vec<u8>, states: &[State]) -> Result<(), Memory>
    ensures { OnOk result (text.new.items ≡ text.old.items ++ states_text states.now) }
{
    match states {
        [] => Ok(()),
        [first, rest @ ..] => {
            push_state(text, first.items())?;
            push_spaced_states(text, rest)
        }
    }
}

fn push_spaced_states(text: &mut Vec<u8>, states: &[State]) -> Result<(), Memory>
    ensures { OnOk result (text.new.items ≡ text.old.items ++ flat_map (λ s. 32 ∷ state_text s) states.now) }
{
    for state in states {
        text.push(b' ')?;
        push_state(text, state.items())?;
    }
    Ok(())
}

fn push_accepts(label: &mut Vec<u8>, names: &Names, accepts: &[Events]) -> Result<(), Memory>
    requires { AcceptsAreNamed names.now accepts.now }
    ensures { OnOk result (label.new.items ≡ label.old.items ++ flat_map (accept_line names.now) accepts.now) }
{
    for set in accepts {
        push_accept(label, names, set.items())?;
    }
    Ok(())
}

fn push_accept(label: &mut Vec<u8>, names: &Names, set: &[Event]) -> Result<(), Memory>
    requires { AreNamed names.now set.now }
    ensures { OnOk result (label.new.items ≡ label.old.items ++ accept_line names.now set.now) }
{
    label.extend_from_slice(b"\nACCEPT {")?;
    push_events(label, names, set)?;
    label.extend_from_slice(b"}")?;
    Ok(())
}

fn push_edges(
    alloc: Global,
    text: &mut Vec<u8>,
    names: &Names,
    number: u64,
    offers: &[(Event, u32)],
) -> Result<(), Memory>
    requires { OffersAreNamed names.now offers.now }
    ensures { OnOk result (text.new.items ≡ text.old.items ++ flat_map (edge_text names.now number) (edges_of offers.now)) }
{
    let edges = edges(alloc, offers)?;
    push_all(alloc, text, names, number, edges.as_slice())
}

fn push_all(
    alloc: Global,
    text: &mut Vec<u8>,
    names: &Names,
    number: u64,
    edges: &[Edge],
) -> Result<(), Memory>
    requires { AreNamedEdges names.now edges.now }
    ensures { OnOk result (text.new.items ≡ text.old.items ++ flat_map (edge_text names.now number) edges.now) }
{
    for edge in edges {
        push_edge(alloc, text, names, number, edge)?;
    }
    Ok(())
}

fn push_edge(
    alloc: Global,
    text: &mut Vec<u8>,
    names: &Names,
    number: u64,
    edge: &Edge,
) -> Result<(), Memory>
    requires { AreNamed names.now edge.now.events }
    ensures { OnOk result (text.new.items ≡ text.old.items ++ edge_text names.now number edge.now) }
{
    let mut label = Vec::new(alloc);
    push_events(&mut label, names, edge.events.items())?;
    text.extend_from_slice(b"  r")?;
    push_number(text, number)?;
    text.extend_from_slice(b" -> r")?;
    push_number(text, u64::from(edge.offer.1))?;
    text.extend_from_slice(b" [label=")?;
    push_quoted(text, label.as_slice())?;
    text.extend_from_slice(b"];\n")?;
    Ok(())
}

/// Adds a number in decimal.
pub(crate) fn push_number(text: &mut Vec<u8>, number: u64) -> Result<(), Memory>
    ensures { OnOk result (text.new.items ≡ text.old.items ++ decimal number) }
{
    let mut buffer = Buffer::new();
    text.extend_from_slice(buffer.format(number).as_bytes())?;
    Ok(())
}
