ghost use Rattle.std.specs.Prelude.{◌≡◌, ◌⊎◌, ◌∷◌, [], ◌≤◌, ◌<◌, ◌+◌, Ok, Err, None, length, IfOk, IfErr};
ghost use Rattle.std.specs.List.{AllByRecursion};
ghost use Rattle.occ_nform_table.specs.occ_lex.Rows.{rows};
ghost use Rattle.occ_syntax.specs.Counts.{bits_of_scope};
ghost use Rattle.occ_nform_table.specs.Judging.{rows_marks};
ghost use Rattle.occ_nform_table.specs.Normal.{behind_params, is_whole, judged, line_at, table_fault, text_read};
ghost use Rattle.occ_nform_table.specs.Reading.{params_in};
ghost use Rattle.occ_nform_table.specs.Tables.{IsInterface, AreRowsOf};
ghost use Rattle.occ_nform_read.specs.Found.{IsRead};

use crate::judge;
use crate::reading::first_line;
use crate::sections::{params_in, rows_in, states_in};
use occ_nform_table::{Table, TableFault, interface_bits};
use occ_syntax::{Kind, Memory, Name, Names};
use std::alloc::Global;

// How many lines a text has.
fn count_of(text: &[u8]) -> u32
    requires { length (rows text.now) ≤ 67108864 }
    ensures { result ≡ length (rows text.now) }
{
    let mut count: u32 = 0;
    let mut rest = text;
    while let Some((_, after)) = first_line(rest) {
        count += 1;
        rest = after;
    }
    count
}

// The line of a text at which a rest of it is left.
fn line_at(text: &[u8], rest: &[u8]) -> u32
    requires text { length (rows text.now) ≤ 67108864 }
    requires rest { length (rows rest.now) ≤ 67108864 }
    ensures { result ≡ line_at (length (rows text.now)) (length (rows rest.now)) }
{
    let all = count_of(text);
    match count_of(rest) {
        0 => all.max(1),
        left => all.saturating_sub(left - 1),
    }
}

// Whether each initial state has its row, and no line is left.
fn is_whole(params: &[(Name, Kind)], states: &[u32], rest: &[u8]) -> bool
    requires { bits_of_scope params.now ≤ 16 }
    ensures { result ≡ is_whole params.now (states.now, rows rest.now) }
{
    states.len() == 1 << interface_bits(params) && rest.is_empty()
}

// The table, or its fault.
fn judged(alloc: Global, names: &Names, table: Table) -> Result<Result<Table, TableFault>, Memory>
    requires interface { IsInterface names.now table.params }
    requires rows { AreRowsOf table.params 0 table.rows }
    requires lines { 2 + length table.params + length (rows_marks names.now table.params [] None table.rows) ≤ 4294967295 }
    requires states { AllByRecursion (λ n. n < length table.rows) table.states }
    ensures { IfOk result (λ found. IsRead names.now found
        (judged (record { names = names.now; params = table.params; rows = table.rows; states = table.states })
        (table_fault (record { names = names.now; params = table.params; rows = table.rows; states = table.states })))) }
{
    match judge(
        alloc,
        names,
        table.params.items(),
        table.rows.items(),
        table.states.items(),
    )? {
        Some(fault) => Ok(Err(fault)),
        None => Ok(Ok(table)),
    }
}

// What a text is read as, by the lines behind its version line.
fn behind_version(
    alloc: Global,
    names: &mut Names,
    text: &[u8],
    lines: &[u8],
) -> Result<Result<Table, TableFault>, Memory>
    requires short { length (rows text.now) ≤ 67108864 }
    requires behind { length (rows text.now) ≡ 1 + length (rows lines.now) }
    ensures { IfOk result (λ found. IsRead names.new found (behind_params (length (rows text.now)) (params_in names.old [] (rows lines.now)))) }
{
    let (params, rest) = params_in(alloc, names, lines)?;
    let (found, rest) = rows_in(alloc, names, params.items(), rest)?;
    let n = found.items().len() as u64;
    let (states, rest) = states_in(alloc, params.items(), n, rest)?;
    if !is_whole(params.items(), states.items(), rest) {
        let line = line_at(text, rest);
        return Ok(Err(TableFault::Form { line }));
    }
    let table = Table {
        params,
        rows: found,
        states,
    };
    judged(alloc, names, table)
}

// What a text is read as.
fn found_in(
    alloc: Global,
    names: &mut Names,
    text: &[u8],
) -> Result<Result<Table, TableFault>, Memory>
    requires { length text.now ≤ 67108864 }
    ensures { IfOk result (λ found. IsRead names.new found (text_read names.old text.now)) }
{
    let Some((version, lines)) = first_line(text) else {
        return Ok(Err(TableFault::Form { line: 1 }));
    };
    if version != b"occam-normal 1\n".as_slice() {
        return Ok(Err(TableFault::Form { line: 1 }));
    }
    behind_version(alloc, names, text, lines)
}

/// The table that a normal text writes. Its parameters' names are put into the table of names, which may hold some of
/// them after a fault too.
///
/// A text of more than 64 MiB isn't read here: its lines are numbered by 32 bits.
///
/// # Errors
/// Where the text isn't normal, its first fault: a line that hasn't the form for its place, else a line that is out of
/// order or no least acceptance, else an empty row, else a row that isn't reached. `Memory` comes where memory runs out.
pub fn read(alloc: Global, names: &mut Names, text: &[u8]) -> Result<Table, TableFault>
    requires { length text.now ≤ 67108864 }
    ensures found { IfOk result (λ t. text_read names.old text.now ≡ Ok (record { names = names.new; params = t.params; rows = t.rows; states = t.states })) }
    ensures refused { IfErr result (λ fault. (text_read names.old text.now ≡ Err fault) ⊎ (fault ≡ TableFault.Memory)) }
{
    match found_in(alloc, names, text) {
        Ok(found) => found,
        Err(Memory) => Err(TableFault::Memory),
    }
}
