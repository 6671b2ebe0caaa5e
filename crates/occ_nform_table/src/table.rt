use occ_lex::{Event, Events, List, Memory, State};
use occ_syntax::Scope;
use thiserror::Error;

/// The END states of a row, in the order of its lines.
pub type States = List<State>;

/// The ACCEPT sets of a row, in the order of its lines.
pub type EventSets = List<Events>;

/// The offers of a row, in the order of its lines: each event with the number of the row behind it.
pub type TableOffers = List<(Event, u32)>;

/// A row of a table.
#[derive(Debug, Drop)]
pub struct TableRow {
    pub ends: States,
    pub accepts: EventSets,
    pub offers: TableOffers,
}

/// The rows of a table, numbered from 0.
pub type TableRows = List<TableRow>;

/// For each initial state in order the number of its row.
pub type RowNumbers = List<u32>;

/// A normal text as a table: the parameters, the rows, and the row of each initial state.
#[derive(Debug, Drop)]
pub struct Table {
    pub params: Scope,
    pub rows: TableRows,
    pub states: RowNumbers,
}

/// Why a text isn't a normal one.
#[derive(Clone, Copy, Debug, PartialEq, Eq, Error)]
pub enum TableFault {
    /// The least line that isn't of the form for its place.
    #[error("line {line}: not of the form for its place")]
    Form { line: u32 },
    /// The least line of a list that isn't after the line before it, or ROW line whose row isn't after the one before.
    #[error("line {line}: out of order")]
    Order { line: u32 },
    /// The least ACCEPT line whose set isn't within the offers of its row or contains another of its sets.
    #[error("line {line}: not a least acceptance")]
    NotLeast { line: u32 },
    /// The least row without END and ACCEPT.
    #[error("row {row}: empty")]
    Empty { row: u32 },
    /// The least row that isn't reached from a STATE line.
    #[error("row {row}: not reached")]
    Unreached { row: u32 },
    /// Want of memory.
    #[error("out of memory")]
    Memory,
}

impl From<Memory> for TableFault {
    fn from(_cause: Memory) -> TableFault {
        TableFault::Memory
    }
}
