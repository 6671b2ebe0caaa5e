ghost use Rattle.std.specs.Prelude.{◌≡◌, ◌<◌, ◌≤◌, ◌+◌, ℕ, IfSome, IsSome, map, true};
ghost use Rattle.std.specs.List.{list_all, range_with_len};
ghost use Rattle.occ_law.specs.Numbers.{is_row, first_of, last_of, lists, lists_of, number};

use crate::table::{LawId, ROWS};

/// A law by its name. The numbers follow the order of the table, from 1.
#[derive(Clone, Copy)]
pub enum Law {
    SeqNone = 1,
    SeqOne,
    SeqFlat,
    SeqSkip,
    SeqStop,
    AssignId,
    AssignOrder,
    AssignPad,
    AssignJoin,
    AssignIf,
    AssignAlt,
    SeqIf,
    SeqAlt,
    Expr,
    IoAlt,
    IfNone,
    IfFalse,
    IfTrue,
    IfElseStop,
    IfCut,
    IfNest,
    IfSwap,
    IfMerge,
    IfCopy,
    IfUnder,
    AltNone,
    AltOrder,
    AltFalse,
    AltTwice,
    AltSkip,
    AltCase,
    AltFlat,
    AltSplit,
    AltSame,
    AltSlide,
    AltLeast,
    ParNone,
    ParOne,
    ParFlat,
    ParOrder,
    ParSkip,
    ParStop,
    ParAssign,
    ParIf,
    ParExpand,
    VarUnused,
    VarRename,
    VarSwap,
    VarFirst,
    VarLast,
    VarIf,
    VarAlt,
    VarPar,
    VarAny,
    VarAssign,
    VarEnd,
    ChanUnused,
    ChanRename,
    ChanSwap,
    ChanSeq,
    ChanIf,
    ChanAlt,
    ChanPar,
}

/// The laws that stand together in the table.
#[derive(Clone, Copy)]
pub enum Family {
    /// Of SEQ, of assignment, and of communication as choice: from seq-none to io-alt.
    Seq,
    /// Of IF: from if-none to if-under.
    If,
    /// Of ALT: from alt-none to alt-least.
    Alt,
    /// Of PAR: from par-none to par-expand.
    Par,
    /// Of declarations: from var-unused to chan-par.
    Scope,
}

/// Where a law changes a part: each place has so many lists in front.
#[derive(Clone, Copy)]
pub enum Changes {
    /// The part as a whole, or it has no result of its own.
    Whole,
    /// Behind so many items.
    Behind,
    /// Behind so many items, and then behind so many more.
    Between,
}

/// What the table says of a law.
#[derive(Clone, Copy)]
pub(crate) struct Row {
    pub(crate) law: Law,
    pub(crate) family: Family,
    pub(crate) changes: Changes,
}

impl LawId {
    /// The law of that number; None exactly where no law has it.
    pub fn law(self) -> Option<Law>
        ensures numbered { IfSome result (λ law. number law ≡ self.0) }
        ensures total { 1 ≤ self.0 → self.0 ≤ 63 → IsSome result }
    {
        if self.0 == 0 || self.0 > 63 {
            return None;
        }
        Some(row_at(&ROWS, usize::from(self.0) - 1).law)
    }
}

impl Law {
    /// The law's number.
    pub fn id(self) -> LawId
        ensures number { result.0 ≡ number self }
        ensures first { 1 ≤ result.0 }
        ensures last { result.0 ≤ 63 }
    {
        LawId(self as u8)
    }

    /// The family in which the law stands.
    pub fn family(self) -> Family
        ensures first { first_of result ≤ number self }
        ensures last { number self ≤ last_of result }
    {
        self.row().family
    }

    /// Where the law changes a part.
    pub fn changes(self) -> Changes
        ensures { lists result ≡ lists_of (number self) }
    {
        self.row().changes
    }

    /// What the table says of the law.
    fn row(self) -> Row
        ensures law { number result.law ≡ number self }
        ensures kept { is_row result ≡ true }
    {
        row_at(&ROWS, usize::from(self.id().0) - 1)
    }
}

/// The row at a place of the table, counted from 0.
fn row_at(rows: &[Row], place: usize) -> Row
    requires numbers { map (λ row. number row.law) rows.now ≡ range_with_len 1 63 }
    requires kept { list_all is_row rows.now ≡ true }
    requires place { place < 63 }
    ensures law { number result.law ≡ place + 1 }
    ensures kept { is_row result ≡ true }
{
    rows[place]
}
