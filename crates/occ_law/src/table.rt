ghost use Rattle.std.specs.Prelude.{◌≡◌, ◌<◌, ◌≤◌, ◌↔◌, ℕ, List, Some, IfSome, IsTrue, length, map, slice_get};
ghost use Rattle.occ_law.specs.declared.table.LawId.{LawId};
ghost use Rattle.occ_law.specs.Table.{IsNamed, law_names};

use crate::variants::{Changes, Family, Law, Row};

/// So many names of laws, in the order of their numbers.
#[derive(Clone, Copy)]
pub struct Cases<const N: usize> {
    pub names: [&'static str; N],
}

/// A law by its number, from 1 to 63: its place in the table, counted from 1.
#[derive(Clone, Copy, Debug, PartialEq, Eq, PartialOrd, Ord, Hash)]
pub struct LawId(pub u8);

/// The table of the laws in the order of their numbers: a law, its name, its family, and where it changes a part.
macro_rules! laws {
    ($column:ident) => {
        [
            $column!(SeqNone, "seq-none", Seq, Whole),
            $column!(SeqOne, "seq-one", Seq, Whole),
            $column!(SeqFlat, "seq-flat", Seq, Behind),
            $column!(SeqSkip, "seq-skip", Seq, Behind),
            $column!(SeqStop, "seq-stop", Seq, Behind),
            $column!(AssignId, "assign-id", Seq, Whole),
            $column!(AssignOrder, "assign-order", Seq, Whole),
            $column!(AssignPad, "assign-pad", Seq, Whole),
            $column!(AssignJoin, "assign-join", Seq, Whole),
            $column!(AssignIf, "assign-if", Seq, Whole),
            $column!(AssignAlt, "assign-alt", Seq, Whole),
            $column!(SeqIf, "seq-if", Seq, Whole),
            $column!(SeqAlt, "seq-alt", Seq, Whole),
            $column!(Expr, "expr", Seq, Whole),
            $column!(IoAlt, "io-alt", Seq, Whole),
            $column!(IfNone, "if-none", If, Whole),
            $column!(IfFalse, "if-false", If, Behind),
            $column!(IfTrue, "if-true", If, Whole),
            $column!(IfElseStop, "if-else-stop", If, Behind),
            $column!(IfCut, "if-cut", If, Behind),
            $column!(IfNest, "if-nest", If, Behind),
            $column!(IfSwap, "if-swap", If, Behind),
            $column!(IfMerge, "if-merge", If, Behind),
            $column!(IfCopy, "if-copy", If, Whole),
            $column!(IfUnder, "if-under", If, Behind),
            $column!(AltNone, "alt-none", Alt, Whole),
            $column!(AltOrder, "alt-order", Alt, Whole),
            $column!(AltFalse, "alt-false", Alt, Behind),
            $column!(AltTwice, "alt-twice", Alt, Between),
            $column!(AltSkip, "alt-skip", Alt, Whole),
            $column!(AltCase, "alt-case", Alt, Behind),
            $column!(AltFlat, "alt-flat", Alt, Behind),
            $column!(AltSplit, "alt-split", Alt, Behind),
            $column!(AltSame, "alt-same", Alt, Between),
            $column!(AltSlide, "alt-slide", Alt, Behind),
            $column!(AltLeast, "alt-least", Alt, Whole),
            $column!(ParNone, "par-none", Par, Whole),
            $column!(ParOne, "par-one", Par, Whole),
            $column!(ParFlat, "par-flat", Par, Behind),
            $column!(ParOrder, "par-order", Par, Whole),
            $column!(ParSkip, "par-skip", Par, Behind),
            $column!(ParStop, "par-stop", Par, Whole),
            $column!(ParAssign, "par-assign", Par, Whole),
            $column!(ParIf, "par-if", Par, Whole),
            $column!(ParExpand, "par-expand", Par, Whole),
            $column!(VarUnused, "var-unused", Scope, Whole),
            $column!(VarRename, "var-rename", Scope, Whole),
            $column!(VarSwap, "var-swap", Scope, Whole),
            $column!(VarFirst, "var-first", Scope, Whole),
            $column!(VarLast, "var-last", Scope, Whole),
            $column!(VarIf, "var-if", Scope, Whole),
            $column!(VarAlt, "var-alt", Scope, Whole),
            $column!(VarPar, "var-par", Scope, Whole),
            $column!(VarAny, "var-any", Scope, Whole),
            $column!(VarAssign, "var-assign", Scope, Whole),
            $column!(VarEnd, "var-end", Scope, Whole),
            $column!(ChanUnused, "chan-unused", Scope, Whole),
            $column!(ChanRename, "chan-rename", Scope, Whole),
            $column!(ChanSwap, "chan-swap", Scope, Whole),
            $column!(ChanSeq, "chan-seq", Scope, Whole),
            $column!(ChanIf, "chan-if", Scope, Whole),
            $column!(ChanAlt, "chan-alt", Scope, Whole),
            $column!(ChanPar, "chan-par", Scope, Whole),
        ]
    };
}

macro_rules! name_of {
    ($law:ident, $name:expr, $family:ident, $changes:ident) => {
        $name
    };
}

macro_rules! row_of {
    ($law:ident, $name:expr, $family:ident, $changes:ident) => {
        Row {
            law: Law::$law,
            family: Family::$family,
            changes: Changes::$changes,
        }
    };
}

/// The names of all laws.
pub const TABLE: Cases<63> = Cases {
    names: laws!(name_of),
};

/// What the table says of each law beside its name.
pub(crate) const ROWS: [Row; 63] = laws!(row_of);

/// The law of that name; None exactly where the table doesn't have the name. It takes no memory.
pub fn find(name: &[u8]) -> Option<LawId>
    ensures named { IfSome result (λ law. IsNamed law name.now) }
    ensures found { (law : LawId) → IsNamed law name.now → result ≡ Some law }
{
    find_among(&TABLE.names, name)
}

fn find_among(names: &[&'static str], name: &[u8]) -> Option<LawId>
    requires { map (λ text. text.now) names.now ≡ law_names }
    ensures named { IfSome result (λ law. IsNamed law name.now) }
    ensures found { (law : LawId) → IsNamed law name.now → result ≡ Some law }
{
    for place in 0..63u8 {
        if is_same(text_at(names, place).as_bytes(), name) {
            return Some(LawId(place + 1));
        }
    }
    None
}

fn is_same(left: &[u8], right: &[u8]) -> bool
    ensures { IsTrue result ↔ (left.now ≡ right.now) }
{
    left == right
}

/// The name of a law. It takes no memory.
pub fn name(law: LawId) -> &'static str
    requires low { 1 ≤ law.0 }
    requires high { law.0 ≤ 63 }
    ensures { IsNamed law result.now }
{
    text_at(&TABLE.names, law.0 - 1)
}

/// The text at a place of the table, counted from 0.
fn text_at(names: &[&'static str], place: u8) -> &'static str
    requires table { map (λ text. text.now) names.now ≡ law_names }
    requires place { place < 63 }
    ensures { slice_get law_names place ≡ Some result.now }
{
    text_of(names, usize::from(place))
}

fn text_of(names: &[&'static str], place: usize) -> &'static str
    requires { place < length names.now }
    ensures { slice_get (map (λ name. name.now) names.now) place ≡ Some result.now }
{
    names[place]
}

/// The names are distinct: two laws of one name are one law.
pub fn names_are_distinct()
    ensures { (first second : LawId) (text : List ℕ) → IsNamed first text → IsNamed second text → first ≡ second }
{}
