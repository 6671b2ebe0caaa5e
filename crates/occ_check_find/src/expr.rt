//! Expressions read token by token, up to the first one that can't stand there.

use crate::look::{Look, width_of};
use occ_check_text::TokKind;

/// What stands at a node of an expression.
#[derive(Clone, Copy)]
pub enum What {
    Item,
    Numeral,
    Typed,
    Truth,
    Not,
    Flip,
    /// Two operands with an operator that gives a word.
    Word,
    /// Two operands with a comparison between them.
    Compare,
    /// Two operands with AND or OR between them.
    Logic,
}

/// A node: what it is, its tokens, its operator and the nodes of its operands. Operands stand before it in the list.
#[derive(Clone, Copy)]
pub struct Node {
    pub what: What,
    pub from: usize,
    pub to: usize,
    pub op: usize,
    pub left: usize,
    pub right: usize,
}

/// Why an expression can't be read on.
#[derive(Clone, Copy)]
pub enum Why {
    /// An operand is missing.
    Operand,
    /// Something stands where an operator or the end should.
    Operator,
    /// A second operator, and the first operand of it begins at a token.
    Second,
    /// AND and OR in one chain.
    Mixed,
    /// A bracket that isn't closed, or closes nothing.
    Bracket,
    /// An index that has none of the forms.
    Index,
}

/// The first token that can't stand where it does.
#[derive(Clone, Copy)]
pub struct Bad {
    pub why: Why,
    pub at: usize,
    /// Where what is taken as the first operand begins, or the bracket.
    pub from: usize,
}

/// What is open: a bracket, the operand before an operator, the operator, and NOT or ~.
#[derive(Clone, Copy)]
struct Frame {
    open: usize,
    start: usize,
    left: Option<usize>,
    op: Option<usize>,
    prefix: Option<usize>,
}

/// An expression that was read: its nodes, the last of which is the whole, the fault that stopped the reading, and whether memory ran
/// out for a node.
#[derive(Drop)]
pub struct Expr {
    pub nodes: Vec<Node>,
    pub bad: Option<Bad>,
    pub lost: bool,
}

/// What an operator gives.
pub fn what_of(word: &[u8]) -> Option<What> {
    match word {
        b"PLUS" | b"MINUS" | b"/\\" | b"\\/" | b"><" => Some(What::Word),
        b"=" | b"<>" | b"<" | b">" | b"<=" | b">=" => Some(What::Compare),
        b"AND" | b"OR" => Some(What::Logic),
        _ => None,
    }
}

fn new_frame(open: usize, start: usize) -> Frame {
    Frame {
        open,
        start,
        left: None,
        op: None,
        prefix: None,
    }
}

/// The token behind an item that begins at a name, or the token of its index that can't stand there.
pub fn item_end(look: Look, row: usize, i: usize) -> Result<usize, usize> {
    let src = look.src;
    let next = i.saturating_add(1);
    if !src.is(row, next, "[") {
        return Ok(next);
    }
    let index = i.saturating_add(2);
    let mut end = i.saturating_add(3);
    match src.tok(row, index).kind {
        TokKind::Numeral => {}
        TokKind::Name => {
            if src.is(row, end, "PLUS") || src.is(row, end, "MINUS") {
                let value = i.saturating_add(4);
                if !matches!(src.tok(row, value).kind, TokKind::Numeral) {
                    return Err(value);
                }
                end = i.saturating_add(5);
            }
        }
        _ => return Err(index),
    }
    if src.is(row, end, "]") {
        Ok(end.saturating_add(1))
    } else {
        Err(end)
    }
}

fn stopped(why: Why, at: usize, from: usize) -> Result<usize, Bad> {
    Err(Bad { why, at, from })
}

/// A reader of one expression.
#[derive(Drop)]
struct Reader<'a> {
    look: Look<'a>,
    row: usize,
    nodes: Vec<Node>,
    stack: Vec<Frame>,
    wants: bool,
    lost: bool,
}

impl Reader<'_> {
    /// Adds a node, and gives its place.
    fn node(&mut self, node: Node) -> usize {
        let place = self.nodes.len();
        let pushed = self.nodes.push(node);
        self.lost = self.lost || pushed.is_err();
        place
    }

    fn open(&mut self, frame: Frame) {
        let pushed = self.stack.push(frame);
        self.lost = self.lost || pushed.is_err();
    }

    /// An operand is complete: it joins what stands before it.
    fn operand(&mut self, place: usize, to: usize) {
        self.wants = false;
        let Some(top) = self.stack.pop() else {
            return;
        };
        let mut top = top;
        let mut right = place;
        if let Some(op) = top.prefix {
            let flips = self.look.src.is(self.row, op, "~");
            let what = if flips { What::Flip } else { What::Not };
            right = self.node(Node {
                what,
                from: op,
                to,
                op,
                left: place,
                right: place,
            });
        }
        if let (Some(left), Some(op)) = (top.left, top.op) {
            let from = self.nodes.get(left).map_or(0, |node| node.from);
            let what = what_of(self.look.src.text_of(self.row, op)).unwrap_or(What::Word);
            right = self.node(Node {
                what,
                from,
                to,
                op,
                left,
                right,
            });
        }
        top.left = Some(right);
        self.open(top);
    }

    /// Reads what stands where an operand should, up to the token behind it.
    fn read_operand(&mut self, i: usize) -> Result<usize, Bad> {
        let src = self.look.src;
        let mut to = i.saturating_add(1);
        let what = match src.tok(self.row, i).kind {
            TokKind::Numeral => {
                let typed = src.is(self.row, to, "(")
                    && width_of(src.text_of(self.row, i.saturating_add(2))).is_some();
                if typed {
                    to = i.saturating_add(4);
                }
                if typed { What::Typed } else { What::Numeral }
            }
            TokKind::Name => {
                match item_end(self.look, self.row, i) {
                    Ok(end) => to = end,
                    Err(at) => return stopped(Why::Index, at, i),
                }
                What::Item
            }
            TokKind::Word if matches!(src.text_of(self.row, i), b"TRUE" | b"FALSE") => What::Truth,
            _ => return self.read_opening(i),
        };
        let place = self.node(Node {
            what,
            from: i,
            to,
            op: i,
            left: 0,
            right: 0,
        });
        self.operand(place, to);
        Ok(to)
    }

    /// Reads an opening bracket, NOT or ~.
    fn read_opening(&mut self, i: usize) -> Result<usize, Bad> {
        let src = self.look.src;
        let next = i.saturating_add(1);
        if src.is(self.row, i, "(") {
            self.open(new_frame(i, next));
            return Ok(next);
        }
        if src.is(self.row, i, "NOT") || src.is(self.row, i, "~") {
            if let Some(top) = self.stack.last_mut() {
                if top.left.is_none() && top.prefix.is_none() {
                    top.prefix = Some(i);
                    return Ok(next);
                }
                let from = top.start;
                return stopped(Why::Second, i, from);
            }
        }
        stopped(Why::Operand, i, i)
    }

    /// Reads an operator.
    fn read_operator(&mut self, i: usize) -> Result<usize, Bad> {
        let (src, row) = (self.look.src, self.row);
        let Some(top) = self.stack.last_mut() else {
            return stopped(Why::Bracket, i, i);
        };
        let from = top.start;
        if top.prefix.is_some() {
            return stopped(Why::Second, i, from);
        }
        if let Some(op) = top.op {
            let (before, now) = (src.text_of(row, op), src.text_of(row, i));
            let logic = matches!(what_of(before), Some(What::Logic))
                && matches!(what_of(now), Some(What::Logic));
            if !logic {
                return stopped(Why::Second, i, from);
            }
            if before != now {
                return stopped(Why::Mixed, i, from);
            }
        }
        top.op = Some(i);
        self.wants = true;
        Ok(i.saturating_add(1))
    }

    /// Reads a closing bracket.
    fn read_close(&mut self, i: usize) -> Result<usize, Bad> {
        if self.stack.len() < 2 {
            return stopped(Why::Bracket, i, i);
        }
        let next = i.saturating_add(1);
        let Some(top) = self.stack.pop() else {
            return stopped(Why::Bracket, i, i);
        };
        if let Some(place) = top.left {
            // the brackets belong to what they enclose
            if let Some(node) = self.nodes.get_mut(place) {
                node.from = top.open;
                node.to = next;
            }
            self.operand(place, next);
        }
        Ok(next)
    }

    fn step(&mut self, i: usize) -> Result<usize, Bad> {
        if self.wants {
            return self.read_operand(i);
        }
        let src = self.look.src;
        if src.is(self.row, i, ")") {
            return self.read_close(i);
        }
        if what_of(src.text_of(self.row, i)).is_some() {
            return self.read_operator(i);
        }
        let from = self.stack.last().map_or(i, |top| top.start);
        stopped(Why::Operator, i, from)
    }
}

/// Reads an expression between two tokens of a row.
pub fn read(look: Look, row: usize, from: usize, to: usize) -> Expr {
    let mut reader = Reader {
        look,
        row,
        nodes: Vec::new(look.alloc),
        stack: Vec::new(look.alloc),
        wants: true,
        lost: false,
    };
    reader.open(new_frame(from, from));
    let mut next = from;
    let mut bad = None;
    for i in from..to {
        if i < next {
            continue;
        }
        match reader.step(i) {
            Ok(end) => next = end,
            Err(found) => {
                bad = Some(found);
                break;
            }
        }
    }
    if bad.is_none() && (reader.wants || reader.stack.len() > 1) {
        let why = if reader.wants {
            Why::Operand
        } else {
            Why::Bracket
        };
        bad = Some(Bad {
            why,
            at: to,
            from: reader.stack.last().map_or(from, |top| top.open),
        });
    }
    let Reader { nodes, lost, .. } = reader;
    Expr { nodes, bad, lost }
}
