//! Conditions over few variables, at all of their values.

use occ_check_find::{
    Decl, Look, Memory, Node, Scopes, Sort, TokKind, What, is_array, numeral, read, size_of,
};

/// A variable of conditions: its name's place, and how many values it has.
#[derive(Clone, Copy, Debug)]
pub struct Var {
    pub row: usize,
    pub tok: usize,
    pub size: usize,
}

/// Conditions with their variables: where each holds, by the values of all variables together in order; and whether all is known of
/// them.
#[derive(Debug, Drop)]
pub struct Table {
    pub vars: Vec<Var>,
    holds: Vec<Vec<bool>>,
    pub known: bool,
}

/// The most values together at which conditions are looked at.
const MOST_VALUES: usize = 1024;

/// The most variables of such conditions.
const MOST_VARS: usize = 6;

/// How many values a declared variable has.
fn values_of(decl: Decl) -> Option<usize> {
    match decl.sort {
        Sort::Var(bits) if !is_array(decl) => Some(size_of(bits).max(2)),
        _ => None,
    }
}

impl Table {
    /// The conditions on rows.
    pub fn read(look: Look, scopes: &Scopes, rows: &[usize]) -> Result<Table, Memory> {
        let mut table = Table {
            vars: Vec::new(look.alloc),
            holds: Vec::new(look.alloc),
            known: true,
        };
        for row in rows {
            table.add_vars(look, scopes, *row)?;
        }
        table.known = table.known && table.count() <= MOST_VALUES;
        for row in rows {
            if table.known {
                let truths = table.truths(look, *row)?;
                table.holds.push(truths)?;
            }
        }
        Ok(table)
    }

    fn add_vars(&mut self, look: Look, scopes: &Scopes, row: usize) -> Result<(), Memory> {
        for tok in 0..look.src.count(row) {
            let name = look.src.text_of(row, tok);
            if !matches!(look.src.tok(row, tok).kind, TokKind::Name)
                || self.place(look, name).is_some()
            {
                continue;
            }
            match scopes
                .find(look.src, row, tok)
                .and_then(|decl| values_of(decl))
            {
                Some(size) if self.vars.len() < MOST_VARS => self
                    .vars
                    .push(Var { row, tok, size })?,
                _ => self.known = false,
            }
        }
        Ok(())
    }

    fn place(&self, look: Look, name: &[u8]) -> Option<usize> {
        self.vars
            .iter()
            .position(|var| look.src.text_of(var.row, var.tok) == name)
    }

    /// How many values the variables have together.
    fn count(&self) -> usize {
        let mut count: usize = 1;
        for var in &self.vars {
            count = count.saturating_mul(var.size);
        }
        count
    }

    /// The value of a variable at one of the values of all.
    pub fn value_of(&self, place: usize, at: usize) -> Known {
        let mut rest = at;
        for (i, var) in self.vars.iter().enumerate() {
            if i == place {
                return wrapped(rest, var.size);
            }
            rest = rest.checked_div(var.size).unwrap_or(0);
        }
        NOTHING
    }

    /// Where the condition on a row holds.
    fn truths(&mut self, look: Look, row: usize) -> Result<Vec<bool>, Memory> {
        let expr = read(look, row, 0, look.src.count(row));
        if expr.lost {
            return Err(Memory);
        }
        self.known = self.known && expr.bad.is_none();
        let mut truths = Vec::new(look.alloc);
        let mut values: Vec<Known> = Vec::new(look.alloc);
        for at in 0..self.count() {
            values.truncate(0);
            for node in &expr.nodes {
                let value = self.value(look, row, (node, at), values.as_slice());
                values.push(value)?;
            }
            truths.push(values.last().is_some_and(|last| last.value != 0))?;
        }
        Ok(truths)
    }

    /// The value of a node at one of the values of all, by those of the nodes before it.
    fn value(&self, look: Look, row: usize, of: (&Node, usize), before: &[Known]) -> Known {
        let (node, at) = of;
        let text = look.src.text_of(row, node.op);
        let left = before.get(node.left).copied().unwrap_or(NOTHING);
        let right = before.get(node.right).copied().unwrap_or(NOTHING);
        match node.what {
            What::Item => match self.place(look, text) {
                Some(place) => self.value_of(place, at),
                None => NOTHING,
            },
            What::Numeral | What::Typed => wrapped(numeral(text), 0),
            What::Truth => truth(text == b"TRUE".as_slice()),
            What::Not => truth(left.value == 0),
            What::Flip => wrapped(
                left.size.saturating_sub(1).saturating_sub(left.value),
                left.size,
            ),
            What::Word | What::Compare | What::Logic => combined(text, left, right),
        }
    }

    /// Whether one condition is known to hold wherever another one does.
    pub fn covers(&self, one: usize, other: usize) -> bool {
        let (Some(one), Some(other)) = (self.holds.get(one), self.holds.get(other)) else {
            return false;
        };
        self.known && one.iter().zip(other.iter()).all(|(a, b)| *a || !*b)
    }

    /// The first values of the variables at which no condition holds.
    pub fn open_at(&self) -> Option<usize> {
        for at in 0..self.count() {
            let mut some = false;
            for truths in &self.holds {
                some = some || truths.get(at).copied().unwrap_or(false);
            }
            if !some {
                return Some(at);
            }
        }
        None
    }
}

/// A value, and how many the type of it has; 0 where that isn't known.
#[derive(Clone, Copy, Debug)]
pub struct Known {
    pub value: usize,
    size: usize,
}

const NOTHING: Known = Known { value: 0, size: 0 };

fn wrapped(value: usize, size: usize) -> Known {
    Known {
        value: value.checked_rem(size).unwrap_or(value),
        size,
    }
}

fn truth(holds: bool) -> Known {
    wrapped(usize::from(holds), 2)
}

fn combined(op: &[u8], left: Known, right: Known) -> Known {
    let (a, b) = (left.value, right.value);
    let size = left.size.max(right.size);
    match op {
        b"PLUS" => wrapped(a.saturating_add(b), size),
        b"MINUS" => wrapped(a.saturating_add(size).saturating_sub(b), size),
        b"/\\" => wrapped(a & b, size),
        b"\\/" => wrapped(a | b, size),
        b"><" => wrapped(a ^ b, size),
        b"=" => truth(a == b),
        b"<>" => truth(a != b),
        b"<" => truth(a < b),
        b">" => truth(a > b),
        b"<=" => truth(a <= b),
        b">=" => truth(a >= b),
        b"AND" => truth(a != 0 && b != 0),
        b"OR" => truth(a != 0 || b != 0),
        _ => NOTHING,
    }
}
