ghost use Rattle.std.specs.Prelude.{◌≡◌, ℕ, ◌≤◌, ◌<◌, ◌-◌, ◌||◌, false, nat_lt, [], ◌∷◌, length, drop, get_or, vec_len, OnOk, OnErr};
ghost use Rattle.occ_parse_rules.specs.Places.{declares, declares_some, has_elements, sort_at};
ghost use Rattle.occ_parse_scopes.specs.Chain.{IsTableOf, declares_below, declares_element, has_elements_below, name_of};

use occ_parse_forms::Declared;
use occ_parse_rules::{Entry, Sort};
use occ_syntax::{Memory, Name};
use std::alloc::Global;
use std::marker::Model;

/// A declaration in scope with the place of the next older one of the same name. The oldest of all has the place 1, and
/// 0 says that there is none.
#[derive(Clone, Copy, Debug)]
struct Linked {
    entry: Entry,
    older: usize,
}

/// The declarations in scope, seen as a list with the newest first. A name is looked up in the time that the declarations
/// of that name take, however many others there are.
#[derive(Debug, Drop)]
pub struct Scopes {
    chain: Vec<Linked>,
    newest: Vec<usize>,
}

impl Model for Scopes {
    ghost use Rattle.std.specs.Prelude.{List};
    ghost use Rattle.std.proofs.Common.{reverse};
    ghost use Rattle.occ_parse_rules.specs.declared.sort.Entry.{Entry};

    ghost Value = { List Entry };

    ghost use Rattle.occ_parse_scopes.specs.Chain.{AreChained, IsTable, entries};

    ghost view = { λ scopes. entries (reverse scopes.chain.items) };

    ghost invariant = { λ scopes. AreChained (reverse scopes.chain.items) × IsTable scopes.newest.items (reverse scopes.chain.items) };
}

/// The name that a declaration declares, or of whose array it declares elements. It takes no memory.
fn name_of(declared: Declared) -> Name
    ensures { result.0 ≡ name_of declared }
{
    match declared {
        Declared::Plain(name) => name,
        Declared::Element(name, _) => name,
        Declared::Array(name, _) => name,
    }
}

/// Whether a declaration declares the name, or the element of the array of that name. It takes no memory.
fn declares(declared: Declared, name: Name, element: Option<u16>) -> bool
    ensures { result ≡ declares declared name.0 element }
{
    match (declared, element) {
        (Declared::Plain(x), None) => name == x,
        (Declared::Element(x, j), Some(k)) => name == x && k == u16::from(j),
        (Declared::Array(x, n), Some(k)) => name == x && k < u16::from(n),
        _ => false,
    }
}

/// Whether a declaration declares some element of the array of that name. It takes no memory.
fn declares_some(declared: Declared, name: Name) -> bool
    ensures { result ≡ declares_some declared name.0 }
{
    match declared {
        Declared::Plain(_) => false,
        Declared::Element(x, _) => name == x,
        Declared::Array(x, n) => name == x && 0 < n,
    }
}

/// Whether a declaration declares one of the first elements, so many, of the array of that name. It takes no memory.
fn declares_below(declared: Declared, name: Name, count: u8) -> bool
    ensures { result ≡ declares_below name.0 count declared }
{
    match declared {
        Declared::Plain(_) => false,
        Declared::Element(x, j) => name == x && j < count,
        Declared::Array(x, n) => name == x && 0 < n && 0 < count,
    }
}

/// Marks the first elements, so many.
fn mark_first(table: &mut [bool; 256], count: u8)
    ensures { (k : ℕ) → k < 256 →
        get_or table.new k false ≡ (get_or table.old k false || nat_lt k count) }
{
    for k in 0..usize::from(count) {
        table[k] = true;
    }
}

/// Marks the elements that a declaration declares.
fn mark(table: &mut [bool; 256], declared: Declared)
    ensures { (k : ℕ) → k < 256 →
        get_or table.new k false ≡ (get_or table.old k false || declares_element declared k) }
{
    match declared {
        Declared::Plain(_) => {}
        Declared::Element(_, k) => table[usize::from(k)] = true,
        Declared::Array(_, count) => mark_first(table, count),
    }
}

/// Lengthens a table with places of nothing, so that it has a place for the name. Where memory runs out, it says the same.
fn make_room(newest: &mut Vec<usize>, name: Name) -> Result<(), Memory>
    ensures ok { OnOk result (name.0 < vec_len newest.new) }
    ensures same { (x : ℕ) → get_or newest.new.items x 0 ≡ get_or newest.old.items x 0 }
{
    while newest.len() <= name.0 {
        newest.push(0)?;
    }
    Ok(())
}

/// What a table says of a name; past its end, 0.
fn newest_of(newest: &[usize], name: Name) -> usize
    ensures { result ≡ get_or newest.now name.0 0 }
{
    match newest.get(name.0) {
        Some(place) => *place,
        None => 0,
    }
}

impl Scopes {
    /// No declarations. It takes no memory.
    pub fn new(alloc: Global) -> Scopes
        ensures { result ≡ [] }
    {
        Scopes {
            chain: Vec::new(alloc),
            newest: Vec::new(alloc),
        }
    }

    /// Brings a declaration into scope. Where memory runs out, the scope is as before.
    pub fn declare(&mut self, entry: Entry) -> Result<(), Memory>
        ensures ok { OnOk result (self.new ≡ entry ∷ self.old) }
        ensures err { OnErr result (self.new ≡ self.old) }
    {
        let name = name_of(entry.declared);
        make_room(&mut self.newest, name)?;
        let older = self.newest[name.0];
        self.chain.push(Linked { entry, older })?;
        self.newest[name.0] = self.chain.len();
        Ok(())
    }

    /// How many declarations are in scope. It takes no memory.
    pub fn depth(&self) -> usize
        ensures { result ≡ length self.now }
    {
        self.chain.len()
    }

    /// Takes the newest declaration out of scope.
    fn close_one(&mut self)
        requires { 0 < length self.old }
        ensures { self.new ≡ drop 1 self.old }
    {
        if let Some(linked) = self.chain.pop() {
            let name = name_of(linked.entry.declared);
            self.newest[name.0] = linked.older;
        }
    }

    /// Takes the newest declarations out of scope, so that so many are left. It takes no memory.
    pub fn close(&mut self, depth: usize)
        requires { depth ≤ length self.old }
        ensures { self.new ≡ drop (length self.old - depth) self.old }
    {
        while self.depth() > depth {
            self.close_one();
        }
    }

    /// What the name, or the element of the array of that name, stands for; None where it isn't in scope.
    /// It takes no memory.
    pub fn sort(&self, name: Name, element: Option<u16>) -> Option<Sort>
        ensures { result ≡ sort_at self.now name.0 element }
    {
        let mut k = newest_of(&self.newest, name);
        while k > 0 {
            let linked = self.chain[k - 1];
            if declares(linked.entry.declared, name, element) {
                return Some(linked.entry.sort);
            }
            k = linked.older;
        }
        None
    }

    /// Whether some element of the array of that name is in scope. It takes no memory.
    pub fn has_elements(&self, name: Name) -> bool
        ensures { result ≡ has_elements self.now name.0 }
    {
        let mut k = newest_of(&self.newest, name);
        while k > 0 {
            let linked = self.chain[k - 1];
            if declares_some(linked.entry.declared, name) {
                return true;
            }
            k = linked.older;
        }
        false
    }

    /// Whether one of the first elements, so many, of the array of that name is in scope. It takes no memory.
    pub fn has_elements_below(&self, name: Name, count: u8) -> bool
        ensures { result ≡ has_elements_below self.now name.0 count }
    {
        let mut k = newest_of(&self.newest, name);
        while k > 0 {
            let linked = self.chain[k - 1];
            if declares_below(linked.entry.declared, name, count) {
                return true;
            }
            k = linked.older;
        }
        false
    }

    /// Which of the first 256 elements of the array of that name are in scope. It takes no memory.
    pub fn elements(&self, name: Name) -> [bool; 256]
        ensures { IsTableOf self.now name.0 result }
    {
        let mut table = [false; 256];
        let mut k = newest_of(&self.newest, name);
        while k > 0 {
            let linked = self.chain[k - 1];
            mark(&mut table, linked.entry.declared);
            k = linked.older;
        }
        table
    }
}
