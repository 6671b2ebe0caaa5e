ghost use Rattle.std.specs.Prelude.{◌≡◌, ◌==◌, ℕ, ◌+◌, ◌^◌, ◌<◌, ◌≤◌, ◌&&◌, if◌then◌else◌, not, true, [], Some, IfOk, IsSome, OnOk, nat_le, nat_lt};
ghost use Rattle.std.specs.Int.{bit_at};
ghost use Rattle.std.specs.List.{list_all};
ghost use Rattle.occ_syntax.specs.occ_base.Width.{bits_of};
ghost use Rattle.occ_bits.specs.Layout.{entry_of, environment_in};
ghost use Rattle.occ_bits.specs.occ_dd.Assignment.{with_bit};
ghost use Rattle.occ_syntax.specs.Scopes.{variable_width};
ghost use Rattle.occ_syntax.specs.Counts.{bits_of_scope};
ghost use Rattle.occ_syntax.specs.Types.{scope_kept};
ghost use Rattle.occ_norm_frame.specs.Placed.{CanEnter, IsFrame, closed_by, entered};

use occ_bits::Layout;
use occ_syntax::{Kind, Memory, Name, Program, Scope, Width, interface_bits};
use std::alloc::Global;

/// What is in scope where a part stands: the variables with their bits, the bits whose final values matter outside, and
/// the channels on which nothing reaches the outside.
#[derive(Drop)]
pub struct Frame {
    pub vars: Scope,
    pub layout: Layout,
    pub bits: u32,
    pub keep: u64,
    pub closed: Vec<Name>,
    pub ghost kept: { IsFrame vars layout bits },
    pub ghost inside: { keep < 2 ^ bits },
}

/// So many of the lowest bits.
pub fn lowest(count: u32) -> u64
    requires { count ≤ 24 }
    ensures within { result < 2 ^ count }
    ensures all { (k : ℕ) → k < count → bit_at result k ≡ 1 }
{
    let mut bits: u64 = 0;
    for bit in 0..count {
        bits |= 1 << bit;
    }
    bits
}

/// Some bits in a row.
pub fn bits_from(first: u32, count: u8) -> u64
    requires { first + count ≤ 64 }
    ensures { (k : ℕ) → k < 64 → bit_at result k ≡ (if nat_le first k && nat_lt k (first + count) then 1 else 0) }
{
    let mut bits: u64 = 0;
    for digit in 0..u32::from(count) {
        bits |= 1 << (first + digit);
    }
    bits
}

/// Whether a bit is among some bits.
pub fn has_bit(bits: u64, bit: u32) -> bool
    requires { bit < 64 }
    ensures { result ≡ (bit_at bits bit == 1) }
{
    (bits >> bit) & 1 == 1
}

/// Some bits with one of them made 1 or 0.
pub fn with_bit(bits: u64, bit: u32, one: bool) -> u64
    requires { bit < 64 }
    ensures { result ≡ with_bit bits bit (if one then 1 else 0) }
{
    if has_bit(bits, bit) == one {
        return bits;
    }
    bits ^ (1 << bit)
}

impl Frame {
    /// The frame of a program's body: its parameters are in scope, and all their bits matter.
    pub fn of(alloc: Global, program: &Program) -> Result<Frame, Memory>
        requires scope { scope_kept program.now.params ≡ true }
        requires few { bits_of_scope program.now.params ≤ 16 }
        ensures vars { IfOk result (λ r. r.vars ≡ program.now.params) }
        ensures keep { IfOk result (λ r. (k : ℕ) → k < r.bits → bit_at r.keep k ≡ 1) }
        ensures closed { IfOk result (λ r. r.closed.items ≡ []) }
    {
        let count = interface_bits(program);
        let bits = count as u32;
        let vars = program.params.copy(alloc)?;
        let layout = Layout::of(alloc, &program.params)?;
        let keep = lowest(bits);
        Ok(Frame {
            vars,
            layout,
            bits,
            keep,
            closed: Vec::new(alloc),
        })
    }

    /// The same frame with other bits that matter and other closed channels.
    pub fn with(&self, alloc: Global, keep: u64, closed: Vec<Name>) -> Result<Frame, Memory>
        requires { keep < 2 ^ self.now.bits }
        ensures vars { IfOk result (λ r. r.vars ≡ self.now.vars) }
        ensures keep { IfOk result (λ r. r.keep ≡ keep) }
        ensures closed { IfOk result (λ r. r.closed.items ≡ closed.items) }
    {
        let vars = self.vars.copy(alloc)?;
        let layout = Layout::of(alloc, &self.vars)?;
        Ok(Frame {
            vars,
            layout,
            bits: self.bits,
            keep,
            closed,
        })
    }

    /// The same frame.
    pub fn copy(&self, alloc: Global) -> Result<Frame, Memory>
        ensures vars { IfOk result (λ r. r.vars ≡ self.now.vars) }
        ensures keep { IfOk result (λ r. r.keep ≡ self.now.keep) }
        ensures closed { IfOk result (λ r. r.closed.items ≡ self.now.closed.items) }
    {
        let closed = Vec::from_slice(alloc, self.closed.as_slice())?;
        self.with(alloc, self.keep, closed)
    }

    /// Brings a declaration into scope: a variable takes the next bits, and a channel is closed.
    pub fn declare(&mut self, alloc: Global, name: Name, kind: Kind) -> Result<(), Memory>
        requires { CanEnter self.old.vars name kind }
        ensures vars { OnOk result (self.new.vars ≡ entered self.old.vars name kind) }
        ensures keep { self.new.keep ≡ self.old.keep }
        ensures closed { OnOk result (self.new.closed.items ≡ closed_by self.old.closed.items name kind) }
    {
        match kind {
            Kind::Var(width) => self.add_variable(alloc, name, width),
            Kind::Chan(_, _) => {
                self.closed.push(name)?;
                Ok(())
            }
        }
    }

    fn add_variable(&mut self, alloc: Global, name: Name, width: Width) -> Result<(), Memory>
        requires { CanEnter self.old.vars name (Kind.Var width) }
        ensures vars { OnOk result (self.new.vars ≡ entered self.old.vars name (Kind.Var width)) }
        ensures keep { self.new.keep ≡ self.old.keep }
        ensures closed { self.new.closed.items ≡ self.old.closed.items }
    {
        let mut vars = self.vars.copy(alloc)?;
        vars.push((name, Kind::Var(width)))?;
        let layout = Layout::of(alloc, &vars)?;
        let more = u32::from(width.bits());
        self.vars = vars;
        self.layout = layout;
        self.bits += more;
        Ok(())
    }

    /// The width and the first bit of a variable.
    pub fn entry(&self, name: Name) -> Option<(Width, u32)>
        ensures { result ≡ entry_of self.now.layout name.0 }
    {
        find(self.layout.items(), name)
    }

    /// The width and the first bit of a variable in scope.
    pub fn slot(&self, name: Name) -> (Width, u32)
        requires { IsSome (variable_width (environment_in self.now.layout) name.0) }
        ensures found { entry_of self.now.layout name.0 ≡ Some result }
        ensures within { result.1 + bits_of result.0 ≤ 64 }
        ensures some { 1 ≤ bits_of result.0 }
        ensures few { bits_of result.0 ≤ 8 }
    {
        match self.entry(name) {
            Some(entry) => entry,
            None => unreachable!(),
        }
    }

    /// Whether nothing on a channel reaches the outside.
    pub fn is_closed(&self, chan: Name) -> bool
        ensures { result ≡ not (list_all (λ c. not (chan.0 == c.0)) self.now.closed.items) }
    {
        self.closed.contains(&chan)
    }
}

// The width and the first bit of a variable among some.
fn find(entries: &[(Name, Width, u32)], name: Name) -> Option<(Width, u32)>
    ensures { result ≡ entry_of entries.now name.0 }
{
    for (variable, width, first) in entries {
        if *variable == name {
            return Some((*width, *first));
        }
    }
    None
}
