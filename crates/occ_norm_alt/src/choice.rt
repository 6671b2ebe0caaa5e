ghost use Rattle.std.specs.Prelude.{◌≡◌, ℕ, ◌+◌, ◌^◌, ◌≤◌, ◌<◌, true, List, length, take, IfOk, IsSome};
ghost use Rattle.std.specs.Bool.{OnTrue};
ghost use Rattle.std.specs.List.{All};
ghost use Rattle.occ_syntax.specs.occ_base.declared.names.Name.{Name};
ghost use Rattle.occ_syntax.specs.occ_base.declared.width.Width.{Width};
ghost use Rattle.occ_norm_frame.specs.occ_bits.Layout.{environment_in};
ghost use Rattle.occ_norm_frame.specs.occ_bits.Words.{number_at};
ghost use Rattle.occ_norm_frame.specs.occ_dd.Store.{IsKnown as IsSetKnown, has};
ghost use Rattle.occ_norm_frame.specs.occ_follow.Sequence.{HasNodes};
ghost use Rattle.occ_norm_frame.specs.occ_mdd.Maps.{IsKnown};
ghost use Rattle.occ_norm_frame.specs.Maps.{Extends, MayHaveNodes};
ghost use Rattle.occ_syntax.specs.Scopes.{variable_width};
ghost use Rattle.occ_syntax.specs.Types.{type_of};
ghost use Rattle.occ_syntax.specs.Scopes.{Environment};
ghost use Rattle.occ_syntax.specs.Tree.{Branches, Exp, Tree, alt, and_branch, input, no_branch, output, receive, send};
ghost use Rattle.occ_syntax.specs.Types.{is_condition, types_kept, waiting_kept};
ghost use Rattle.occ_syntax.specs.View.{exp, waiting};
ghost use Rattle.occ_norm_frame.specs.After.{IsAfter, IsOver};
ghost use Rattle.occ_norm_frame.specs.Placed.{CanWait, IsAround};
ghost use Rattle.occ_norm_alt.specs.Alternation.{AreHeld, IsAlternation, IsEnabledBy, IsOffered, IsUnited};
ghost use Rattle.occ_norm_alt.specs.Inputs.{AreInputs, AreOutputs};
ghost use Rattle.occ_norm_alt.specs.Offering.{IsGuarded};

use crate::rows::Rows;
use crate::values::{Block, Inputs};
use occ_norm_frame::{Frame, MapId, Normaliser, SetId, WordBits, bits_from, digits, rebased};
use occ_syntax::{Dir, Event, Expr, Memory, Name, Wait};

/// An ALT so far: what its events lead to, and what its ready guards lead to, if there is one.
#[derive(Clone, Copy)]
pub struct Alternation {
    pub waiting: MapId,
    pub ready: MapId,
}

/// One more guard of an ALT: the states in which it is enabled, what it waits for, and the map of its process and of what follows the ALT.
#[derive(Clone, Copy)]
pub struct Alternative<'a> {
    pub enabled: SetId,
    pub wait: &'a Wait,
    pub next: MapId,
}

/// An input: the channel, and the variable that takes the value.
#[derive(Clone, Copy)]
pub struct Get {
    pub chan: Name,
    pub var: Name,
}

/// An output: the channel, and the value that is put out.
#[derive(Clone, Copy)]
pub struct Put<'a> {
    pub chan: Name,
    pub value: &'a Expr,
}

// The outputs of a value to a channel by its digits, and what comes after them, which may have several nodes.
#[derive(Drop)]
struct Outputs {
    chan: Name,
    digits: WordBits,
    next: MapId,
    several: bool,
}

// The map of the input of a value, and then what the map has.
fn input_of(world: &mut Normaliser, inputs: Inputs, value: u8, next: MapId) -> Result<MapId, Memory>
    requires { HasNodes world.old next }
    ensures extends { Extends world.old world.new }
    ensures nodes { IfOk result (HasNodes world.new) }
    ensures inputs { IfOk result (AreInputs world.new inputs.chan inputs.first 0 inputs.keep value next) }
{
    let change = (u64::from(value) << inputs.first) & inputs.keep;
    let there = world.shifted(next, change)?;
    let event = Event {
        chan: inputs.chan,
        dir: Dir::Input,
        value,
    };
    world.prefixed(there, event)
}

// The map of the inputs of the values of a block, and then what the map has.
fn input_from(
    world: &mut Normaliser,
    inputs: Inputs,
    block: Block,
    next: MapId,
) -> Result<MapId, Memory>
    requires left { block.left ≤ inputs.bits }
    requires next { HasNodes world.old next }
    ensures extends { Extends world.old world.new }
    ensures nodes { IfOk result (HasNodes world.new) }
    ensures inputs { IfOk result (AreInputs world.new inputs.chan inputs.first block.left inputs.keep block.base next) }
{
    if block.left == 0 {
        return input_of(world, inputs, block.base, next);
    }
    let lower = block.low();
    let upper = block.high();
    let bit = inputs.first + lower.left;
    let zero = world.cofactor(next, bit, false)?;
    let one = world.cofactor(next, bit, true)?;
    let low = input_from(world, inputs, lower, zero)?;
    let high = input_from(world, inputs, upper, one)?;
    world.merged(low, high)
}

// Whether a map differs at two states by a bit: where no other bit is 1, or where all are.
fn shows_bit(world: &Normaliser, map: MapId, bit: u32) -> bool
    requires bit { bit < 64 }
    requires map { IsKnown world.now.maps map }
{
    let one: u64 = 1 << bit;
    world.get(map, 0) != world.get(map, one)
        || world.get(map, u64::MAX) != world.get(map, u64::MAX ^ one)
}

// How many bits of a frame outside a variable a map shows.
fn bits_shown(world: &Normaliser, frame: &Frame, inputs: Inputs, map: MapId) -> u32
    requires bits { frame.now.bits ≤ 16 }
    requires map { IsKnown world.now.maps map }
    ensures { result ≤ 16 }
{
    let mut count: u32 = 0;
    for bit in 0..frame.bits {
        if !inputs.has(bit) && shows_bit(world, map, bit) {
            count += 1;
        }
    }
    count
}

// Whether the states should be gone through one by one: there are few of them, what follows differs by them and has many nodes for so
// few, and the bits of the variable aren't told as changes.
fn is_by_states(
    world: &Normaliser,
    frame: &Frame,
    inputs: Inputs,
    next: MapId,
) -> Result<bool, Memory>
    requires { IsKnown world.now.maps next }
    ensures unkept { IfOk result (λ r. OnTrue r (inputs.keep ≡ 0)) }
    ensures few { IfOk result (λ r. OnTrue r (frame.now.bits ≤ 16)) }
{
    if inputs.keep != 0 || frame.bits > 16 {
        return Ok(false);
    }
    let shown = bits_shown(world, frame, inputs, next);
    if shown == 0 {
        return Ok(false);
    }
    let nodes = world.node_count(next)?;
    Ok(nodes >> shown > 0)
}

// The map of the inputs of all values, and then what the map has: by going through the states, or by halves of the values.
fn all_inputs(
    world: &mut Normaliser,
    frame: &Frame,
    inputs: Inputs,
    next: MapId,
) -> Result<MapId, Memory>
    requires { IsOver world.old frame.now.bits next }
    ensures extends { Extends world.old world.new }
    ensures nodes { IfOk result (HasNodes world.new) }
    ensures inputs { IfOk result (AreInputs world.new inputs.chan inputs.first inputs.bits inputs.keep 0 next) }
{
    let by_states = is_by_states(world, frame, inputs, next)?;
    if by_states {
        let rows = Rows { inputs, next };
        return rows.map(world, frame.bits, 0);
    }
    input_from(world, inputs, Block::of(inputs.bits), next)
}

/// The map of an input and then what another map has.
pub fn input(world: &mut Normaliser, frame: &Frame, get: Get, next: MapId) -> Result<MapId, Memory>
    requires var { IsSome (variable_width (environment_in frame.now.layout) get.var.0) }
    requires next { IsOver world.old frame.now.bits next }
    ensures extends { Extends world.old world.new }
    ensures nodes { IfOk result (HasNodes world.new) }
    ensures guarded { IfOk result (λ r. (Γ : Environment) → IsAround Γ frame.now.vars → types_kept (receive get.chan.0 get.var.0) Γ ≡ true
        → IsGuarded world.new frame.now.layout frame.now.keep frame.now.closed.items Γ (input get.chan.0 get.var.0) next r) }
    ensures after { IfOk result (λ r. (Γ : Environment) → IsAround Γ frame.now.vars → types_kept (receive get.chan.0 get.var.0) Γ ≡ true
        → IsAfter world.new frame.now.layout frame.now.keep frame.now.closed.items Γ (receive get.chan.0 get.var.0) next r) }
{
    if frame.is_closed(get.chan) {
        return world.stop();
    }
    let (width, first) = frame.slot(get.var);
    let bits = width.bits();
    let keep = frame.keep & bits_from(first, bits);
    let inputs = Inputs {
        chan: get.chan,
        first,
        bits: u32::from(bits),
        keep,
    };
    let map = all_inputs(world, frame, inputs, next)?;
    rebased(world, keep, map)
}

impl Outputs {
    // The map of the output of a value on a set of states, and then what the map has. Elsewhere it says nothing.
    fn of_value(&self, world: &mut Normaliser, set: SetId, value: u8) -> Result<MapId, Memory>
        requires set { IsSetKnown world.old.store set }
        requires next { HasNodes world.old self.now.next }
        ensures extends { Extends world.old world.new }
        ensures nodes { IfOk result (HasNodes world.new) }
        ensures outputs { IfOk result (AreOutputs world.new self.now.chan (has world.old.store set) (λ x. value) self.now.next) }
    {
        let event = Event {
            chan: self.chan,
            dir: Dir::Output,
            value,
        };
        if !self.several {
            return world.prefixed(self.next, event);
        }
        let stopped = world.stop()?;
        let there = world.choose(set, self.next, stopped)?;
        let map = world.prefixed(there, event)?;
        Ok(map)
    }

    // The map of the outputs of the values of a block, on the set of states in which the value is one of them, and then what the map
    // has. Elsewhere it says nothing.
    fn of_block(&self, world: &mut Normaliser, block: Block, set: SetId) -> Result<MapId, Memory>
        requires left { block.left ≤ length self.now.digits }
        requires digits { All (IsSetKnown world.old.store) self.now.digits }
        requires set { IsSetKnown world.old.store set }
        requires next { HasNodes world.old self.now.next }
        ensures extends { Extends world.old world.new }
        ensures nodes { IfOk result (HasNodes world.new) }
        ensures outputs { IfOk result (AreOutputs world.new self.now.chan (has world.old.store set)
            (λ x. block.base + number_at world.old.store (take block.left self.now.digits) x) self.now.next) }
    {
        if set == world.empty() {
            return world.stop();
        }
        if block.left == 0 {
            return self.of_value(world, set, block.base);
        }
        let lower = block.low();
        let upper = block.high();
        let digit = self.digits.bits()[lower.left as usize];
        let with = world.within(set, digit)?;
        let outside = world.without(set, digit)?;
        let high = self.of_block(world, upper, with)?;
        let low = self.of_block(world, lower, outside)?;
        world.choose(digit, high, low)
    }
}

/// The map of an output and then what another map has.
pub fn output(
    world: &mut Normaliser,
    frame: &Frame,
    put: &Put<'_>,
    next: MapId,
) -> Result<MapId, Memory>
    requires value { IsSome (type_of (environment_in frame.now.layout) (exp put.now.value.now)) }
    requires next { IsOver world.old frame.now.bits next }
    ensures extends { Extends world.old world.new }
    ensures nodes { IfOk result (HasNodes world.new) }
    ensures guarded { IfOk result (λ r. (Γ : Environment) → IsAround Γ frame.now.vars
        → types_kept (send put.now.chan.0 (exp put.now.value.now)) Γ ≡ true
        → IsGuarded world.new frame.now.layout frame.now.keep frame.now.closed.items Γ
        (output put.now.chan.0 (exp put.now.value.now)) next r) }
    ensures after { IfOk result (λ r. (Γ : Environment) → IsAround Γ frame.now.vars
        → types_kept (send put.now.chan.0 (exp put.now.value.now)) Γ ≡ true
        → IsAfter world.new frame.now.layout frame.now.keep frame.now.closed.items Γ
        (send put.now.chan.0 (exp put.now.value.now)) next r) }
{
    let closed = frame.is_closed(put.chan);
    if closed {
        return world.stop();
    }
    let several = world.node_count(next)? > 1;
    let digits = digits(world.alloc(), world, frame, put.value)?;
    let full = world.full();
    let count = digits.bits().len() as u32;
    let outputs = Outputs {
        chan: put.chan,
        digits,
        next,
        several,
    };
    outputs.of_block(world, Block::of(count), full)
}

impl Alternation {
    /// The ALT without guards.
    pub fn none(world: &mut Normaliser) -> Result<Alternation, Memory>
        ensures extends { Extends world.old world.new }
        ensures maps { IfOk result (λ r. AreHeld world.new r.waiting r.ready) }
        ensures none { IfOk result (λ r. (layout : List (Name × Width × ℕ)) (keep : ℕ) (closed : List Name) (Γ : Environment) (rest : MapId)
            → IsAlternation world.new layout keep closed Γ no_branch rest r.waiting r.ready) }
    {
        let waiting = world.stop()?;
        let ready = world.constant(None)?;
        Ok(Alternation { waiting, ready })
    }

    /// The ALT with one more guard in front, and what comes after it.
    pub fn and(
        self,
        world: &mut Normaliser,
        frame: &Frame,
        more: &Alternative<'_>,
    ) -> Result<Alternation, Memory>
        requires maps { AreHeld world.old self.waiting self.ready }
        requires enabled { IsSetKnown world.old.store more.now.enabled }
        requires wait { CanWait frame.now.layout (waiting more.now.wait.now) }
        requires next { IsOver world.old frame.now.bits more.now.next }
        ensures extends { Extends world.old world.new }
        ensures maps { IfOk result (λ r. AreHeld world.new r.waiting r.ready) }
        ensures and { IfOk result (λ r. (Γ : Environment) (bs : Branches) (e : Exp) (p : Tree) (rest : MapId)
            → IsAround Γ frame.now.vars → waiting_kept Γ (waiting more.now.wait.now) ≡ true
            → IsEnabledBy world.old frame.now.layout Γ e more.now.enabled → IsOver world.old frame.now.bits rest
            → IsAlternation world.old frame.now.layout frame.now.keep frame.now.closed.items Γ bs rest self.waiting self.ready
            → IsAfter world.old frame.now.layout frame.now.keep frame.now.closed.items Γ p rest more.now.next
            → IsAlternation world.new frame.now.layout frame.now.keep frame.now.closed.items Γ
            (and_branch e (waiting more.now.wait.now) p bs) rest r.waiting r.ready) }
    {
        match more.wait {
            Wait::Skip => self.going(world, more.enabled, more.next),
            &Wait::Get { chan, var } => {
                let offered = input(world, frame, Get { chan, var }, more.next)?;
                self.offering(world, more.enabled, offered)
            }
            Wait::Put { chan, value } => {
                let put = Put { chan: *chan, value };
                let offered = output(world, frame, &put, more.next)?;
                self.offering(world, more.enabled, offered)
            }
        }
    }

    // The ALT with a ready guard on a set of states.
    fn going(
        self,
        world: &mut Normaliser,
        enabled: SetId,
        next: MapId,
    ) -> Result<Alternation, Memory>
        requires maps { AreHeld world.old self.waiting self.ready }
        requires enabled { IsSetKnown world.old.store enabled }
        requires next { HasNodes world.old next }
        ensures extends { Extends world.old world.new }
        ensures maps { IfOk result (λ r. AreHeld world.new r.waiting r.ready) }
        ensures united { IfOk result (λ r. (r.waiting ≡ self.waiting) × IsUnited world.new (has world.old.store enabled) self.ready next r.ready) }
    {
        let nothing = world.constant(None)?;
        let there = world.choose(enabled, next, nothing)?;
        let ready = world.united(self.ready, there)?;
        Ok(Alternation {
            waiting: self.waiting,
            ready,
        })
    }

    // The ALT with what is offered on a set of states.
    fn offering(
        self,
        world: &mut Normaliser,
        enabled: SetId,
        offered: MapId,
    ) -> Result<Alternation, Memory>
        requires maps { AreHeld world.old self.waiting self.ready }
        requires enabled { IsSetKnown world.old.store enabled }
        requires offered { HasNodes world.old offered }
        ensures extends { Extends world.old world.new }
        ensures maps { IfOk result (λ r. AreHeld world.new r.waiting r.ready) }
        ensures offered { IfOk result (λ r. (r.ready ≡ self.ready) × IsOffered world.new (has world.old.store enabled) self.waiting offered r.waiting) }
    {
        let stopped = world.stop()?;
        let there = world.choose(enabled, offered, stopped)?;
        let waiting = world.merged(self.waiting, there)?;
        Ok(Alternation {
            waiting,
            ready: self.ready,
        })
    }

    /// The map of the ALT.
    pub fn map(self, world: &mut Normaliser) -> Result<MapId, Memory>
        requires { AreHeld world.old self.waiting self.ready }
        ensures extends { Extends world.old world.new }
        ensures nodes { IfOk result (HasNodes world.new) }
        ensures after { IfOk result (λ r. (layout : List (Name × Width × ℕ)) (keep : ℕ) (closed : List Name) (Γ : Environment) (bs : Branches) (rest : MapId)
            → IsAlternation world.old layout keep closed Γ bs rest self.waiting self.ready
            → IsAfter world.new layout keep closed Γ (alt bs) rest r) }
    {
        world.finished(self.waiting, self.ready)
    }
}
