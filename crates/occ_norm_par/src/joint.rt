ghost use Rattle.std.specs.Prelude.{◌≡◌, ◌≤◌, ◌<◌, ◌+◌, true, IfOk};
ghost use Rattle.occ_norm_frame.specs.occ_follow.Sequence.{HasNodes};
ghost use Rattle.occ_norm_frame.specs.Maps.{Extends, digit};
ghost use Rattle.occ_norm_frame.specs.After.{IsOver};
ghost use Rattle.occ_norm_frame.specs.Changes.{IsSupport};
ghost use Rattle.occ_norm_par.specs.Joined.{IsSequelOf};
ghost use Rattle.occ_norm_par.specs.Joints.{AreJoint, IsEnded, IsHalf, IsJoint, IsStepped, KeepJoints};

use crate::parallel::Sides;
use occ_norm_frame::{
    Call, Frame, MapId, Memo, Normaliser, ending, except, has_bit, node_at, rebased,
};
use occ_syntax::Memory;

// The bits of the states: those that the processes before write, and those on which what follows depends.
#[derive(Clone, Copy)]
struct Joint {
    written: u64,
    needed: u64,
}

// What follows, where a bit of the states has a value before the processes: by their ends, which have the bits that they
// write, and not this bit where they don't write it.
fn next_at(
    world: &mut Normaliser,
    joint: Joint,
    bit: u32,
    one: bool,
    next: MapId,
) -> Result<MapId, Memory>
    requires bit { bit < 64 }
    requires next { HasNodes world.old next }
    ensures extends { Extends world.old world.new }
    ensures stepped { IfOk result (IsStepped world.new joint bit (digit one) next) }
{
    if !has_bit(joint.needed, bit) {
        return Ok(next);
    }
    if has_bit(joint.written, bit) {
        return Ok(next);
    }
    world.cofactor(next, bit, one)
}

// The map of processes that have one node everywhere, and of what follows.
fn ended_sequel(world: &mut Normaliser, map: MapId, next: MapId) -> Result<MapId, Memory>
    requires map { IsOver world.old 0 map }
    requires next { HasNodes world.old next }
    ensures extends { Extends world.old world.new }
    ensures joint { IfOk result (AreJoint world.new map next) }
{
    let node = node_at(world, map, 0);
    world.followed(node, next)
}

// A map of processes and one of what follows, where the lowest bits, so many, aren't told yet.
#[derive(Clone, Copy)]
struct Stage {
    left: u32,
    map: MapId,
    next: MapId,
}

// What is known of maps of processes and of what follows them.
#[derive(Drop)]
struct Known {
    memo: Memo,
}

impl Known {
    // The map of processes and what follows, where the bit behind those that are left has a value.
    #[cycle(sequel)]
    fn half(
        &mut self,
        world: &mut Normaliser,
        joint: Joint,
        stage: Stage,
        one: bool,
    ) -> Result<MapId, Memory>
        requires left { stage.left < 24 }
        requires map { IsOver world.old (stage.left + 1) stage.map }
        requires next { HasNodes world.old stage.next }
        requires memo { KeepJoints world.old joint self.old.memo }
        ensures extends { Extends world.old world.new }
        ensures memo { KeepJoints world.new joint self.new.memo }
        ensures half { IfOk result (IsHalf world.new joint stage.left (digit one) stage.map stage.next) }
    {
        let bit = stage.left;
        let map = world.cofactor(stage.map, bit, one)?;
        let next = next_at(world, joint, bit, one, stage.next)?;
        let told = Stage {
            left: bit,
            map,
            next,
        };
        self.sequel(world, joint, told)
    }

    // The same, whatever that bit is.
    #[cycle(sequel)]
    fn halves(
        &mut self,
        world: &mut Normaliser,
        joint: Joint,
        stage: Stage,
    ) -> Result<MapId, Memory>
        requires left { stage.left < 24 }
        requires map { IsOver world.old (stage.left + 1) stage.map }
        requires next { HasNodes world.old stage.next }
        requires memo { KeepJoints world.old joint self.old.memo }
        ensures extends { Extends world.old world.new }
        ensures memo { KeepJoints world.new joint self.new.memo }
        ensures joint { IfOk result (IsJoint world.new joint (stage.left + 1) stage.map stage.next) }
    {
        let low = self.half(world, joint, stage, false)?;
        let high = self.half(world, joint, stage, true)?;
        let set = world.bit(stage.left)?;
        world.choose(set, high, low)
    }

    // The map of processes and what follows, as to the bits that are left: all others have their values.
    #[cycle(sequel)]
    fn sequel(
        &mut self,
        world: &mut Normaliser,
        joint: Joint,
        stage: Stage,
    ) -> Result<MapId, Memory>
        requires left { stage.left ≤ 24 }
        requires map { IsOver world.old stage.left stage.map }
        requires next { HasNodes world.old stage.next }
        requires memo { KeepJoints world.old joint self.old.memo }
        ensures extends { Extends world.old world.new }
        ensures memo { KeepJoints world.new joint self.new.memo }
        ensures joint { IfOk result (IsJoint world.new joint stage.left stage.map stage.next) }
    {
        if stage.left == 0 {
            return ended_sequel(world, stage.map, stage.next);
        }
        let call = Call {
            first: stage.left as usize,
            second: stage.map.0,
            third: stage.next.0,
        };
        if let Some(known) = self.memo.get(call) {
            return Ok(MapId(known));
        }
        let whole = Stage {
            left: stage.left - 1,
            map: stage.map,
            next: stage.next,
        };
        let made = self.halves(world, joint, whole)?;
        self.memo.insert(call, made.0)?;
        Ok(made)
    }
}

// Whether what follows processes is that they have ended, and all of their changes that matter are values.
fn is_ended(
    world: &mut Normaliser,
    frame: &Frame,
    joint: Joint,
    rest: MapId,
) -> Result<bool, Memory>
    ensures extends { Extends world.old world.new }
    ensures ended { IfOk result (λ answer. answer ≡ true → IsEnded world.new frame.now.keep joint rest) }
{
    let all = frame.keep | joint.needed;
    let keep = except(all, joint.written);
    if keep != frame.keep {
        return Ok(false);
    }
    let ended = ending(world, all, keep)?;
    Ok(rest == ended)
}

impl Sides {
    /// The map of the parts of a PAR and then what another map has. `together` is the map of the parts alone: its ends have the
    /// values of the bits that they write, and the changes of the others that matter outside (the frame's `keep`) or to what
    /// follows.
    pub fn sequel(
        &self,
        world: &mut Normaliser,
        frame: &Frame,
        together: MapId,
        rest: MapId,
    ) -> Result<MapId, Memory>
        requires needed { IsSupport world.old frame.now.bits rest self.now.needed }
        requires together { IsOver world.old frame.now.bits together }
        requires rest { IsOver world.old frame.now.bits rest }
        ensures extends { Extends world.old world.new }
        ensures nodes { IfOk result (HasNodes world.new) }
        ensures after { IfOk result (IsSequelOf self.now frame.now world.old world.new together rest) }
    {
        let joint = Joint {
            written: self.written,
            needed: self.needed,
        };
        let nothing = is_ended(world, frame, joint, rest)?;
        if nothing {
            return Ok(together);
        }
        let turned = frame.keep & self.written;
        let next = rebased(world, turned, rest)?;
        let mut known = Known {
            memo: Memo::new(world.alloc()),
        };
        let stage = Stage {
            left: frame.bits,
            map: together,
            next,
        };
        let map = known.sequel(world, joint, stage)?;
        rebased(world, turned, map)
    }
}
