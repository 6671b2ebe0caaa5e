ghost use Rattle.std.specs.Prelude.{◌≡◌, ◌<◌, ◌∷◌, ◌&&◌, ◌||◌, ℕ, List, None, IfOk, OnOk, slice_index_or, true, [], vec_len};
ghost use Rattle.occ_parse_rules.specs.Forest.{Laid};
ghost use Rattle.occ_parse_layout.specs.Layout.{closes, is_declaration, is_good, is_placed, is_served, kind_of, laid, laid_rows, room_at, stands_outermost, takes};
ghost use Rattle.occ_parse_layout.specs.Scan.{Describes, IsRunServed, declared_level, shut};
ghost use Rattle.occ_parse_rules.specs.occ_parse_forms.Shape.{shape};

use crate::kind::{
    Child, Kind, Room, fits, is_close, is_declaration, is_header, kind_of, may_repeat, needs_child,
    takes,
};
use crate::looking::{closes, has_child, has_close, has_process};
use crate::{Frame, Placed};
use occ_parse_rules::Memory;
use std::alloc::Global;

/// What stands at a level behind the lines that have been passed, and whether no child is there yet.
#[derive(Clone, Copy, Debug)]
pub(crate) struct Open {
    pub(crate) room: Room,
    pub(crate) free: bool,
}

impl Open {
    /// What stands there with one more line, which isn't a child yet where it is a declaration.
    fn with_child(self, kind: Kind) -> Open
        ensures room { result.room ≡ self.room }
        ensures free { result.free ≡ (self.free && is_declaration kind) }
    {
        Open {
            room: self.room,
            free: self.free && is_declaration(kind),
        }
    }

    /// What stands below a line that stands there.
    fn inside(self, kind: Kind) -> Open
        ensures room { result.room ≡ takes self.room kind }
        ensures free { result.free ≡ true }
    {
        Open {
            room: takes(self.room, kind),
            free: true,
        }
    }
}

const SHUT: Open = Open {
    room: Room::Nothing,
    free: true,
};

/// What is kept of the lines that have been passed: what stands at each level from 0 on at which a line may follow, whether
/// there is a line, whether there is a closing line, and the level of the nearest line where that is a declaration.
#[derive(Debug, Drop)]
pub(crate) struct Passed {
    pub(crate) frame: Frame,
    pub(crate) open: Vec<Open>,
    pub(crate) begun: bool,
    pub(crate) closed: bool,
    pub(crate) declared: Option<u32>,
}

impl Passed {
    /// No line has been passed.
    pub(crate) fn new(alloc: Global, frame: Frame) -> Result<Passed, Memory>
        ensures frame { IfOk result (λ passed. passed.frame ≡ frame) }
        ensures describes { IfOk result (λ passed. Describes [] passed) }
        ensures declared { IfOk result (λ passed. passed.declared ≡ None) }
    {
        let mut open = Vec::new(alloc);
        open.push(SHUT)?;
        if matches!(frame, Frame::Part) {
            open.push(Open {
                room: Room::One(Child::Slot),
                free: true,
            })?;
        }
        Ok(Passed {
            frame,
            open,
            begun: false,
            closed: false,
            declared: None,
        })
    }

    fn at(&self, level: u32) -> Open
        ensures { result ≡ slice_index_or self.now.open.items level shut }
    {
        match self.open.get(level as usize) {
            Some(open) => *open,
            None => SHUT,
        }
    }

    fn is_closed_by(&self, row: &Placed) -> bool
        ensures { result ≡ (closes (laid row.now) || self.now.closed) }
    {
        closes(row) || self.closed
    }

    fn stands_outermost(&self, kind: Kind) -> bool
        ensures { (before : List Laid) → Describes before self.now → result ≡ stands_outermost self.now.frame before kind }
    {
        if matches!(self.frame, Frame::Part) {
            return false;
        }
        if self.begun {
            is_close(kind) && !self.closed
        } else {
            is_header(kind)
        }
    }

    fn is_placed(&self, level: u32, kind: Kind) -> bool
        ensures value { (before : List Laid) → Describes before self.now → result ≡ is_placed self.now.frame before level kind }
        ensures open { (before : List Laid) → Describes before self.now → result ≡ true → level < vec_len self.now.open }
    {
        if level == 0 {
            return self.stands_outermost(kind);
        }
        let open = self.at(level);
        fits(open.room, open.free, kind) && may_repeat(self.frame, kind)
    }

    fn is_served(&self, below: Room, row: &Placed, after: &[Placed], more: bool) -> bool
        requires { IsRunServed more self.now.declared (laid row.now ∷ laid_rows after.now) }
        ensures { result ≡ is_served more below (kind_of (shape row.now.form)) row.now.level (laid_rows after.now) }
    {
        match kind_of(&row.form) {
            Kind::Header => has_child(row.level, after, more) && has_close(after, more),
            Kind::Declaration => {
                self.declared == Some(row.level) || has_process(row.level, after, more)
            }
            Kind::Close
            | Kind::Plain
            | Kind::Message
            | Kind::Construct(_, _)
            | Kind::Condition
            | Kind::Guard
            | Kind::Nothing => !needs_child(below) || has_child(row.level, after, more),
        }
    }

    /// Whether a line is good with other lines behind it. Where the nearest line is a declaration, it has its process
    /// among them, so that a row of declarations is looked through once.
    pub(crate) fn is_good(&self, row: &Placed, after: &[Placed], more: bool) -> bool
        requires { IsRunServed more self.now.declared (laid row.now ∷ laid_rows after.now) }
        ensures value { (before : List Laid) → Describes before self.now → result ≡ is_good self.now.frame more before (laid row.now) (laid_rows after.now) }
        ensures open { (before : List Laid) → Describes before self.now → result ≡ true → row.now.level < vec_len self.now.open }
    {
        let kind = kind_of(&row.form);
        let below = takes(self.at(row.level).room, kind);
        self.is_placed(row.level, kind) && self.is_served(below, row, after, more)
    }

    /// Passes a line, at whose level a line may follow.
    pub(crate) fn pass(&mut self, row: &Placed) -> Result<(), Memory>
        requires { row.now.level < vec_len self.old.open }
        ensures frame { OnOk result (self.new.frame ≡ self.old.frame) }
        ensures describes { OnOk result ((before : List Laid) → Describes before self.old → Describes (laid row.now ∷ before) self.new) }
        ensures declared { OnOk result (self.new.declared ≡ declared_level (kind_of (shape row.now.form)) row.now.level) }
    {
        let kind = kind_of(&row.form);
        let open = self.at(row.level);
        self.open.truncate(row.level as usize);
        self.open.push(open.with_child(kind))?;
        self.open.push(open.inside(kind))?;
        self.begun = true;
        self.closed = self.is_closed_by(row);
        self.declared = is_declaration(kind).then_some(row.level);
        Ok(())
    }
}
