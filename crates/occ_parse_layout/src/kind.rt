ghost use Rattle.std.specs.Prelude.{◌≡◌};
ghost use Rattle.occ_parse_rules.specs.occ_parse_forms.Shape.{shape};
ghost use Rattle.occ_parse_layout.specs.Layout.{child_of, fits, fits_child, is_close, is_declaration, is_header, kind_of, may_repeat, needs_child, takes};

use crate::Frame;
use occ_parse_rules::{Form, Group};

/// What can stand below a line: a slot is declaration lines and then a process line.
#[derive(Clone, Copy, Debug, PartialEq, Eq)]
pub(crate) enum Child {
    Slot,
    Choice,
    Alternative,
}

/// What a line takes below it.
#[derive(Clone, Copy, Debug, PartialEq, Eq)]
pub(crate) enum Room {
    Nothing,
    One(Child),
    Any(Child),
}

/// What the layout sees of a line's form.
#[derive(Clone, Copy, Debug, PartialEq, Eq)]
pub(crate) enum Kind {
    Header,
    Close,
    /// SKIP, STOP or an assignment.
    Plain,
    /// An input or an output: a process in a slot, a guard among alternatives.
    Message,
    /// One of the four words, by what stands below it, alone or with a replicator.
    Construct(Child, bool),
    Declaration,
    Condition,
    Guard,
    Nothing,
}

fn child_of(group: Group) -> Child
    ensures { result ≡ child_of group }
{
    match group {
        Group::Seq | Group::Par => Child::Slot,
        Group::If => Child::Choice,
        Group::Alt => Child::Alternative,
    }
}

pub(crate) fn kind_of(form: &Form) -> Kind
    ensures { result ≡ kind_of (shape form.now) }
{
    match form {
        Form::Header { .. } => Kind::Header,
        Form::Close => Kind::Close,
        Form::Skip => Kind::Plain,
        Form::Stop => Kind::Plain,
        Form::Assign { .. } => Kind::Plain,
        Form::Input { .. } => Kind::Message,
        Form::Output { .. } => Kind::Message,
        Form::Group { group, times } => Kind::Construct(child_of(*group), times.is_some()),
        Form::Declare(_) => Kind::Declaration,
        Form::Condition(_) => Kind::Condition,
        Form::Guard { .. } => Kind::Guard,
        Form::Nothing => Kind::Nothing,
    }
}

pub(crate) fn is_header(kind: Kind) -> bool
    ensures { result ≡ is_header kind }
{
    matches!(kind, Kind::Header)
}

pub(crate) fn is_close(kind: Kind) -> bool
    ensures { result ≡ is_close kind }
{
    matches!(kind, Kind::Close)
}

pub(crate) fn is_declaration(kind: Kind) -> bool
    ensures { result ≡ is_declaration kind }
{
    matches!(kind, Kind::Declaration)
}

/// Whether a frame has such a line: replicators stand only in whole programs.
pub(crate) fn may_repeat(frame: Frame, kind: Kind) -> bool
    ensures { result ≡ may_repeat frame kind }
{
    match frame {
        Frame::Program => true,
        Frame::Plain | Frame::Part => !matches!(kind, Kind::Construct(_, true)),
    }
}

pub(crate) fn needs_child(room: Room) -> bool
    ensures { result ≡ needs_child room }
{
    matches!(room, Room::One(_))
}

/// What a line takes below it that stands in a room.
pub(crate) fn takes(room: Room, kind: Kind) -> Room
    ensures { result ≡ takes room kind }
{
    match kind {
        Kind::Header | Kind::Condition | Kind::Guard => Room::One(Child::Slot),
        Kind::Construct(child, true) => Room::One(child),
        Kind::Construct(child, false) => Room::Any(child),
        Kind::Message => match room {
            Room::One(Child::Alternative) | Room::Any(Child::Alternative) => {
                Room::One(Child::Slot)
            }
            _ => Room::Nothing,
        },
        Kind::Close | Kind::Plain | Kind::Declaration | Kind::Nothing => Room::Nothing,
    }
}

fn fits_child(child: Child, kind: Kind) -> bool
    ensures { result ≡ fits_child child kind }
{
    match child {
        Child::Slot => matches!(
            kind,
            Kind::Plain | Kind::Message | Kind::Construct(_, _) | Kind::Declaration
        ),
        Child::Choice => matches!(kind, Kind::Condition | Kind::Construct(Child::Choice, _)),
        Child::Alternative => matches!(
            kind,
            Kind::Message | Kind::Guard | Kind::Construct(Child::Alternative, _)
        ),
    }
}

/// Whether a line may stand in a room, of which it is said whether no child is there yet.
pub(crate) fn fits(room: Room, free: bool, kind: Kind) -> bool
    ensures { result ≡ fits room free kind }
{
    match room {
        Room::Nothing => false,
        Room::One(child) => free && fits_child(child, kind),
        Room::Any(child) => fits_child(child, kind),
    }
}
