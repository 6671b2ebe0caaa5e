ghost use Rattle.std.specs.Prelude.{◌<◌, length};

use occ_law::LawId;
use occ_parse_part::{Raw, Text};
use occ_script_lines::{Direction, Path};
use occ_syntax::{List, Program};

/// A step: the law, the way in which it is used, the path of a part, and the part that comes into its place. The law is None
/// where the table has no law of the name that was given.
#[derive(Drop)]
pub struct Step {
    pub law: Option<LawId>,
    pub dir: Direction,
    pub path: Path,
    pub part: Raw,
}

/// An order: the law, the way in which it is used, the path of a part, and the part that is to come into its place, where the order
/// gives one. The law is None where the table has no law of the name that was given.
#[derive(Drop)]
pub struct Order {
    pub law: Option<LawId>,
    pub dir: Direction,
    pub path: Path,
    pub part: Option<Raw>,
}

/// The steps of a script.
pub type Steps = List<Step>;

/// The orders of a text.
pub type Orders = List<Order>;

/// A script: the program that it begins with, the steps, and the program that it comes to.
#[derive(Drop)]
pub struct Script {
    pub from: Text,
    pub steps: Steps,
    pub to: Program,
}

/// The lines of a program in a text of their own: all in front of them is blank.
#[derive(Drop)]
pub(crate) struct Framed {
    pub text: Vec<u8>,
    ghost small: { length text.items < 4294967295 },
}

/// A script whose lines are in order: the lines of its programs, and its steps.
#[derive(Drop)]
pub(crate) struct Formed {
    pub from: Framed,
    pub steps: Steps,
    pub to: Framed,
}
