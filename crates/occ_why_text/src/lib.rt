//! Why two programs differ, and why a program gets stuck, in words: how a program comes to a behaviour, how its parts stand then and whom
//! they wait for, what another program does there, and the smallest refusal that tells them apart.
#![tactic(auto)]

mod begins;
mod behind;
mod cases;
mod look;
mod others;
mod parts;
mod phrases;
mod ring;
mod route;
mod shape;
mod subject;
mod telling;
mod verdict;
mod waiting;

pub use cases::{Case, page};
pub use look::{Look, look_along};
pub use occ_place::Places;
pub use occ_run::{Accepted, Behaviour, Point, Side, Verdict, behaviour_text};
pub use occ_syntax::{Memory, Names};
pub use route::{Walk, walked};
pub use subject::Subject;
pub use telling::{refusing, smallest_refusal};
