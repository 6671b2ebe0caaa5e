ghost use Rattle.std.specs.Prelude.{◌≡◌, ◌≤◌, length};
ghost use Rattle.occ_syntax.specs.Counts.{bits_of_scope};
ghost use Rattle.occ_behaviour.specs.Places.{place_in};

use occ_syntax::{Kind, Name};

/// The place of a channel among the parameters, or the place after all.
pub fn place_in(params: &[(Name, Kind)], chan: Name) -> usize
    ensures place { result ≡ place_in params.now chan }
    ensures within { result ≤ length params.now }
{
    let mut place = 0;
    for (name, _) in params {
        if *name == chan {
            return place;
        }
        place += 1;
    }
    place
}

/// The bits of the variables of an interface together.
pub fn interface_bits(params: &[(Name, Kind)]) -> u32
    requires { bits_of_scope params.now ≤ 64 }
    ensures { result ≡ bits_of_scope params.now }
{
    let mut bits: u32 = 0;
    for (_, kind) in params {
        bits += u32::from(kind.bits());
    }
    bits
}
