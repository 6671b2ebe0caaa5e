//! Replies, and how a call ends.

ghost use Rattle.std.specs.Prelude.{◌≡◌, ◌≤◌, ◌<◌, ◌↔◌, ◌⊎◌, Err, IfOk};
ghost use Rattle.occ_call.specs.Ran.{Ends, IsOwnStatus};

use crate::loading::Stop;
use occ_desk::{Desk, send};

/// An answer as it is written, with its status.
#[derive(Drop)]
pub struct Reply {
    pub status: u8,
    pub text: Vec<u8>,
}

/// Sends a reply, if there is one. The result is the status of the process: the reply's own, which is at most 3 or 7; 4 where a read
/// failed; 5 where a write fails; 6 where memory ran out.
pub fn send_reply<D: Desk>(desk: &mut D, made: Result<Reply, Stop>) -> u8
    requires reads_countable { IfOk made (λ reply. D.read_faults desk.old < u64.MAX) }
    requires writes_countable { D.write_faults desk.old < u64.MAX }
    requires own { IfOk made (λ reply. IsOwnStatus reply.status) }
    ensures end { Ends made result (D.written desk.old) (D.written desk.new) }
    ensures read_fault { (result ≡ 4) ↔ (made ≡ Err Stop.Read) }
    ensures write_fault { (result ≡ 5) ↔ (D.write_faults desk.old < D.write_faults desk.new) }
    ensures status { result ≤ 7 }
    ensures nothing { (result ≡ 4) ⊎ (result ≡ 6) → D.written desk.new ≡ D.written desk.old }
    ensures files { D.files desk.new ≡ D.files desk.old }
    ensures asked { D.asked desk.new ≡ D.asked desk.old }
    ensures read_faults { D.read_faults desk.new ≡ D.read_faults desk.old }
{
    match made {
        Ok(reply) => match send(desk, reply.text.as_slice()) {
            Ok(()) => reply.status,
            Err(_) => 5,
        },
        Err(Stop::Read) => 4,
        Err(Stop::Memory) => 6,
    }
}
