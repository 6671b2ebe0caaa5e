ghost use Rattle.std.specs.Prelude.{◌≡◌, ◌<◌, ◌++◌, length, OnOk, IfOk};
ghost use Rattle.std.specs.List.{flat_map};
ghost use Rattle.occ_behaviour.specs.Members.{AreNamed};
ghost use Rattle.occ_nform_table.specs.Judging.{row_text};
ghost use Rattle.occ_nform_table.specs.Rows.{end_line, accept_line, offer_line, AcceptsAreNamed, OffersAreNamed, RowIsNamed};

use crate::TableRow;
use occ_behaviour::{push_event, push_set, push_state};
use occ_lex::{Event, Events, Memory, Name, Names, State, push_number};
use std::alloc::Global;

/// The text of a row: the lines under its ROW line. The channels of its events have names.
pub fn row_text(alloc: Global, names: &Names, row: &TableRow) -> Result<Vec<u8>, Memory>
    requires { RowIsNamed names.now row.now }
    ensures { IfOk result (λ text. text.items ≡ row_text names.now row.now) }
{
    let mut text = Vec::new(alloc);
    push_ends(&mut text, row.ends.items())?;
    push_accepts(&mut text, names, row.accepts.items())?;
    push_offers(&mut text, names, row.offers.items())?;
    Ok(text)
}

fn push_ends(text: &mut Vec<u8>, ends: &[State]) -> Result<(), Memory>
    ensures { OnOk result (text.new.items ≡ text.old.items ++ flat_map end_line ends.now) }
{
    for state in ends {
        push_end(text, state.items())?;
    }
    Ok(())
}

fn push_end(text: &mut Vec<u8>, state: &[(Name, u8)]) -> Result<(), Memory>
    ensures { OnOk result (text.new.items ≡ text.old.items ++ end_line state.now) }
{
    text.extend_from_slice(b"END ")?;
    push_state(text, state)?;
    text.extend_from_slice(b"\n")?;
    Ok(())
}

fn push_accepts(text: &mut Vec<u8>, names: &Names, accepts: &[Events]) -> Result<(), Memory>
    requires { AcceptsAreNamed names.now accepts.now }
    ensures { OnOk result (text.new.items ≡ text.old.items ++ flat_map (accept_line names.now) accepts.now) }
{
    for set in accepts {
        push_accept(text, names, set.items())?;
    }
    Ok(())
}

fn push_accept(text: &mut Vec<u8>, names: &Names, set: &[Event]) -> Result<(), Memory>
    requires { AreNamed names.now set.now }
    ensures { OnOk result (text.new.items ≡ text.old.items ++ accept_line names.now set.now) }
{
    text.extend_from_slice(b"ACCEPT ")?;
    push_set(text, names, set)?;
    text.extend_from_slice(b"\n")?;
    Ok(())
}

fn push_offers(text: &mut Vec<u8>, names: &Names, offers: &[(Event, u32)]) -> Result<(), Memory>
    requires { OffersAreNamed names.now offers.now }
    ensures { OnOk result (text.new.items ≡ text.old.items ++ flat_map (offer_line names.now) offers.now) }
{
    for offer in offers {
        push_offer(text, names, offer.0, offer.1)?;
    }
    Ok(())
}

fn push_offer(text: &mut Vec<u8>, names: &Names, event: Event, row: u32) -> Result<(), Memory>
    requires { event.chan.0 < length names.now }
    ensures { OnOk result (text.new.items ≡ text.old.items ++ offer_line names.now (event, row)) }
{
    text.extend_from_slice(b"OFFER ")?;
    push_event(text, names, event)?;
    text.extend_from_slice(b" ")?;
    push_number(text, u64::from(row))?;
    text.extend_from_slice(b"\n")?;
    Ok(())
}
