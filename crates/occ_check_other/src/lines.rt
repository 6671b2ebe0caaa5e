//! What a line of each format should be.

use occ_check_find::{Look, TextKind};

/// What the line at a row of a text of that kind should be.
pub(crate) fn wanted_line(look: Look, kind: TextKind, row: usize) -> &'static str {
    match kind {
        TextKind::Behaviour => behaviour_line(look, row),
        TextKind::Schedule => schedule_line(row),
        TextKind::Normal => normal_line(look, row),
        TextKind::Script => script_line(look, row),
        TextKind::Orders => {
            if row == 0 {
                "occam-orders 2"
            } else {
                "ORDER, a law, FORWARD or BACKWARD and a path, or a part at level 1"
            }
        }
        TextKind::Program | TextKind::Unknown => "a line of a program",
    }
}

fn behaviour_line(look: Look, row: usize) -> &'static str {
    let framed = look.src.is(0, 0, "DIFFER");
    let place = if framed { row.saturating_sub(1) } else { row };
    match place {
        0 => "STATE and the values of the parameters, as STATE [0 1]",
        1 => "TRACE and the events, as TRACE in?0 out!0",
        2 => "REFUSES and a set, as REFUSES {in?0}, or ENDS and a state",
        3 if framed => "ONLY FIRST or ONLY SECOND",
        _ => "the end of the text",
    }
}

fn schedule_line(row: usize) -> &'static str {
    match row {
        0 => "occam-schedule 1",
        1 => "STATE and the values of the parameters, as STATE [0 1]",
        _ => "STEP and the number of a step, as STEP 0",
    }
}

fn normal_line(look: Look, row: usize) -> &'static str {
    if row == 0 {
        return "occam-normal 1";
    }
    match look.src.text_of(row, 0) {
        b"PARAM" => "PARAM and a parameter, as PARAM CHAN OF WORD2 in?",
        b"ROW" => "ROW and the next number, from 0",
        b"END" => "END and a state, in front of the ACCEPT lines of its row",
        b"ACCEPT" => "ACCEPT and a set, behind the END lines of its row",
        b"OFFER" => "OFFER, an event and a lower row, behind the ACCEPT lines of its row",
        b"STATE" => "STATE, an initial state and a row, behind all rows",
        _ => "PARAM, ROW, END, ACCEPT, OFFER or STATE",
    }
}

fn script_line(look: Look, row: usize) -> &'static str {
    match row {
        0 => "occam-script 2",
        1 => "FROM",
        _ => match look.src.text_of(row, 0) {
            b"STEP" => "STEP, a law, FORWARD or BACKWARD and a path, as STEP seq-one FORWARD /",
            _ => "STEP, TO, or a part at level 1",
        },
    }
}
