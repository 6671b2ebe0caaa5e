ghost use Rattle.std.specs.Prelude.{◌≡◌, ◌<◌, ◌++◌, ◌∷◌, length, OnOk};
ghost use Rattle.occ_tool_run.specs.occ_behaviour.Members.{AreNamed};
ghost use Rattle.occ_tool_run.specs.occ_behaviour.Texts.{spaced};
ghost use Rattle.occ_draw.specs.Spans.{events_text, precedes as precedes_of, same_end as same_end_of, span_text};
ghost use Rattle.occ_draw.specs.Starting.{spans_from};

use itoa::Buffer;
use occ_syntax::{Event, Memory, Names};
use occ_tool_run::push_event;

/// Adds events with their values in ranges.
pub(crate) fn push_events(text: &mut Vec<u8>, names: &Names, events: &[Event]) -> Result<(), Memory>
    requires { AreNamed names.now events.now }
    ensures { OnOk result (text.new.items ≡ text.old.items ++ events_text names.now events.now) }
{
    match events {
        [] => Ok(()),
        [first, rest @ ..] => push_spans(text, names, *first, *first, rest),
    }
}

// Adds the spans of events, of which the first has begun with an event and has come to another one.
fn push_spans(
    text: &mut Vec<u8>,
    names: &Names,
    first: Event,
    last: Event,
    rest: &[Event],
) -> Result<(), Memory>
    requires first { first.chan.0 < length names.now }
    requires rest { AreNamed names.now rest.now }
    ensures { OnOk result (text.new.items ≡ text.old.items ++ spaced (span_text names.now) (spans_from first last rest.now)) }
{
    match rest {
        [] => push_span(text, names, first, last.value),
        [next, rest @ ..] => {
            if precedes(last, *next) {
                return push_spans(text, names, first, *next, rest);
            }
            push_span(text, names, first, last.value)?;
            text.push(b' ')?;
            push_spans(text, names, *next, *next, rest)
        }
    }
}

// Adds a span: the first event, and behind two dots the last value where it is another one.
fn push_span(text: &mut Vec<u8>, names: &Names, first: Event, last: u8) -> Result<(), Memory>
    requires { first.chan.0 < length names.now }
    ensures { OnOk result (text.new.items ≡ text.old.items ++ span_text names.now (first, last)) }
{
    push_event(text, names, first)?;
    if first.value == last {
        return Ok(());
    }
    let mut buffer = Buffer::new();
    text.extend_from_slice(b"..")?;
    text.extend_from_slice(buffer.format(last).as_bytes())?;
    Ok(())
}

// Whether the second event has the value behind the first one's, on its channel.
fn precedes(first: Event, second: Event) -> bool
    ensures { result ≡ precedes_of first second }
{
    same_end(first, second) && u16::from(first.value) + 1 == u16::from(second.value)
}

/// Whether two events are on one channel, in one direction.
pub(crate) fn same_end(first: Event, second: Event) -> bool
    ensures { result ≡ same_end_of first second }
{
    first.chan == second.chan && first.dir == second.dir
}
