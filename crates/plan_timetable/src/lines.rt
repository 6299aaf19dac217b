//! The line of a place.
ghost use Rattle.std.specs.Prelude.{◌≡◌, ◌++◌};
ghost use Rattle.std.specs.List.{flat_map};
ghost use Rattle.plan_timetable.specs.Timetable.{entry_text, line_prefix, load_text, pin_word, role_word, times_text, role_text, when_text, place_text, window_text};

use crate::cells::{put_field, put_load, put_number, put_optional_number, put_word};
use crate::entries::{Entry, Role};
use crate::forms::Form;
use crate::words::Word;
use plan_explain::{departure, waiting_time};
use plan_types::Kind;
use text_buffer::TextBuffer;

/// Appends the line of each place.
pub(crate) fn put_entries(
    text: &mut TextBuffer,
    form: Form,
    kind: Kind,
    vehicle: u64,
    entries: &[Entry],
)
    ensures { text.new ≡ text.old ++ flat_map (entry_text form kind vehicle) entries.now }
{
    for entry in entries {
        put_place(text, form, vehicle, entry);
        put_role(text, form, entry);
        put_when(text, form, kind, entry);
        put_load_and_pin(text, form, entry);
    }
}

fn put_place(text: &mut TextBuffer, form: Form, vehicle: u64, entry: &Entry)
    ensures { text.new ≡ text.old ++ place_text form vehicle entry.now }
{
    put_line_prefix(text, form, vehicle);
    let row = &entry.visit.row;
    put_number(text, form, 5, row.place);
    put_number(text, form, 5, u64::from(row.stop))
}

fn put_line_prefix(text: &mut TextBuffer, form: Form, vehicle: u64)
    ensures { text.new ≡ text.old ++ line_prefix form vehicle }
{
    match form {
        Form::Columns => {}
        Form::Tabs => put_field(text, form, Word::Stop, vehicle),
    }
}

fn put_role(text: &mut TextBuffer, form: Form, entry: &Entry)
    ensures { text.new ≡ text.old ++ role_text form entry.now }
{
    put_word(text, form, role_word(entry.role));
    put_optional_number(text, form, entry.partner.map(u64::from))
}

fn role_word(role: Role) -> Word
    ensures { result ≡ role_word role }
{
    match role {
        Role::Pickup => Word::Pickup,
        Role::Delivery => Word::Delivery,
        Role::Single => Word::Single,
        Role::Return => Word::ReturnStop,
    }
}

// Appends the times of a place. In a problem of kind `Vrp` this is only the arrival.
fn put_when(text: &mut TextBuffer, form: Form, kind: Kind, entry: &Entry)
    ensures { text.new ≡ text.old ++ when_text form kind entry.now }
{
    match kind {
        Kind::LiLim => {
            put_times(text, form, entry);
            put_window(text, form, entry)
        }
        Kind::Vrp => put_number(text, form, 8, entry.visit.row.arrival),
    }
}

fn put_times(text: &mut TextBuffer, form: Form, entry: &Entry)
    ensures { text.new ≡ text.old ++ times_text form entry.now }
{
    let row = &entry.visit.row;
    put_number(text, form, 8, departure(&entry.visit));
    put_number(text, form, 8, row.arrival);
    put_number(text, form, 8, row.start);
    put_number(text, form, 8, waiting_time(row))
}

fn put_window(text: &mut TextBuffer, form: Form, entry: &Entry)
    ensures { text.new ≡ text.old ++ window_text form entry.now }
{
    let row = &entry.visit.row;
    put_number(text, form, 8, u64::from(entry.visit.service));
    put_number(text, form, 8, u64::from(row.earliest));
    put_number(text, form, 8, u64::from(row.latest));
    put_optional_number(text, form, entry.latest)
}

fn put_load_and_pin(text: &mut TextBuffer, form: Form, entry: &Entry)
    ensures { text.new ≡ text.old ++ load_text form entry.now }
{
    put_load(text, form, entry.visit.row.load);
    put_word(text, form, pin_word(entry.pin_may_end));
    text.push_str("\n");
}

fn pin_word(pin_may_end: bool) -> Word
    ensures { result ≡ pin_word pin_may_end }
{
    if pin_may_end {
        Word::PinMayEnd
    } else {
        Word::PinMayNotEnd
    }
}
