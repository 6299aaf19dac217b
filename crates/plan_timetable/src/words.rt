//! The words of a timetable, in columns and with tabs.
ghost use Rattle.std.specs.Prelude.{◌≡◌};
ghost use Rattle.plan_timetable.specs.Words.{in_form, word};

use crate::forms::Form;

/// A word before a number, instead of a number, or on a line of its own.
#[derive(Clone, Copy)]
pub(crate) enum Word {
    Vehicle,
    Stops,
    Distance,
    Load,
    Departure,
    Return,
    Waiting,
    TimesHeading,
    LoadsHeading,
    Stop,
    Pickup,
    Delivery,
    Single,
    ReturnStop,
    Nothing,
    PinMayEnd,
    PinMayNotEnd,
    Gap,
    Unplanned,
}

impl Word {
    /// Returns the word in this form, in ASCII.
    #[tactic(auto, unfolding(crate::specs::Words::word))]
    pub(crate) fn text(self, form: Form) -> &'static str
        ensures { result.now ≡ word form self }
    {
        match self {
            Word::Vehicle => in_form(form, "\nvehicle ", "vehicle\t"),
            Word::Stops => in_form(form, ": stops ", "\t"),
            Word::Distance => in_form(form, ", distance ", "\t"),
            Word::Load => in_form(form, ", load ", "\t"),
            Word::Departure => in_form(form, ", set off ", "\t"),
            Word::Return => in_form(form, ", return ", "\t"),
            Word::Waiting => in_form(form, ", waiting ", "\t"),
            Word::TimesHeading => in_form(
                form,
                " place  stop  kind      partner  set off  arrival    start  waiting  service     from       to   latest     load\n",
                "",
            ),
            Word::LoadsHeading => in_form(
                form,
                " place  stop  kind      partner  arrival     load\n",
                "",
            ),
            Word::Stop => in_form(form, "", "stop\t"),
            Word::Pickup => in_form(form, "  pickup  ", "\tpickup"),
            Word::Delivery => in_form(form, "  delivery", "\tdelivery"),
            Word::Single => in_form(form, "  single  ", "\tsingle"),
            Word::ReturnStop => in_form(form, "  return  ", "\treturn"),
            Word::Nothing => in_form(form, "        -", "\t-"),
            Word::PinMayEnd => in_form(form, " pin", "\tpin"),
            Word::PinMayNotEnd => in_form(form, "", "\t-"),
            Word::Gap => in_form(form, "\n", ""),
            Word::Unplanned => in_form(form, "unplanned ", "unplanned\t"),
        }
    }
}

// Returns the words of this form.
fn in_form(form: Form, columns: &'static str, tabs: &'static str) -> &'static str
    ensures { result.now ≡ in_form form columns.now tabs.now }
{
    match form {
        Form::Columns => columns,
        Form::Tabs => tabs,
    }
}
