//! The words between the numbers.
ghost use Rattle.std.specs.Prelude.{◌≡◌, ◌++◌};
ghost use Rattle.request_explanation.specs.Words.{word, word_and_number};

use text_buffer::TextBuffer;

/// Words before or after a number.
#[derive(Clone, Copy)]
pub(crate) enum Word {
    AloneStop,
    AloneBack,
    AloneFits,
    Needs,
    VehicleTakes,
    StartsAt,
    WouldStartAt,
    Latest,
    Vehicle,
    Stop,
    WouldStart,
    Back,
    Late,
    AfterStop,
    WouldCarry,
    TooMuch,
    FitsAtPlace,
    FitsAtPlaces,
    And,
    AtPlace,
    Fleet,
    Of,
    VehiclesUsed,
    Why,
    Colon,
    WhyTab,
    Tab,
}

impl Word {
    #[tactic(auto, unfolding(crate::specs::Words::word))]
    fn text(self) -> &'static str
        ensures { result.now ≡ word self }
    {
        match self {
            Word::AloneStop => "alone: stop ",
            Word::AloneBack => "alone: would be back at ",
            Word::AloneFits => "alone: a vehicle can serve it\n",
            Word::Needs => " needs ",
            Word::VehicleTakes => ", a vehicle takes ",
            Word::StartsAt => " starts at ",
            Word::WouldStartAt => " would start at ",
            Word::Latest => ", latest ",
            Word::Vehicle => "vehicle ",
            Word::Stop => ": stop ",
            Word::WouldStart => " would start ",
            Word::Back => ": would be back ",
            Word::Late => " late",
            Word::AfterStop => ": behind stop ",
            Word::WouldCarry => " it would carry ",
            Word::TooMuch => " too much",
            Word::FitsAtPlace => ": fits at place ",
            Word::FitsAtPlaces => ": fits at places ",
            Word::And => " and ",
            Word::AtPlace => " at place ",
            Word::Fleet => "fleet: ",
            Word::Of => " of ",
            Word::VehiclesUsed => " vehicles are used",
            Word::Why => "why ",
            Word::Colon => ": ",
            Word::WhyTab => "why\t",
            Word::Tab => "\t",
        }
    }
}

/// Appends words.
pub(crate) fn put_word(text: &mut TextBuffer, what: Word)
    ensures { text.new ≡ text.old ++ word what }
{
    text.push_str(what.text());
}

/// Appends words and the number after them.
pub(crate) fn put_word_and_number(text: &mut TextBuffer, what: Word, n: u64)
    ensures { text.new ≡ text.old ++ word_and_number what n }
{
    put_word(text, what);
    text.push_number(n);
}
