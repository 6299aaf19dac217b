//! The look of a picture: the style of each class, the shapes of the marks, letters and colours.
ghost use Rattle.std.specs.Prelude.{◌≡◌};
ghost use Rattle.plan_picture.specs.Styles.{style};

/// A part of the style of a picture.
#[derive(Clone, Copy)]
pub(crate) enum Style {
    Letters,
    PairStyle,
    LineStyle,
    TextStyle,
    BarStyle,
    ArrowShape,
    DepotShape,
    PairShapes,
    RingShapes,
    Paper,
    TitleLetters,
    Saturation,
    TickLine,
    Times,
}

impl Style {
    /// Returns the text of the style.
    #[tactic(auto, unfolding(crate::specs::Styles::style))]
    pub(crate) fn as_str(self) -> &'static str
        ensures { result.now ≡ style self }
    {
        match self {
            Style::Letters => " font-family='sans-serif' font-size='14'",
            Style::PairStyle =>
                ">\n<style>.pairs{fill:none;stroke:#777;stroke-width:.5em;stroke-dasharray:2em 2em}",
            Style::LineStyle =>
                ".legs{fill:none;stroke-width:1em;stroke-linejoin:round;marker-mid:url(#arrow)}.depot{stroke-width:.7em;stroke-opacity:.25}g.broken{stroke-width:1.5em;stroke-dasharray:5em 2em}",
            Style::TextStyle =>
                ".badge{font-size:5em;font-weight:bold;fill:white}.number{font-size:4em;stroke:white;stroke-width:.3em;paint-order:stroke}.bad,text.broken{fill:#d00}.heading,.time{fill:#666}.at{font-weight:bold}",
            Style::BarStyle =>
                ".drive{fill:#8bd}.wait{fill:#fc6}.serve{fill:#063}.window{fill:#999}.late{fill:#e00}</style>\n",
            Style::ArrowShape =>
                "<defs>\n<marker id='arrow' viewBox='0 0 4 4' refX='2' refY='2' markerWidth='5' markerHeight='5' orient='auto'><path d='M0 0 4 2 0 4z' fill='context-stroke'/></marker>\n",
            Style::DepotShape =>
                "<rect id='depot' x='-3em' y='-3em' width='6em' height='6em' transform='rotate(45)' stroke='white' stroke-width='.5em'/>\n<circle id='stop' r='2em' stroke='white' stroke-width='.5em'/>\n",
            Style::PairShapes =>
                "<circle id='pickup' r='2.4em' fill='white' stroke='black' stroke-width='.8em'/>\n<rect id='delivery' x='-1.4em' y='-1.4em' width='2.8em' height='2.8em' stroke='white' stroke-width='.4em'/>\n",
            Style::RingShapes =>
                "<circle id='unserved' r='4em' fill='none' stroke='#e70' stroke-width='1em' stroke-dasharray='2em 1em'/>\n<circle id='broken' r='9em' fill='none' stroke='#d00' stroke-width='2em'/>\n</defs>\n",
            Style::Paper => "<rect width='100%' height='100%' fill='white'/>\n",
            Style::TitleLetters => " font-size='20' font-weight='bold'>",
            Style::Saturation => ",75%,",
            Style::TickLine => "<rect fill='#ddd' y='1112' width='1'",
            Style::Times => "<g font-size='9'>\n",
        }
    }
}
