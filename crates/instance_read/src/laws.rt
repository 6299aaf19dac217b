//! Laws: what the keys and the sections of a `.vrp` text are, that each text has exactly one reading, what a
//! scale changes, and what the evidence for a bad number is.
ghost use Rattle.instance_read.specs.EvidenceLaws.{EvidenceShowsTheWord, NumbersShowTheWord, SolomonEvidenceShowsTheWord};
ghost use Rattle.instance_read.specs.Readable.{TextsHaveAReading, ReadingsAreUnique};
ghost use Rattle.instance_read.specs.ScaleLaws.{RangesFollowTheScale, ScaledTextsSpellScaledProblems};
ghost use Rattle.instance_read.specs.VrpKeys.{KeyLinesFollowGrammar};
ghost use Rattle.instance_read.specs.VrpLaws.{DepotsAreTwoWords, OnlyDimensionAnnounces, EndIsTheEnd, OtherLinesStayOutside, SectionsHaveALineForEachNode};

/// States that the key of a line is the part before its first colon and the value the part after it, each
/// without the blanks around it. A line without a colon is all key, and its value is empty.
pub fn key_lines_follow_grammar()
    ensures { KeyLinesFollowGrammar }
{}

/// States that the first line of a section of coordinates or demands is followed by as many lines of the
/// section as the first DIMENSION line says.
pub fn sections_have_a_line_for_each_node()
    ensures { SectionsHaveALineForEachNode }
{}

/// States that only certain keys begin a section or end the text, and that only DIMENSION announces nodes.
pub fn other_lines_stay_outside()
    ensures place { OtherLinesStayOutside }
    ensures nodes { OnlyDimensionAnnounces }
{}

/// States that the list of depots ends with the line that has its second word.
pub fn depots_are_two_words()
    ensures { DepotsAreTwoWords }
{}

/// States that lines after EOF do not count.
pub fn eof_is_the_end()
    ensures { EndIsTheEnd }
{}

/// States that every text spells exactly one problem, or else has exactly one first fault, in any format. So the
/// text alone decides the result of reading, unless memory runs out.
pub fn every_text_has_one_reading()
    ensures some { TextsHaveAReading }
    ensures one { ReadingsAreUnique }
{}

/// States that a text spells with a scale the problem that it spells with scale 1, with coordinates, time windows
/// and service times times the scale, if it has no fault with the scale. A number is out of range exactly if its
/// product with the scale leaves the limits.
pub fn scale_multiplies_the_problem()
    ensures problem { ScaledTextsSpellScaledProblems }
    ensures ranges { RangesFollowTheScale }
{}

/// States that the evidence for a line with a bad number is its first such word, with its field and the limits
/// of the field. A bad number is a word that is not a number, or a number beyond its limits. In a Li-Lim text or
/// a text in Solomon's format whose first fault is of this kind, the line is the one that the fault names.
pub fn evidence_shows_the_word()
    ensures numbers { NumbersShowTheWord }
    ensures lilim { EvidenceShowsTheWord }
    ensures solomon { SolomonEvidenceShowsTheWord }
{}
