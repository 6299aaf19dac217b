//! The grammar of route lines and of cost lines, as laws about every line.
ghost use Rattle.sol_text.specs.Laws.{CostLinesFollowGrammar, RouteLinesFollowGrammar};

use text_lines::lines_split_into_words;

/// States that a route line is `Route`, a number and a colon, with optional blanks and `#` between them, and
/// then the customers.
pub fn route_lines_follow_grammar()
    ensures { RouteLinesFollowGrammar }
{}

/// States that a cost line is `Cost`, a separator (a colon, blanks or both), and one word.
pub fn cost_lines_follow_grammar()
    ensures { CostLinesFollowGrammar }
{
    lines_split_into_words();
}
