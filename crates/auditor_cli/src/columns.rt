//! The columns of a line, separated by tabs.
ghost use Rattle.std.specs.Prelude.{◌≡◌, ◌≤◌, length, option_map};
ghost use Rattle.std.specs.List.{position_or_len};
ghost use Rattle.auditor_cli.specs.Columns.{cut, is_tab};

/// Returns the parts before and after the first tab, or `None` if there is no tab.
pub(crate) fn cut(text: &[u8]) -> Option<(&[u8], &[u8])>
    ensures { option_map (λ p. (p.0.now, p.1.now)) result ≡ cut text.now }
{
    let (front, rest) = text.split_at(tab_at(text));
    match rest {
        [] => None,
        [_, following @ ..] => Some((front, following)),
    }
}

fn is_tab(byte: u8) -> bool
    ensures { result ≡ is_tab byte }
{
    byte == b'\t'
}

/// Returns the number of bytes before the first tab, or the length if there is no tab.
pub(crate) fn tab_at(line: &[u8]) -> usize
    ensures value { result ≡ position_or_len is_tab line.now }
    ensures bound { result ≤ length line.now }
{
    line.iter()
        .position(|byte| is_tab(*byte))
        .unwrap_or(line.len())
}
