//! A text cut in two at a byte.
ghost use Rattle.std.specs.Prelude.{◌≡◌, ◌<◌, ◌+◌, ◌∷◌, ◌++◌, length, take, drop, slice_index, IfSome, MatchOption};
ghost use Rattle.dsr_statement.specs.inner.Cuts.{HasNoPoint};

/// The text before the ASCII byte at a place, and the text behind it.
#[inline(always)]
fn around(text: &str, place: usize) -> (&str, &str)
    requires within { place < length text.now }
    requires ascii { slice_index text.now place < 128 }
    ensures before { result.0.now ≡ take place text.now }
    ensures behind { result.1.now ≡ drop (place + 1) text.now }
{
    (&text[..place], &text[place + 1..])
}

/// The text before the point that ten bytes follow, and these; None if there is no such point.
#[inline(always)]
pub(crate) fn at_point(text: &str) -> Option<(&str, &str)>
    ensures cut { MatchOption result (HasNoPoint text.now)
        (λ cut. text.now ≡ cut.0.now ++ 46 ∷ cut.1.now) }
    ensures ten { IfSome result (λ cut. length cut.1.now ≡ 10) }
{
    if text.len() < 11 {
        return None;
    }
    let place = text.len() - 11;
    if text.as_bytes()[place] == b'.' {
        Some(around(text, place))
    } else {
        None
    }
}

/// The text before the TAB at a place, and the text behind it; None if there is another byte, or none.
#[inline(always)]
fn at_tab(text: &str, place: usize) -> Option<(&str, &str)>
    ensures { IfSome result (λ cut. text.now ≡ cut.0.now ++ 9 ∷ cut.1.now) }
{
    if text.len() <= place {
        return None;
    }
    if text.as_bytes()[place] == b'\t' {
        Some(around(text, place))
    } else {
        None
    }
}

/// The cell at the front of a text, if it is this one and a TAB follows it, and the text behind that.
#[inline(always)]
pub(crate) fn after_cell<'t>(text: &'t str, cell: &str) -> Option<(&'t str, &'t str)>
    ensures same { IfSome result (λ cut. cut.0.now ≡ cell.now) }
    ensures behind { IfSome result (λ cut. text.now ≡ cell.now ++ 9 ∷ cut.1.now) }
{
    let (front, behind) = at_tab(text, cell.len())?;
    if front == cell {
        return Some((front, behind));
    }
    None
}
