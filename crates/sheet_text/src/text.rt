ghost use Rattle.std.specs.Prelude.{◌≡◌, ◌+◌, ◌-◌, ◌*◌, ◌<◌, ◌≤◌, ◌==◌, false, position, ◌∷◌, length, IfSome, Some, None, MatchOption, cond};
ghost use Rattle.sheet_text.specs.Text.{rows, starts_well, cut_at, number_of, and_then, is_figure, figures_from, up_to_most};

// The place of the first `b`.
fn place_of(b: u8, s: &[u8]) -> Option<usize>
    ensures { result ≡ position (λ x. x == b) s.now }
{
    s.iter().position(|x| *x == b)
}

// The bytes before the first `b`, and those behind it.
pub fn cut<'a>(s: &'a [u8], b: u8) -> Option<(&'a [u8], &'a [u8])>
    ensures { MatchOption result (cut_at b s.now ≡ None) (λ p. cut_at b s.now ≡ Some (p.0.now, p.1.now)) }
{
    let at = place_of(b, s)?;
    Some((&s[..at], &s[at + 1..]))
}

// The first line of a text and what is behind it, where the line has its line feed and at most 64 bytes before it.
pub(crate) fn next_line<'a>(text: &'a [u8]) -> Option<(&'a [u8], &'a [u8])>
    ensures value { MatchOption result (starts_well (rows text.now) ≡ false) (λ p. rows text.now ≡ Some p.0.now ∷ rows p.1.now) }
    ensures shorter { IfSome result (λ p. length p.1.now < length text.now) }
{
    let at = place_of(b'\n', &text[..text.len().min(65)])?;
    Some((&text[..at], &text[at + 1..]))
}

// The number that `n` with one figure more behind it stands for, where it is at most `most`.
fn with_figure(most: u64, n: u64, d: u8) -> Option<u64>
    ensures { result ≡ (cond (is_figure d) (up_to_most most (n * 10 + (d - 48))) None) }
{
    if !d.is_ascii_digit() {
        return None;
    }
    let more = n.checked_mul(10)?.checked_add(u64::from(d - b'0'))?;
    (more <= most).then_some(more)
}

// The number that these figures stand for, where it is at most `most`; none stand for 0.
pub fn figures(most: u64, word: &[u8]) -> Option<u64>
    ensures { result ≡ and_then (figures_from 0 word.now) (up_to_most most) }
{
    let mut n: u64 = 0;
    for d in word {
        n = with_figure(most, n, *d)?;
    }
    Some(n)
}

// Figures in base ten without leading zeros, of a number that is at most `most`.
pub(crate) fn number(most: u16, word: &[u8]) -> Option<u16>
    ensures { result ≡ number_of most word.now }
{
    match word {
        [] | [b'0', _, ..] => None,
        _ => Some(figures(u64::from(most), word)? as u16),
    }
}
