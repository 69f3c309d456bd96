//! Cuts a text into tokens.
ghost use Rattle.std.specs.Prelude.{◌≡◌, ◌<◌, [], ◌∷◌, ◌≤◌, MatchOption, length, take, drop};
ghost use Rattle.std.specs.Prelude.{slice_index, true, false};
ghost use Rattle.std.specs.List.{slice_split};
ghost use Rattle.cam6_forth.specs.Tokens.{is_space, tokens, with_front};

/// Returns the first token, without the spaces, tabs and line ends around it, and the text right
/// after it. Returns `None` if the text has no token.
pub(crate) fn first_token(text: &[u8]) -> Option<(&[u8], &[u8])>
    ensures token { MatchOption result (tokens text.now ≡ [])
        (λ cut. tokens text.now ≡ cut.0.now ∷ tokens cut.1.now) }
    ensures less { MatchOption result (Unit {0}) (λ cut. length cut.1.now < length text.now) }
{
    let start = space_len(text);
    if start == text.len() {
        return None;
    }
    let (_, rest) = text.split_at(start);
    Some(rest.split_at(run_len(rest)))
}

/// Returns how many bytes that are spaces, tabs, CR or LF the text begins with. If it has nothing
/// else, returns its length.
fn space_len(text: &[u8]) -> usize
    ensures within { result ≤ length text.now }
    ensures same { tokens (drop result text.now) ≡ tokens text.now }
    ensures stops { result < length text.now → is_space (slice_index text.now result) ≡ false }
{
    let mut start = 0;
    while start < text.len() && is_space(text[start]) {
        start += 1;
    }
    start
}

/// Returns how many bytes stand before the first space, tab, CR or LF. If there is none, returns
/// the text's length.
fn run_len(text: &[u8]) -> usize
    ensures within { result ≤ length text.now }
    ensures parts { slice_split is_space text.now
        ≡ with_front (take result text.now) (slice_split is_space (drop result text.now)) }
    ensures stops { result < length text.now → is_space (slice_index text.now result) ≡ true }
{
    let mut end = 0;
    while end < text.len() && !is_space(text[end]) {
        end += 1;
    }
    end
}

/// Whether a byte is a space, a tab, CR or LF. No other byte separates tokens.
fn is_space(byte: u8) -> bool
    ensures { result ≡ is_space byte }
{
    byte == b' ' || byte == b'\t' || byte == b'\r' || byte == b'\n'
}
