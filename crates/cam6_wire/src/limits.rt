//! How long a line may be.
ghost use Rattle.std.specs.Prelude.{◌≡◌, ◌++◌};
ghost use Rattle.cam6_wire.specs.Limits.{begins_load, limit_of};

/// The most bytes of a line, without its LF.
pub const LINE_LIMIT: usize = 16_384;

/// The most bytes of a line that begins as a load does, without its LF.
pub const LOAD_LINE_LIMIT: usize = 2_097_152;

/// The bytes with which a load begins.
const LOAD_HEAD: [u8; 13] = *b"{\"do\":\"load\",";

/// Returns the most bytes that a line may have, without its LF: 2,097,152 if it begins as a load
/// does, and else 16,384.
pub fn line_limit(line: &[u8]) -> usize
    ensures { result ≡ limit_of line.now }
{
    if begins_load(line) {
        LOAD_LINE_LIMIT
    } else {
        LINE_LIMIT
    }
}

/// Whether a line begins as a load does: with `{"do":"load",`.
#[tactic(auto, unfolding(crate::specs::Limits::begins_load))]
fn begins_load(line: &[u8]) -> bool
    ensures { result ≡ begins_load line.now }
{
    line.starts_with(&LOAD_HEAD)
}

/// Whether the line that is `front` and then `part` begins as a load does: with `{"do":"load",`.
pub fn begins_load_in(front: &[u8], part: &[u8]) -> bool
    ensures { result ≡ begins_load (front.now ++ part.now) }
{
    if front.len() >= LOAD_HEAD.len() {
        return begins_load(front);
    }
    let (_, rest) = LOAD_HEAD.split_at(front.len());
    if !LOAD_HEAD.starts_with(front) {
        return false;
    }
    part.starts_with(rest)
}
