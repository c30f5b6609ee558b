//! The pieces of a path between its slashes.
ghost use Rattle.std.specs.Prelude.{◌≡◌, position};
ghost use Rattle.requests.specs.Paths.{after_slash, before_slash, holder_piece, is_slash, number_piece};

/// The piece that names a holder.
pub(crate) fn holder_piece(path: &[u8]) -> &[u8]
    ensures { result.now ≡ holder_piece path.now }
{
    before_slash(after_slash(after_slash(path)))
}

/// The piece that is a number.
pub(crate) fn number_piece(path: &[u8]) -> &[u8]
    ensures { result.now ≡ number_piece path.now }
{
    before_slash(after_slash(after_slash(after_slash(after_slash(path)))))
}

/// What is before the first slash.
fn before_slash(path: &[u8]) -> &[u8]
    ensures { result.now ≡ before_slash path.now }
{
    match slash_in(path) {
        Some(at) => &path[..at],
        None => path,
    }
}

/// What is after the first slash.
fn after_slash(path: &[u8]) -> &[u8]
    ensures { result.now ≡ after_slash path.now }
{
    match slash_in(path) {
        Some(at) => &path[at + 1..],
        None => &[],
    }
}

fn slash_in(path: &[u8]) -> Option<usize>
    ensures { result ≡ position is_slash path.now }
{
    path.iter().position(|byte| *byte == b'/')
}
