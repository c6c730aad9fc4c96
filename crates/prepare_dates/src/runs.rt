// The three runs of bytes that a mark parts.
ghost use Rattle.std.specs.Prelude.{◌≡◌};
ghost use Rattle.prepare_dates.specs.Days.{before, behind};

/// What stands before the first mark, between it and the second one, and behind that.
#[derive(Clone, Copy)]
pub(crate) struct Runs<'a> {
    pub first: &'a [u8],
    pub second: &'a [u8],
    pub last: &'a [u8],
}

fn before(mark: u8, bytes: &[u8]) -> &[u8]
    ensures { result.now ≡ before mark bytes.now }
{
    for i in 0..bytes.len() {
        if bytes[i] == mark {
            return &bytes[..i];
        }
    }
    bytes
}

fn behind(mark: u8, bytes: &[u8]) -> &[u8]
    ensures { result.now ≡ behind mark bytes.now }
{
    for i in 0..bytes.len() {
        if bytes[i] == mark {
            return &bytes[i + 1..];
        }
    }
    &[]
}

/// The three runs that this mark parts; a run that isn't there is empty.
pub(crate) fn runs_by(mark: u8, field: &[u8]) -> Runs<'_>
    ensures first { result.first.now ≡ before mark field.now }
    ensures second { result.second.now ≡ before mark (behind mark field.now) }
    ensures last { result.last.now ≡ behind mark (behind mark field.now) }
{
    let rest = behind(mark, field);
    Runs {
        first: before(mark, field),
        second: before(mark, rest),
        last: behind(mark, rest),
    }
}
