// The files that are judged or drawn.
ghost use Rattle.std.specs.Prelude.{◌≡◌};
ghost use Rattle.inspect_calls.specs.Output as spec;

/// A file that is read whole.
#[derive(Clone, Copy, Debug, PartialEq, Eq)]
pub(crate) enum File {
    Output,
    Setting,
    Story,
}

impl File {
    /// What is said where it can't be read.
    pub(crate) fn fault_line(self) -> &'static [u8]
        ensures { result.now ≡ spec.fault_line self }
    {
        match self {
            File::Output => b"stopped 4: output read fault\n",
            File::Setting => b"stopped 4: setting read fault\n",
            File::Story => b"stopped 4: story read fault\n",
        }
    }

    /// What is said where it has more bytes than are read.
    pub(crate) fn long_line(self) -> &'static [u8]
        ensures { result.now ≡ spec.long_line self }
    {
        match self {
            File::Output => b"stopped 9: output text too long\n",
            File::Setting => b"stopped 9: setting text too long\n",
            File::Story => b"stopped 9: story text too long\n",
        }
    }
}
