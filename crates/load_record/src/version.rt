ghost use Rattle.std.specs.Prelude.{◌≡◌, ◌↔◌, Some};
ghost use Rattle.load_record.specs.Lines.{header};

/// Which form a record has. Both are read; only the second is written.
#[derive(Clone, Copy)]
pub enum Version {
    /// A line for each word.
    First,

    /// Whole words stand in runs of up to 16.
    Second,
}

impl Version {
    /// The first line of a record of this version, without its LF.
    pub fn header(self) -> &'static [u8]
        ensures { result.now ≡ header self }
    {
        match self {
            Version::First => b"LDAODT 1",
            Version::Second => b"LDAODT 2",
        }
    }

    /// The version that a record's first line names, given without its LF. None where it is no
    /// header.
    pub(crate) fn of_header(line: &[u8]) -> Option<Version>
        ensures { (version : Version) → (result ≡ Some version) ↔ (line.now ≡ header version) }
    {
        match line {
            b"LDAODT 1" => Some(Version::First),
            b"LDAODT 2" => Some(Version::Second),
            _ => None,
        }
    }
}
