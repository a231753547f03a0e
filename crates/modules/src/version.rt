//! The versions of the module file.

ghost use Rattle.modules.specs.Format.{version_number};
ghost use Rattle.modules.specs.Versions.{exists_in};
ghost use Rattle.std.specs.Prelude.{◌≡◌};

/// A version of the module file. A file of a version has the instructions that exist since that version or an
/// earlier one.
#[derive(Clone, Copy, Debug, PartialEq, Eq)]
pub enum Version {
    One,
    /// With the operators on bits.
    Two,
}

impl Version {
    /// The number by which the file names the version.
    pub fn number(self) -> u32
        ensures { result ≡ version_number self }
    {
        match self {
            Version::One => 1,
            Version::Two => 2,
        }
    }

    /// Whether a file of the version has what exists since a version.
    pub fn has(self, since: Version) -> bool
        ensures { result ≡ exists_in since self }
    {
        match since {
            Version::One => true,
            Version::Two => match self {
                Version::One => false,
                Version::Two => true,
            },
        }
    }
}
