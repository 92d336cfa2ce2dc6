//! The fields that count.
ghost use Rattle.std.specs.Prelude.{◌≡◌, ◌<◌, Some};
ghost use Rattle.debian_scenario.specs.Keys.{key_of, name_of, place};

use std::fmt;

/// A field that counts.
#[derive(Clone, Copy)]
pub enum Key {
    Package,
    Architecture,
    Version,
    /// `APT-ID`
    Id,
    /// `Multi-Arch`
    MultiArch,
    Depends,
    /// `Pre-Depends`
    PreDepends,
    Conflicts,
    Breaks,
    Provides,
    Recommends,
    /// `APT-Pin`
    Pin,
    /// `APT-Candidate`
    Candidate,
    Installed,
    Hold,
    /// `APT-Automatic`
    Automatic,
    Essential,
    Request,
    Install,
    Remove,
    Upgrade,
    /// `Dist-Upgrade`
    DistUpgrade,
    /// `Upgrade-All`
    UpgradeAll,
    Autoremove,
    /// `Forbid-New-Install`
    ForbidNewInstall,
    /// `Forbid-Remove`
    ForbidRemove,
    /// `Strict-Pinning`
    StrictPinning,
}

/// All of them.
const KEYS: [Key; Key::COUNT] = [
    Key::Package,
    Key::Architecture,
    Key::Version,
    Key::Id,
    Key::MultiArch,
    Key::Depends,
    Key::PreDepends,
    Key::Conflicts,
    Key::Breaks,
    Key::Provides,
    Key::Recommends,
    Key::Pin,
    Key::Candidate,
    Key::Installed,
    Key::Hold,
    Key::Automatic,
    Key::Essential,
    Key::Request,
    Key::Install,
    Key::Remove,
    Key::Upgrade,
    Key::DistUpgrade,
    Key::UpgradeAll,
    Key::Autoremove,
    Key::ForbidNewInstall,
    Key::ForbidRemove,
    Key::StrictPinning,
];

impl Key {
    /// How many fields count.
    pub(crate) const COUNT: usize = 27;

    /// The field of this name; none if it doesn't count.
    #[tactic(auto, unfolding(crate::specs::Keys::key_of))]
    pub(crate) fn of(name: &[u8]) -> Option<Key>
        ensures { result ≡ key_of name.now }
    {
        KEYS.iter()
            .copied()
            .find(|key| key.name().as_bytes() == name)
    }

    /// Its name.
    pub fn name(self) -> &'static str
        ensures { result.now ≡ name_of self }
    {
        match self {
            Key::Package => "Package",
            Key::Architecture => "Architecture",
            Key::Version => "Version",
            Key::Id => "APT-ID",
            Key::MultiArch => "Multi-Arch",
            Key::Depends => "Depends",
            Key::PreDepends => "Pre-Depends",
            Key::Conflicts => "Conflicts",
            Key::Breaks => "Breaks",
            Key::Provides => "Provides",
            Key::Recommends => "Recommends",
            Key::Pin => "APT-Pin",
            Key::Candidate => "APT-Candidate",
            Key::Installed => "Installed",
            Key::Hold => "Hold",
            Key::Automatic => "APT-Automatic",
            Key::Essential => "Essential",
            Key::Request => "Request",
            Key::Install => "Install",
            Key::Remove => "Remove",
            Key::Upgrade => "Upgrade",
            Key::DistUpgrade => "Dist-Upgrade",
            Key::UpgradeAll => "Upgrade-All",
            Key::Autoremove => "Autoremove",
            Key::ForbidNewInstall => "Forbid-New-Install",
            Key::ForbidRemove => "Forbid-Remove",
            Key::StrictPinning => "Strict-Pinning",
        }
    }

    /// Its place among the fields that count.
    pub(crate) fn place(self) -> usize
        ensures value { result ≡ place self }
        ensures fits { result < 27 }
    {
        self as usize
    }
}

/// As its name.
impl fmt::Display for Key {
    ghost output = { λ key. Some (name_of key) };

    fn fmt<W: fmt::Write>(&self, f: &mut fmt::Formatter<W>) -> fmt::Result {
        f.write_str(self.name())
    }
}
