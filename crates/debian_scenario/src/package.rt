//! Packages.
ghost use Rattle.std.specs.Prelude.{◌≡◌};
ghost use Rattle.debian_scenario.specs.Packages.{identity_in, multi_arch_in, package_in, relations_in, state_in};
ghost use Rattle.debian_scenario.specs.Plain.{plain_identity, plain_package, plain_relations, plain_stanza};
ghost use Rattle.debian_scenario.specs.Results.{result_map};

use crate::fault::StanzaFault;
use crate::key::Key;
use crate::stanza::Stanza;
use debian_text::trimmed;

/// One version of a package.
#[derive(Clone, Copy)]
pub struct Package<'t> {
    pub identity: Identity<'t>,
    pub state: State,
    pub multi_arch: MultiArch,
    pub relations: Relations<'t>,
}

/// Which package it is. The architecture `all` counts as the native one.
#[derive(Clone, Copy)]
pub struct Identity<'t> {
    pub name: &'t [u8],
    pub architecture: &'t [u8],
    pub version: &'t [u8],
    /// By which the answer names it.
    pub id: &'t [u8],
}

/// What apt knows of it.
#[derive(Clone, Copy)]
pub struct State {
    pub is_installed: bool,
    pub is_held: bool,
    pub is_automatic: bool,
    /// Whether apt would pick it among the versions of its name.
    pub is_candidate: bool,
    pub is_essential: bool,
}

/// Whom it serves in other architectures.
#[derive(Clone, Copy)]
pub enum MultiArch {
    No,
    /// It may stand beside itself of another architecture.
    Same,
    /// It serves any architecture.
    Foreign,
    /// It serves whoever names it with `any`.
    Allowed,
}

/// The values of some fields as they are written: an empty text if there is no such field.
#[derive(Clone, Copy)]
pub struct Relations<'t> {
    pub depends: &'t [u8],
    pub pre_depends: &'t [u8],
    pub conflicts: &'t [u8],
    pub breaks: &'t [u8],
    pub provides: &'t [u8],
    pub recommends: &'t [u8],
    /// A number, of no relation: how much apt likes the version.
    pub pin: &'t [u8],
}

impl<'t> Package<'t> {
    /// The package that a stanza is about.
    pub(crate) fn of(stanza: &Stanza<'t>) -> Result<Package<'t>, StanzaFault>
        ensures { result_map plain_package result ≡ package_in (plain_stanza stanza.now) }
    {
        let identity = Identity::of(stanza)?;
        let state = State::of(stanza)?;
        let multi_arch = MultiArch::of(stanza)?;
        Ok(Package {
            identity,
            state,
            multi_arch,
            relations: Relations::of(stanza),
        })
    }
}

impl<'t> Identity<'t> {
    /// Which package a stanza is about.
    fn of(stanza: &Stanza<'t>) -> Result<Identity<'t>, StanzaFault>
        ensures { result_map plain_identity result ≡ identity_in (plain_stanza stanza.now) }
    {
        let name = stanza.word(Key::Package)?;
        let architecture = stanza.word(Key::Architecture)?;
        let version = stanza.version(Key::Version)?;
        let id = stanza.word(Key::Id)?;
        Ok(Identity {
            name,
            architecture,
            version,
            id,
        })
    }
}

impl State {
    /// What a stanza says of its package's state.
    fn of(stanza: &Stanza<'_>) -> Result<State, StanzaFault>
        ensures { result ≡ state_in (plain_stanza stanza.now) }
    {
        let is_installed = stanza.flag(Key::Installed, false)?;
        let is_held = stanza.flag(Key::Hold, false)?;
        let is_automatic = stanza.flag(Key::Automatic, false)?;
        let is_candidate = stanza.flag(Key::Candidate, false)?;
        let is_essential = stanza.flag(Key::Essential, false)?;
        Ok(State {
            is_installed,
            is_held,
            is_automatic,
            is_candidate,
            is_essential,
        })
    }
}

impl MultiArch {
    /// Whom a stanza's package serves.
    fn of(stanza: &Stanza<'_>) -> Result<MultiArch, StanzaFault>
        ensures { result ≡ multi_arch_in (plain_stanza stanza.now) }
    {
        match trimmed(stanza.text(Key::MultiArch)) {
            b"" | b"no" => Ok(MultiArch::No),
            b"same" => Ok(MultiArch::Same),
            b"foreign" => Ok(MultiArch::Foreign),
            b"allowed" => Ok(MultiArch::Allowed),
            _ => Err(StanzaFault::Unreadable(Key::MultiArch)),
        }
    }
}

impl<'t> Relations<'t> {
    /// The values of the fields of relations.
    fn of(stanza: &Stanza<'t>) -> Relations<'t>
        ensures { plain_relations result ≡ relations_in (plain_stanza stanza.now) }
    {
        Relations {
            depends: stanza.text(Key::Depends),
            pre_depends: stanza.text(Key::PreDepends),
            conflicts: stanza.text(Key::Conflicts),
            breaks: stanza.text(Key::Breaks),
            provides: stanza.text(Key::Provides),
            recommends: stanza.text(Key::Recommends),
            pin: stanza.text(Key::Pin),
        }
    }
}
