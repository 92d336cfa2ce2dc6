//! What apt asks for.
ghost use Rattle.std.specs.Prelude.{◌≡◌};
ghost use Rattle.debian_scenario.specs.Plain.{plain_request, plain_stanza};
ghost use Rattle.debian_scenario.specs.Requests.{actions_in, protocol_in, request_in};
ghost use Rattle.debian_scenario.specs.Results.{result_map};

use crate::fault::StanzaFault;
use crate::key::Key;
use crate::stanza::Stanza;
use debian_text::trimmed;

/// What apt asks for.
#[derive(Clone, Copy)]
pub struct Request<'t> {
    /// The native architecture.
    pub architecture: &'t [u8],
    /// The value of `Install`: of each of these names a version is to be there.
    pub install: &'t [u8],
    /// The value of `Remove`: none of these is to be there.
    pub remove: &'t [u8],
    pub actions: Actions,
}

/// What else it asks for.
#[derive(Clone, Copy)]
pub struct Actions {
    pub upgrade: bool,
    pub dist_upgrade: bool,
    pub upgrade_all: bool,
    pub autoremove: bool,
    pub forbid_new_install: bool,
    pub forbid_remove: bool,
    /// Only candidates may be picked anew; so it is if nothing else is said.
    pub strict_pinning: bool,
}

impl<'t> Request<'t> {
    /// The request that a stanza says.
    pub(crate) fn of(stanza: &Stanza<'t>) -> Result<Request<'t>, StanzaFault>
        ensures { result_map plain_request result ≡ request_in (plain_stanza stanza.now) }
    {
        let _protocol = protocol(stanza)?;
        let architecture = stanza.word(Key::Architecture)?;
        let actions = Actions::of(stanza)?;
        Ok(Request {
            architecture,
            install: stanza.text(Key::Install),
            remove: stanza.text(Key::Remove),
            actions,
        })
    }
}

/// The protocol, which has to be EDSP 0.5.
fn protocol<'t>(stanza: &Stanza<'t>) -> Result<&'t [u8], StanzaFault>
    ensures { result_map (λ text. text.now) result ≡ protocol_in (plain_stanza stanza.now) }
{
    let text = stanza.required(Key::Request)?;
    match trimmed(text) {
        b"EDSP 0.5" => Ok(text),
        _ => Err(StanzaFault::Unreadable(Key::Request)),
    }
}

impl Actions {
    /// What a stanza asks for by `yes` and `no`.
    fn of(stanza: &Stanza<'_>) -> Result<Actions, StanzaFault>
        ensures { result ≡ actions_in (plain_stanza stanza.now) }
    {
        let upgrade = stanza.flag(Key::Upgrade, false)?;
        let dist_upgrade = stanza.flag(Key::DistUpgrade, false)?;
        let upgrade_all = stanza.flag(Key::UpgradeAll, false)?;
        let autoremove = stanza.flag(Key::Autoremove, false)?;
        let forbid_new_install = stanza.flag(Key::ForbidNewInstall, false)?;
        let forbid_remove = stanza.flag(Key::ForbidRemove, false)?;
        let strict_pinning = stanza.flag(Key::StrictPinning, true)?;
        Ok(Actions {
            upgrade,
            dist_upgrade,
            upgrade_all,
            autoremove,
            forbid_new_install,
            forbid_remove,
            strict_pinning,
        })
    }
}
