// Identifier and inner type.
ghost use Rattle.std.specs.Prelude.{◌≡◌};
ghost use Rattle.commands.specs.Kinds.{transport_of, request_of, listed, kind_of};

use crate::{Command, Kind, Requested, Transported};

#[tactic(auto, unfolding(crate::specs::Kinds::transport_of))]
fn transport_of(sort: u8) -> Option<Kind>
    ensures { result ≡ transport_of sort }
{
    match sort {
        0 => None,
        1 => Some(Kind::Transport1),
        2 => Some(Kind::Transport2),
        3 => Some(Kind::Transport3),
        4 => Some(Kind::Transport4),
        5..=255 => None,
    }
}

#[tactic(auto, unfolding(crate::specs::Kinds::request_of))]
fn request_of(sort: u8) -> Option<Kind>
    ensures { result ≡ request_of sort }
{
    match sort {
        0..=1 => None,
        2 => Some(Kind::Request2),
        3 => None,
        4 => Some(Kind::Request4),
        5..=255 => None,
    }
}

// The kind of command that an identifier names, with the inner type behind it.
#[tactic(auto, unfolding(crate::specs::Kinds::listed))]
pub(crate) fn find_kind(id: u8, sort: u8) -> Option<Kind>
    ensures { result ≡ listed id sort }
{
    match id {
        0x00..=0x04 => None,
        0x05 => transport_of(sort),
        0x06 => Some(Kind::Update),
        0x07 => Some(Kind::Remove),
        0x08 => request_of(sort),
        0x09 => Some(Kind::Switch),
        0x0a..=0x0d => None,
        0x0e => Some(Kind::Tunnel),
        0x0f => Some(Kind::Verify),
        0x10 => Some(Kind::Confirm),
        0x11 => Some(Kind::Down),
        0x12 => Some(Kind::Up),
        0x13..=0xff => None,
    }
}

pub(crate) fn kind_of(c: Command) -> Kind
    ensures { result ≡ kind_of c }
{
    match c {
        Command::TransportKey(Transported::Network(..)) => Kind::Transport1,
        Command::TransportKey(Transported::TrustCentre(..)) => Kind::Transport4,
        Command::TransportKey(Transported::ApplicationMaster(..)) => Kind::Transport2,
        Command::TransportKey(Transported::ApplicationLink(..)) => Kind::Transport3,
        Command::UpdateDevice(..) => Kind::Update,
        Command::RemoveDevice(_) => Kind::Remove,
        Command::RequestKey(Requested::Application(_)) => Kind::Request2,
        Command::RequestKey(Requested::TrustCentre) => Kind::Request4,
        Command::SwitchKey(_) => Kind::Switch,
        Command::Tunnel(_) => Kind::Tunnel,
        Command::VerifyKey(..) => Kind::Verify,
        Command::ConfirmKey(..) => Kind::Confirm,
        Command::RelayDownstream => Kind::Down,
        Command::RelayUpstream => Kind::Up,
    }
}
