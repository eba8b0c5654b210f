// Document 01's list of commands.
ghost use Rattle.std.specs.Prelude.{◌≡◌, ◌≤◌};
ghost use Rattle.settings.specs.Settings.{ours};
ghost use Rattle.answers.specs.Numbers.{protection_of};
ghost use Rattle.commands.specs.Table.{rule_of, known, allows, fits, secret_size};
ghost use Rattle.commands.specs.Table.{row};

use crate::{Allowed, Kind, Rest, Rule, Secret};

// The octets of the least frame inside a Tunnel: header, auxiliary header, one octet and the tag.
const LEAST_INNER: usize = 2 + settings::APS_AUX + 1 + settings::TAG;

fn row(size: usize, secret: Secret, rest: Rest, under: Allowed) -> Rule
    ensures { result ≡ row size secret rest under }
{
    Rule {
        size,
        secret,
        rest,
        under,
    }
}

#[tactic(auto, unfolding(crate::specs::Table::rule_of))]
pub(crate) fn rule_of(k: Kind) -> Rule
    ensures row { result ≡ rule_of k }
    ensures fits { result.size ≤ 35 }
{
    match k {
        Kind::Transport1 => row(35, Secret::Key, Rest::End, Allowed::Only(2)),
        Kind::Transport4 => row(34, Secret::Key, Rest::Tlvs, Allowed::Only(3)),
        Kind::Transport2 => row(27, Secret::Key, Rest::Tlvs, Allowed::Only(3)),
        Kind::Transport3 => row(27, Secret::Key, Rest::Tlvs, Allowed::Only(3)),
        Kind::Update => row(12, Secret::NoSecret, Rest::Tlvs, Allowed::Only(0)),
        Kind::Remove => row(9, Secret::NoSecret, Rest::End, Allowed::Only(0)),
        Kind::Request2 => row(10, Secret::NoSecret, Rest::End, Allowed::Only(0)),
        Kind::Request4 => row(2, Secret::NoSecret, Rest::End, Allowed::Only(0)),
        Kind::Switch => row(2, Secret::NoSecret, Rest::End, Allowed::ClearOr(0)),
        Kind::Tunnel => row(9, Secret::NoSecret, Rest::Inner, Allowed::Clear),
        Kind::Verify => row(26, Secret::Hash, Rest::End, Allowed::Clear),
        Kind::Confirm => row(11, Secret::NoSecret, Rest::End, Allowed::Only(0)),
        Kind::Down => row(1, Secret::NoSecret, Rest::Relay, Allowed::ClearOr(0)),
        Kind::Up => row(1, Secret::NoSecret, Rest::Relay, Allowed::ClearOr(0)),
    }
}

#[tactic(auto, unfolding(crate::specs::Table::known))]
pub(crate) fn is_known(p: Option<u8>) -> bool
    ensures { result ≡ known (protection_of p) }
{
    matches!(p, None | Some(0 | 2 | 3))
}

#[tactic(auto, unfolding(crate::specs::Table::allows))]
pub(crate) fn is_allowed(u: Allowed, p: Option<u8>) -> bool
    ensures { result ≡ allows u (protection_of p) }
{
    match u {
        Allowed::Clear => p.is_none(),
        Allowed::Only(n) => p == Some(n),
        Allowed::ClearOr(n) => p.is_none() || p == Some(n),
    }
}

// Whether s may follow a command's own octets.
#[tactic(auto, unfolding(crate::specs::Table::fits))]
pub(crate) fn fits_rest(rest: Rest, s: &[u8]) -> bool
    ensures { result ≡ fits ours rest s.now }
{
    match rest {
        Rest::End => s.is_empty(),
        Rest::Tlvs => tlvs::fills(s),
        Rest::Relay => tlvs::relays(s),
        Rest::Inner => LEAST_INNER <= s.len() && frames::may_tunnel(s),
    }
}

pub(crate) fn secret_size(s: Secret) -> usize
    ensures { result ≡ secret_size s }
{
    match s {
        Secret::NoSecret => 0,
        Secret::Key | Secret::Hash => 16,
    }
}
