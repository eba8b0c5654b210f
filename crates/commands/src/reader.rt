// The reader, in document 01's order of judgement.
ghost use Rattle.std.specs.Prelude.{◌≡◌};
ghost use Rattle.settings.specs.Settings.{ours};
ghost use Rattle.answers.specs.Numbers.{protection_of};
ghost use Rattle.commands.specs.Numbers.{told_command};
ghost use Rattle.commands.specs.Reading.{judge_kind, judge_listed, judge, command_in, told_reading, read_command};
ghost use Rattle.commands.specs.Code.{told_judged};
ghost use Rattle.commands.specs.Kinds.{listed};
ghost use Rattle.octets.specs.Lists.{at};
ghost use Rattle.octets.specs.Least.{number_at};
ghost use Rattle.commands.specs.declared.Transported.{Transported};

use crate::{Command, Kind, Requested, Transported, kinds, table};
use answers::Refusal;

// 11 and 12 of a kind that the list has.
#[tactic(auto, unfolding(crate::specs::Reading::judge_kind))]
fn judge_kind(f: &[u8], p: Option<u8>, k: Kind) -> Result<Kind, Refusal>
    ensures { told_judged result ≡ judge_kind ours f.now (protection_of p) k }
{
    let rule = table::rule_of(k);
    let rest = f.get(2 + rule.size..).ok_or(Refusal::Command)?;
    if !table::fits_rest(rule.rest, rest) {
        return Err(Refusal::Command);
    }
    if !table::is_allowed(rule.under, p) {
        return Err(Refusal::Protection);
    }
    Ok(k)
}

// The identifier; a frame that ends before it, or before its type, has 0 there, which is reserved.
#[tactic(auto, unfolding(crate::specs::Reading::judge_listed))]
fn judge_listed(f: &[u8], p: Option<u8>) -> Result<Kind, Refusal>
    ensures { told_judged result ≡ judge_listed ours f.now (protection_of p) (listed (at f.now 2) (at f.now 3)) }
{
    let kind = kinds::find_kind(octets::octet(f, 2), octets::octet(f, 3)).ok_or(Refusal::Command)?;
    judge_kind(f, p, kind)
}

#[tactic(auto, unfolding(crate::specs::Reading::judge, crate::specs::Reading::judge_header))]
pub(crate) fn judge_frame(f: &[u8], p: Option<u8>) -> Result<Kind, Refusal>
    ensures { told_judged result ≡ judge ours f.now (protection_of p) }
{
    if !table::is_known(p) {
        return Err(Refusal::Argument);
    }
    if settings::LONGEST_APS < f.len() {
        return Err(Refusal::Long);
    }
    frames::read_command(f)?;
    judge_listed(f, p)
}

fn network_key(f: &[u8]) -> Transported
    ensures { result ≡ Transported.Network (at f.now 20) (number_at 8 f.now 21) (number_at 8 f.now 29) }
{
    Transported::Network(
        octets::octet(f, 20),
        octets::number8(f, 21),
        octets::number8(f, 29),
    )
}

// The command of that kind, with its numbers; 0 for what f does not have.
#[tactic(auto, unfolding(crate::specs::Reading::command_in))]
fn fields_of(f: &[u8], k: Kind) -> Command
    ensures { told_command result ≡ command_in f.now k }
{
    match k {
        Kind::Transport1 => Command::TransportKey(network_key(f)),
        Kind::Transport4 => Command::TransportKey(Transported::TrustCentre(
            octets::number8(f, 20),
            octets::number8(f, 28),
        )),
        Kind::Transport2 => Command::TransportKey(Transported::ApplicationMaster(
            octets::number8(f, 20),
            octets::octet(f, 28),
        )),
        Kind::Transport3 => Command::TransportKey(Transported::ApplicationLink(
            octets::number8(f, 20),
            octets::octet(f, 28),
        )),
        Kind::Update => Command::UpdateDevice(
            octets::number8(f, 3),
            octets::number2(f, 11),
            octets::octet(f, 13),
        ),
        Kind::Remove => Command::RemoveDevice(octets::number8(f, 3)),
        Kind::Request2 => Command::RequestKey(Requested::Application(octets::number8(f, 4))),
        Kind::Request4 => Command::RequestKey(Requested::TrustCentre),
        Kind::Switch => Command::SwitchKey(octets::octet(f, 3)),
        Kind::Tunnel => Command::Tunnel(octets::number8(f, 3)),
        Kind::Verify => Command::VerifyKey(octets::octet(f, 3), octets::number8(f, 4)),
        Kind::Confirm => Command::ConfirmKey(
            octets::octet(f, 3),
            octets::octet(f, 4),
            octets::number8(f, 5),
        ),
        Kind::Down => Command::RelayDownstream,
        Kind::Up => Command::RelayUpstream,
    }
}

// Reads the command of a plain APS frame that came under that protection.
#[tactic(auto, unfolding(crate::specs::Reading::read_command))]
pub fn read_command(frame: &[u8], protection: Option<u8>) -> Result<Command, Refusal>
    ensures { told_reading result ≡ read_command ours frame.now (protection_of protection) }
{
    let kind = judge_frame(frame, protection)?;
    Ok(fields_of(frame, kind))
}
