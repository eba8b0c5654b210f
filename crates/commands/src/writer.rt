// The writer.
ghost use Rattle.std.specs.Prelude.{◌≡◌, ◌+◌, ◌≤◌, [], ◌∷◌, ◌++◌, length};
ghost use Rattle.octets.specs.Lists.{onto};
ghost use Rattle.settings.specs.Settings.{ours};
ghost use Rattle.answers.specs.Numbers.{told_written};
ghost use Rattle.board.specs.Sending.{framed};
ghost use Rattle.commands.specs.Table.{rule_of, secret_size};
ghost use Rattle.commands.specs.Kinds.{kind_of};
ghost use Rattle.commands.specs.Code.{left_by};
ghost use Rattle.commands.specs.Writing.{command_control, own_octets, whole, aps_raised, write_command};

use crate::line::Line;
use crate::{Command, Requested, Rule, Transported, kinds, table};
use answers::Refusal;
use board::{After, Board};

// What a header of two octets leaves of the longest frame.
const LONGEST_COMMAND: usize = settings::LONGEST_APS - 2;

// ---- a command's own octets

fn with_key(sort: u8, key: &[u8]) -> Line
    requires { length key.now ≡ 16 }
    ensures { result ≡ (0x05 ∷ sort ∷ []) ++ key.now }
{
    Line::led_by(0x05).octet(sort).part(key)
}

#[tactic(auto, unfolding(crate::specs::Writing::own_octets, crate::specs::Table::rule_of))]
fn own_octets(c: Command, secret: &[u8]) -> Line
    requires { length secret.now ≡ secret_size (rule_of (kind_of c)).secret }
    ensures { result ≡ own_octets c secret.now }
{
    match c {
        Command::TransportKey(Transported::Network(q, d, s)) => with_key(1, secret)
            .octet(q)
            .address(d)
            .address(s),
        Command::TransportKey(Transported::TrustCentre(d, s)) => with_key(4, secret)
            .address(d)
            .address(s),
        Command::TransportKey(Transported::ApplicationMaster(a, i)) => with_key(2, secret)
            .address(a)
            .octet(i),
        Command::TransportKey(Transported::ApplicationLink(a, i)) => with_key(3, secret)
            .address(a)
            .octet(i),
        Command::UpdateDevice(a, s, t) => Line::led_by(0x06).address(a).short(s).octet(t),
        Command::RemoveDevice(a) => Line::led_by(0x07).address(a),
        Command::RequestKey(Requested::Application(a)) => Line::led_by(0x08).octet(2).address(a),
        Command::RequestKey(Requested::TrustCentre) => Line::led_by(0x08).octet(4),
        Command::SwitchKey(q) => Line::led_by(0x09).octet(q),
        Command::Tunnel(a) => Line::led_by(0x0e).address(a),
        Command::VerifyKey(t, a) => Line::led_by(0x0f).octet(t).address(a).part(secret),
        Command::ConfirmKey(s, t, a) => Line::led_by(0x10).octet(s).octet(t).address(a),
        Command::RelayDownstream => Line::led_by(0x11),
        Command::RelayUpstream => Line::led_by(0x12),
    }
}

// ---- the whole frame

fn command_control(ack: bool) -> u8
    ensures { result ≡ command_control ack }
{
    if ack { 0x41 } else { 0x01 }
}

// "after 255 comes 0"
#[tactic(auto, unfolding(crate::specs::Writing::aps_raised))]
fn aps_raised(board: Board) -> Board
    ensures { result ≡ aps_raised board }
{
    Board {
        aps: board.aps.wrapping_add(1),
        ..board
    }
}

// Whether the parts lent are those that a command of that rule has.
#[tactic(auto, unfolding(crate::specs::Writing::whole))]
fn is_whole(rule: Rule, secret: &[u8], rest: &[u8]) -> bool
    ensures { result ≡ whole ours rule secret.now rest.now }
{
    secret.len() == table::secret_size(rule.secret) && table::fits_rest(rule.rest, rest)
}

// Lays control, counter, a command's own octets and the rest at the start of out.
fn lay(control: u8, counter: u8, own: Line, rest: &[u8], out: &mut [u8]) -> usize
    requires { 2 + length own + length rest.now ≤ length out.old }
    ensures count { result ≡ 2 + length own + length rest.now }
    ensures laid { out.new ≡ onto (control ∷ counter ∷ (own ++ rest.now)) out.old }
{
    let own = own.as_slice();
    octets::paste_at(out, 0, &[control, counter]);
    octets::paste_at(out, 2, own);
    octets::paste_at(out, 2 + own.len(), rest);
    2 + own.len() + rest.len()
}

// Judges what is to be written, and lays it.
#[tactic(auto, unfolding(crate::specs::Writing::write_command))]
fn lay_command(
    board: &Board,
    ack: bool,
    command: Command,
    secret: &[u8],
    rest: &[u8],
    out: &mut [u8],
) -> Result<usize, Refusal>
    ensures { framed (told_written result) (left_by result board.now) out.new ≡ write_command ours board.now ack command secret.now rest.now out.old }
{
    if out.len() < settings::LONGEST_APS {
        return Err(Refusal::Room);
    }
    let rule = table::rule_of(kinds::kind_of(command));
    if !is_whole(rule, secret, rest) {
        return Err(Refusal::Command);
    }
    if LONGEST_COMMAND - rule.size < rest.len() {
        return Err(Refusal::Long);
    }
    let own = own_octets(command, secret);
    Ok(lay(command_control(ack), board.aps, own, rest, out))
}

// Writes a command with the parts that it has, the others lent empty: the frame stands at the start
// of out, stamped with the APS counter, which is then raised. A refusal leaves the board and out as
// they stood.
pub fn write_command(
    board: Board,
    ack: bool,
    command: Command,
    secret: &[u8],
    rest: &[u8],
    out: &mut [u8],
) -> After<usize>
    ensures { framed (told_written result.answer) result.board out.new ≡ write_command ours board ack command secret.now rest.now out.old }
{
    let answer = lay_command(&board, ack, command, secret, rest, out);
    let board = match answer {
        Ok(_) => aps_raised(board),
        Err(_) => board,
    };
    After { answer, board }
}
