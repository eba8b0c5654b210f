// APS commands, read and written.
use crate::desk::{Bench, Field, laid};
use commands::{Command, Requested, Transported};
use lines::{Answer, lent_of, numbers, protection_of, refused};

pub(crate) fn read(line: &[u8]) -> Option<Answer> {
    let [_, protection, ..] = numbers(line, b".TF")?;
    let frame = Field::at(line, 2)?;
    let protection = protection_of(protection);
    Some(match commands::read_command(frame.as_slice(), protection) {
        Ok(command) => told(command, frame.as_slice(), protection),
        Err(why) => refused(why),
    })
}

// A command by its word, and behind it the fields that a `write` line has there.
fn told(command: Command, f: &[u8], protection: Option<u8>) -> Answer {
    let tlvs = commands::tlvs_of(f, protection);
    match command {
        Command::TransportKey(key) => transported(key, commands::key_of(f, protection), tlvs),
        Command::UpdateDevice(device, short, status) => word(b"update")
            .address(device)
            .decimal(u64::from(short))
            .decimal(u64::from(status))
            .hex(tlvs),
        Command::RemoveDevice(target) => word(b"remove").address(target),
        Command::RequestKey(Requested::Application(partner)) => word(b"request2").address(partner),
        Command::RequestKey(Requested::TrustCentre) => word(b"request4"),
        Command::SwitchKey(sequence) => word(b"switchkey").decimal(u64::from(sequence)),
        Command::Tunnel(destination) => word(b"tunnel")
            .address(destination)
            .hex(commands::inner_of(f, protection)),
        Command::VerifyKey(kind, source) => word(b"verify")
            .decimal(u64::from(kind))
            .address(source)
            .hex(commands::hash_of(f, protection)),
        Command::ConfirmKey(status, kind, destination) => word(b"confirm")
            .decimal(u64::from(status))
            .decimal(u64::from(kind))
            .address(destination),
        Command::RelayDownstream => word(b"down").hex(tlvs),
        Command::RelayUpstream => word(b"up").hex(tlvs),
    }
}

fn transported(t: Transported, key: &[u8], tlvs: &[u8]) -> Answer {
    match t {
        Transported::Network(sequence, destination, source) => word(b"transport1")
            .hex(key)
            .decimal(u64::from(sequence))
            .address(destination)
            .address(source),
        Transported::TrustCentre(destination, source) => word(b"transport4")
            .hex(key)
            .address(destination)
            .address(source)
            .hex(tlvs),
        Transported::ApplicationMaster(partner, initiator) => word(b"transport2")
            .hex(key)
            .address(partner)
            .decimal(u64::from(initiator))
            .hex(tlvs),
        Transported::ApplicationLink(partner, initiator) => word(b"transport3")
            .hex(key)
            .address(partner)
            .decimal(u64::from(initiator))
            .hex(tlvs),
    }
}

fn word(w: &[u8]) -> Answer {
    Answer::done().word(w)
}

pub(crate) fn tlv(line: &[u8]) -> Option<Answer> {
    let [_, protection, tag, ..] = numbers(line, b".TBF")?;
    let frame = Field::at(line, 3)?;
    let tag = u8::try_from(tag).ok()?;
    let found = commands::value_of(frame.as_slice(), protection_of(protection), tag);
    Some(Answer::done().hex(found))
}

impl Bench {
    pub(crate) fn write(&mut self, line: &[u8]) -> Option<Answer> {
        let acknowledged = match text::field(line, 1) {
            b"ack" => true,
            b"noack" => false,
            _ => return None,
        };
        let form = form_of(text::field(line, 2))?;
        let command = command_of(text::field(line, 2), numbers(line, form)?)?;
        let secret = Field::of(line, form, b"kh")?;
        let rest = Field::of(line, form, b"ti")?;
        let mut out = [0; 256];
        let room = lent_of(self.room, &out);
        let wrote = commands::write_command(
            self.board?,
            acknowledged,
            command,
            secret.as_slice(),
            rest.as_slice(),
            &mut out[..room],
        );
        Some(laid(self.left(wrote), &out))
    }
}

// The form of a `write` line by its command's word: behind `ack` or `noack` and the word stand the
// command's numbers, its key or hash, and its other octets. The numbers are read by it before there is a command,
// so that it has a match of its own.
fn form_of(word: &[u8]) -> Option<&'static [u8]> {
    match word {
        b"transport1" => Some(b"...kBAA"),
        b"transport4" => Some(b"...kAAt"),
        b"transport2" => Some(b"...kABt"),
        b"transport3" => Some(b"...kABt"),
        b"update" => Some(b"...ASBt"),
        b"remove" => Some(b"...A"),
        b"request2" => Some(b"...A"),
        b"request4" => Some(b"..."),
        b"switchkey" => Some(b"...B"),
        b"tunnel" => Some(b"...Ai"),
        b"verify" => Some(b"...BAh"),
        b"confirm" => Some(b"...BBA"),
        b"down" => Some(b"...t"),
        b"up" => Some(b"...t"),
        _ => None,
    }
}

fn command_of(word: &[u8], v: [u64; 8]) -> Option<Command> {
    let [_, _, _, a, b, c, d, _] = v;
    Some(match word {
        b"transport1" => Command::TransportKey(Transported::Network(octet(b)?, c, d)),
        b"transport4" => Command::TransportKey(Transported::TrustCentre(b, c)),
        b"transport2" => Command::TransportKey(Transported::ApplicationMaster(b, octet(c)?)),
        b"transport3" => Command::TransportKey(Transported::ApplicationLink(b, octet(c)?)),
        b"update" => Command::UpdateDevice(a, u16::try_from(b).ok()?, octet(c)?),
        b"remove" => Command::RemoveDevice(a),
        b"request2" => Command::RequestKey(Requested::Application(a)),
        b"request4" => Command::RequestKey(Requested::TrustCentre),
        b"switchkey" => Command::SwitchKey(octet(a)?),
        b"tunnel" => Command::Tunnel(a),
        b"verify" => Command::VerifyKey(octet(a)?, b),
        b"confirm" => Command::ConfirmKey(octet(a)?, octet(b)?, c),
        b"down" => Command::RelayDownstream,
        b"up" => Command::RelayUpstream,
        _ => return None,
    })
}

fn octet(x: u64) -> Option<u8> {
    u8::try_from(x).ok()
}
