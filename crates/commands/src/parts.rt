// The parts of a command, each handed back as that part of the caller's own frame; empty if the
// frame is refused or the command has no such part.
ghost use Rattle.std.specs.Prelude.{◌≡◌, ◌+◌, ◌≤◌, length};
ghost use Rattle.octets.specs.Parts.{seen};
ghost use Rattle.settings.specs.Settings.{ours};
ghost use Rattle.answers.specs.Numbers.{protection_of};
ghost use Rattle.commands.specs.Reading.{judge, sound};
ghost use Rattle.commands.specs.Code.{part_span};
ghost use Rattle.commands.specs.Parts.{cut_at, key_span, hash_span, tlvs_span, inner_span, value_span};

use crate::{Asked, Kind, Rest, Secret, Span, reader, table};

// Where the part asked for stands in a frame of n octets of that kind.
#[tactic(auto, unfolding(crate::specs::Parts::key_in, crate::specs::Parts::hash_in, crate::specs::Parts::tlvs_in, crate::specs::Parts::inner_in, crate::specs::Parts::key_span, crate::specs::Parts::hash_span, crate::specs::Parts::tlvs_span, crate::specs::Parts::inner_span))]
fn span_in(kind: Kind, asked: Asked, n: usize) -> Span
    ensures { result ≡ part_span asked n (sound kind) }
{
    let rule = table::rule_of(kind);
    match (asked, rule.secret, rule.rest) {
        (Asked::Key, Secret::Key, _) => Span { from: 4, count: 16 },
        (Asked::Hash, Secret::Hash, _) => Span {
            from: 12,
            count: 16,
        },
        (Asked::Tlvs, _, Rest::Tlvs | Rest::Relay) | (Asked::Inner, _, Rest::Inner) => Span::rest(
            n,
            2 + rule.size,
        ),
        _ => Span::NOWHERE,
    }
}

// Where it stands in that frame: nowhere if the frame is refused or has none.
fn span_of(frame: &[u8], protection: Option<u8>, asked: Asked) -> Span
    ensures span { result ≡ part_span asked (length frame.now) (judge ours frame.now (protection_of protection)) }
    ensures within { result.from + result.count ≤ length frame.now }
{
    match reader::judge_frame(frame, protection) {
        Ok(kind) => span_in(kind, asked, frame.len()),
        Err(_) => Span::NOWHERE,
    }
}

// The value of the first TLV of that tag, where the TLVs stand in that span.
#[tactic(auto, unfolding(crate::specs::Parts::value_span))]
fn value_span(f: &[u8], tag: u8, tlvs: Span) -> Span
    requires { tlvs.from + tlvs.count ≤ length f.now }
    ensures span { result ≡ value_span f.now tag tlvs }
    ensures within { result.from + result.count ≤ length f.now }
{
    match tlvs::first_of(tlvs.of(f), tag) {
        Ok(Some(value)) => Span {
            from: tlvs.from + value.start,
            count: value.size,
        },
        Ok(None) | Err(_) => Span::NOWHERE,
    }
}

// The key of a Transport-Key.
pub fn key_of(frame: &[u8], protection: Option<u8>) -> &[u8]
    ensures { seen result ≡ cut_at frame.entry (key_span (judge ours frame.now (protection_of protection))) }
{
    span_of(frame, protection, Asked::Key).of(frame)
}

// The hash of a Verify-Key.
pub fn hash_of(frame: &[u8], protection: Option<u8>) -> &[u8]
    ensures { seen result ≡ cut_at frame.entry (hash_span (judge ours frame.now (protection_of protection))) }
{
    span_of(frame, protection, Asked::Hash).of(frame)
}

// The frame inside a Tunnel.
pub fn inner_of(frame: &[u8], protection: Option<u8>) -> &[u8]
    ensures { seen result ≡ cut_at frame.entry (inner_span (length frame.now) (judge ours frame.now (protection_of protection))) }
{
    span_of(frame, protection, Asked::Inner).of(frame)
}

// All TLVs of a command.
pub fn tlvs_of(frame: &[u8], protection: Option<u8>) -> &[u8]
    ensures { seen result ≡ cut_at frame.entry (tlvs_span (length frame.now) (judge ours frame.now (protection_of protection))) }
{
    span_of(frame, protection, Asked::Tlvs).of(frame)
}

// The value of the first TLV of that tag.
pub fn value_of(frame: &[u8], protection: Option<u8>, tag: u8) -> &[u8]
    ensures { seen result ≡ cut_at frame.entry (value_span frame.now tag (tlvs_span (length frame.now) (judge ours frame.now (protection_of protection)))) }
{
    let tlvs = span_of(frame, protection, Asked::Tlvs);
    value_span(frame, tag, tlvs).of(frame)
}
