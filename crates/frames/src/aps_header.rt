// The APS header.
ghost use Rattle.std.specs.Prelude.{◌≡◌};
ghost use Rattle.frames.specs.declared.Layer.TheVariants.{Aps};
ghost use Rattle.frames.specs.Reading.{read_header};
ghost use Rattle.frames.specs.Code.{told_heading};
ghost use Rattle.frames.specs.Aps.{aps_form, aps_secured, aps_header, aps_keyed};

use crate::Heading;
use answers::Refusal;

#[tactic(auto, unfolding(crate::specs::Aps::aps_form, crate::specs::Aps::aps_type, crate::specs::Aps::delivery, crate::specs::Aps::ack_format))]
pub(crate) fn form(c: u8) -> bool
    ensures { result ≡ aps_form c }
{
    if 128 <= c {
        return false;
    }
    let kind = c % 4;
    let delivery = c / 4 % 4;
    let ack_format = c / 16 % 2;
    if kind == 0 {
        if ack_format != 0 {
            return false;
        }
        return delivery != 1;
    }
    if kind == 1 {
        if ack_format != 0 {
            return false;
        }
        return delivery % 2 == 0;
    }
    if kind != 2 {
        return false;
    }
    delivery == 0
}

#[tactic(auto, unfolding(crate::specs::Aps::aps_secured))]
pub(crate) fn is_secured(c: u8) -> bool
    ensures { result ≡ aps_secured c }
{
    c / 32 % 2 == 1
}

#[tactic(auto, unfolding(crate::specs::Aps::aps_header, crate::specs::Aps::aps_type, crate::specs::Aps::delivery, crate::specs::Aps::ack_format))]
fn header_length(c: u8) -> usize
    ensures { result ≡ aps_header c }
{
    let kind = c % 4;
    if kind == 0 {
        if c / 4 % 4 == 3 {
            return 9;
        }
        return 8;
    }
    if kind == 1 {
        return 2;
    }
    if c / 16 % 2 == 1 {
        return 2;
    }
    8
}

#[tactic(auto, unfolding(crate::specs::Reading::read_header))]
pub(crate) fn read(f: &[u8]) -> Result<Heading, Refusal>
    ensures { told_heading result ≡ read_header Aps f.now }
{
    if f.len() < 1 {
        return Err(Refusal::Short);
    }
    let c = octets::octet(f, 0);
    if !form(c) {
        return Err(Refusal::Form);
    }
    Ok(Heading {
        octets: header_length(c),
        secured: is_secured(c),
    })
}

#[tactic(auto, unfolding(crate::specs::Aps::aps_keyed))]
pub(crate) fn is_keyed(identifier: u8) -> bool
    ensures { result ≡ aps_keyed identifier }
{
    identifier != 1
}
