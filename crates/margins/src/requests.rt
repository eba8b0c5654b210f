// Which request a line is. Each reads its own fields, and has no answer where the line has not its
// form.
use crate::parts::{part, value};
use crate::{hashes, label_lines, opening, sealing, writing};
use lines::{Answer, Desk};
use router::Portion;

// Nothing stays from line to line.
#[derive(Drop)]
pub struct Margins;

impl Desk for Margins {
    fn answer(&mut self, line: &[u8]) -> Option<Answer> {
        match text::field(line, 0) {
            b"open" => opening::open(line),
            b"openaps" => opening::open_aps(line),
            b"hall" => opening::hall(line),
            b"seal" => sealing::seal(line),
            b"sealaps" => sealing::seal_aps(line),
            b"sealat" => sealing::seal_at(line),
            b"sealapsat" => sealing::seal_aps_at(line),
            b"remove" => writing::remove(line),
            b"tunnel" => writing::tunnel(line),
            b"down" => writing::down(line),
            b"hash" => hashes::hash(line),
            b"keyedhash" => hashes::keyed_hash(line),
            b"print" => label_lines::print(line),
            b"label" => label_lines::label(line),
            b"key" => part(line, |f, k| commands::key_of(f, k)),
            b"digest" => part(line, |f, k| commands::hash_of(f, k)),
            b"inner" => part(line, |f, k| commands::inner_of(f, k)),
            b"tlvs" => part(line, |f, k| commands::tlvs_of(f, k)),
            b"value" => value(line),
            b"header" => part(line, |f, k| router::portion_of(f, k, Portion::Header)),
            b"auxiliary" => part(line, |f, k| router::portion_of(f, k, Portion::Auxiliary)),
            b"payload" => part(line, |f, k| router::portion_of(f, k, Portion::Payload)),
            b"tag" => part(line, |f, k| router::portion_of(f, k, Portion::Tag)),
            _ => None,
        }
    }
}
