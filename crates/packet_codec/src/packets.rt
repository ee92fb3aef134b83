//! Writing packets.
ghost use Rattle.std.specs.Prelude.{◌≡◌, ◌++◌, List, ℕ, IfOk, OnOk};
ghost use Rattle.replica_model.specs.declared.packet.Packet.{Packet};
ghost use Rattle.packet_codec.specs.Spelling.{body, packet};
ghost use Rattle.packet_codec.specs.Fits.{HasSpellingBody, HasSpelling, FitsBody, Fits};

use crate::chains::put_said;
use crate::ends::{put_end, put_place};
use crate::kind::Kind;
use crate::messages::put_message;
use crate::room::body_room;
use byte_fields::Writer;
use lists::{Bytes, NoMemory};
use replica_model::{Body, Packet, Place};
use std::alloc::Global;

fn put_body(out: &mut Writer, made: &Body, from: Place) -> Result<(), NoMemory>
    requires { HasSpellingBody from made.now }
    ensures ok { OnOk result (out.new ≡ out.old ++ body made.now) }
    ensures fits { OnOk result (FitsBody from made.now) }
{
    match made {
        Body::Raft(message) => put_message(out, message),
        Body::Chain(said) => put_said(out, said, from),
    }
}

/// The packet's one spelling. Refused for want of memory, and for a text, a list or an item whose length doesn't fit its
/// four bytes; a packet that was written is one that `read_packet` reads again.
pub fn write_packet(alloc: Global, p: &Packet) -> Result<Bytes, NoMemory>
    requires { HasSpelling p.now }
    ensures ok { IfOk result (λ bytes. bytes ≡ packet p.now) }
    ensures fits { OnOk result (Fits p.now) }
{
    let mut out = Writer::with_room(alloc, body_room(&p.body))?;
    out.put_byte(Kind::of_body(&p.body).number())?;
    put_place(&mut out, p.from)?;
    put_end(&mut out, p.to)?;
    put_body(&mut out, &p.body, p.from)?;
    Ok(out.into_bytes())
}

/// A packet has one spelling, and no packet's spelling begins another's.
pub fn one_spelling()
    ensures { (p q : Packet) (a b : List ℕ) → Fits p → Fits q → packet p ++ a ≡ packet q ++ b → (p ≡ q) × (a ≡ b) }
{}
