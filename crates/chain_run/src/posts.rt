//! Packets that were sent.
ghost use Rattle.std.specs.Prelude.{◌≡◌, [], ◌∷◌, ◌++◌, OnOk};
ghost use Rattle.std.specs.Option.{option_to_list};
ghost use Rattle.chain_world.specs.State.{packet_of, addressed, posts_of};
ghost use Rattle.chain_run.specs.Shows.{posted};

use crate::copies::{copied_answer, copied_body, copied_end};
use chain_leader::{ChainBody, Letter};
use chain_world::{ChainEnd, ChainPacket};
use lists::{Listed, NoMemory};
use std::alloc::Global;

/// A packet that was sent, and its moment: of the answer of a read, how many graph steps had been taken when it was read; of any
/// other 0.
#[derive(Drop)]
pub struct ChainPost {
    pub packet: ChainPacket,
    pub moment: u64,
}

/// Packets that were sent, in their order.
pub type ChainPosts = Listed<ChainPost>;

/// A packet leaves. Refused for want of memory alone.
pub(crate) fn push_post(
    posts: &mut ChainPosts,
    from: ChainEnd,
    to: ChainEnd,
    body: ChainBody,
    moment: u64,
) -> Result<(), NoMemory>
    ensures { OnOk result (posted posts.new ≡ posted posts.old ++ record { packet = packet_of from to body; moment = moment } ∷ []) }
{
    let packet = ChainPacket { from, to, body };
    posts.push(ChainPost { packet, moment })
}

/// A letter of the leader of that part and term leaves, where it has somewhere to go: `sender` is whom it answers. Refused for want
/// of memory alone.
pub(crate) fn push_letter(
    alloc: Global,
    posts: &mut ChainPosts,
    part: u32,
    term: u64,
    sender: &Option<ChainEnd>,
    letter: &Letter,
) -> Result<(), NoMemory>
    ensures { OnOk result (posted posts.new ≡ posted posts.old ++ option_to_list (addressed part term sender.now letter.now)) }
{
    let me = ChainEnd::Leader(part, term);
    match letter {
        Letter::Tell(id, answer) => {
            let body = ChainBody::Answer(id.number, copied_answer(alloc, answer)?);
            push_post(posts, me, ChainEnd::Client(id.client), body, 0)
        }
        Letter::Cross(to, _, said) => {
            let body = copied_body(alloc, said)?;
            push_post(posts, me, ChainEnd::Part(*to), body, 0)
        }
        Letter::Back(said) => {
            let Some(to) = sender else {
                return Ok(());
            };
            let body = copied_body(alloc, said)?;
            push_post(posts, me, copied_end(to), body, 0)
        }
        Letter::Again(behind) => {
            let body = ChainBody::Resume(term, *behind);
            push_post(posts, me, ChainEnd::Leader(part, term), body, 0)
        }
    }
}

/// The same of a letter that there may be.
pub(crate) fn push_any(
    alloc: Global,
    posts: &mut ChainPosts,
    part: u32,
    term: u64,
    sender: &Option<ChainEnd>,
    letter: &Option<Letter>,
) -> Result<(), NoMemory>
    ensures { OnOk result (posted posts.new ≡ posted posts.old ++ posts_of part term sender.now (option_to_list letter.now)) }
{
    let Some(letter) = letter else {
        return Ok(());
    };
    push_letter(alloc, posts, part, term, sender, letter)?;
    Ok(())
}

/// The same of letters, in their order.
pub(crate) fn push_letters(
    alloc: Global,
    posts: &mut ChainPosts,
    part: u32,
    term: u64,
    sender: &Option<ChainEnd>,
    letters: &[Letter],
) -> Result<(), NoMemory>
    ensures { OnOk result (posted posts.new ≡ posted posts.old ++ posts_of part term sender.now letters.now) }
{
    for letter in letters {
        push_letter(alloc, posts, part, term, sender, letter)?;
    }
    Ok(())
}
