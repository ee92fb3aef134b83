//! The kinds of packets.
ghost use Rattle.std.specs.Prelude.{◌≡◌};
ghost use Rattle.packet_codec.specs.Kinds.{kind_of, message_kind, said_kind, body_kind};

use chain_leader::ChainBody;
use raft_log::RaftMsg;
use replica_model::Body;

/// What a packet says, as its first byte tells.
#[derive(Clone, Copy)]
pub enum Kind {
    /// A client asks for a call.
    Request,
    /// A part answers a call.
    Answer,
    /// The receiver of a request, a Remote or a Fence doesn't lead.
    NotLeader,
    /// A leader sends entries of its log.
    Append,
    /// The answer to an Append.
    Appended,
    /// A candidate asks for a vote.
    Vote,
    /// The answer to it.
    Voted,
    /// A leader asks a voter to begin an election.
    TimeoutNow,
    /// A chain writes its in-halves.
    Remote,
    /// The answer to it: they are written.
    Done,
    /// A Remote or a Fence is of a leader that a later one has replaced.
    Stale,
    /// Whether a chain wrote its in-halves is asked.
    Fence,
    /// The answer to it.
    Fenced,
    /// A leader takes up its chains.
    Resume,
}

impl Kind {
    ghost use Rattle.packet_codec.specs.Kinds.{number_of};

    /// Its number: a packet's first byte.
    pub fn number(self) -> u8
        ensures { result ≡ number_of self }
    {
        match self {
            Kind::Request => 1,
            Kind::Answer => 2,
            Kind::NotLeader => 3,
            Kind::Append => 4,
            Kind::Appended => 5,
            Kind::Vote => 6,
            Kind::Voted => 7,
            Kind::TimeoutNow => 8,
            Kind::Remote => 9,
            Kind::Done => 10,
            Kind::Stale => 11,
            Kind::Fence => 12,
            Kind::Fenced => 13,
            Kind::Resume => 14,
        }
    }

    /// The kind of this number, if it is one.
    pub fn of(number: u8) -> Option<Kind>
        ensures { result ≡ kind_of number }
    {
        match number {
            1 => Some(Kind::Request),
            2 => Some(Kind::Answer),
            3 => Some(Kind::NotLeader),
            4 => Some(Kind::Append),
            5 => Some(Kind::Appended),
            6 => Some(Kind::Vote),
            7 => Some(Kind::Voted),
            8 => Some(Kind::TimeoutNow),
            9 => Some(Kind::Remote),
            10 => Some(Kind::Done),
            11 => Some(Kind::Stale),
            12 => Some(Kind::Fence),
            13 => Some(Kind::Fenced),
            14 => Some(Kind::Resume),
            _ => None,
        }
    }

    fn of_message(message: &RaftMsg) -> Kind
        ensures { result ≡ message_kind message.now }
    {
        match message {
            RaftMsg::Append(..) => Kind::Append,
            RaftMsg::Appended(..) => Kind::Appended,
            RaftMsg::Vote(..) => Kind::Vote,
            RaftMsg::Voted(..) => Kind::Voted,
            RaftMsg::TimeoutNow(_) => Kind::TimeoutNow,
        }
    }

    fn of_said(said: &ChainBody) -> Kind
        ensures { result ≡ said_kind said.now }
    {
        match said {
            ChainBody::Request(..) => Kind::Request,
            ChainBody::Answer(..) => Kind::Answer,
            ChainBody::NotLeader(..) => Kind::NotLeader,
            ChainBody::Remote(..) => Kind::Remote,
            ChainBody::Done(..) => Kind::Done,
            ChainBody::Stale(..) => Kind::Stale,
            ChainBody::Fence(..) => Kind::Fence,
            ChainBody::Fenced(..) => Kind::Fenced,
            ChainBody::Resume(..) => Kind::Resume,
        }
    }

    /// The kind of what a packet says.
    pub fn of_body(body: &Body) -> Kind
        ensures { result ≡ body_kind body.now }
    {
        match body {
            Body::Raft(message) => Kind::of_message(message),
            Body::Chain(said) => Kind::of_said(said),
        }
    }
}
