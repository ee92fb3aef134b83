//! Why a line isn't taken.
use lists::Text;

/// Why a line isn't taken. A place in the line is that of a byte, from 1.
#[derive(Drop)]
pub enum LineRefused {
    /// The line has more than 65,536 bytes.
    TooLong,
    /// What stands at this place fits no line.
    Syntax(u32),
    /// The number at this place is too wide.
    NumberTooWide(u32),
    /// What stands at this place is more than the limit allows.
    TooMany(u32),
    /// The option at this place isn't allowed.
    BadOption(u32),
    /// There is no space.
    NoSpace,
    /// There is another space.
    OneSpace,
    /// The name stands for nothing.
    NoSuchName(Text),
    /// The name is taken, or stands twice.
    NameTaken(Text),
    /// The values whose `(` stands at this place aren't as many as the columns.
    WrongCount(u32),
    /// A value doesn't fit the column of this name.
    WrongType(Text),
    /// The column of this name has no value.
    NotSet(Text),
    /// The text id at this place is too long.
    LongId(u32),
    /// The walk came to more than 4,096 vertices.
    TooWide,
    /// Fewer nodes are up than a part has replicas.
    NoRoom,
    /// A move of this part is under way.
    TaskOpen(u32),
    /// The move's source has no replica of the part, or its destination has one.
    BadPlace,
    /// There is no node of this number.
    NoSuchNode(u32),
    /// There is no part of this number.
    NoSuchPart(u32),
    /// There was no such packet.
    NoSuchPacket,
    /// There are 8 nodes.
    NodesFull,
    /// A disk failed.
    DiskFault,
    /// A file is none of the store's from this place on, counted from 0.
    BadFile(u64),
}
