//! The kinds of frames.
ghost use Rattle.std.specs.Prelude.{◌≡◌};
ghost use Rattle.sr_wire.specs.Kinds.{kind_at, kind_byte};

/// The kinds of frames, as those of messages.
#[derive(Clone, Copy)]
pub enum FrameKind {
    Hello,
    Resume,
    Ask,
    Write,
    Welcome,
    Notice,
    Rows,
    Reply,
    Written,
    Refused,
    Lapse,
}

impl FrameKind {
    /// The kind of that number, if it is one.
    pub fn of_byte(byte: u8) -> Option<FrameKind>
        ensures { result ≡ kind_at byte }
    {
        match byte {
            0x01 => Some(FrameKind::Hello),
            0x02 => Some(FrameKind::Resume),
            0x03 => Some(FrameKind::Ask),
            0x04 => Some(FrameKind::Write),
            0x11 => Some(FrameKind::Welcome),
            0x12 => Some(FrameKind::Notice),
            0x13 => Some(FrameKind::Rows),
            0x14 => Some(FrameKind::Reply),
            0x15 => Some(FrameKind::Written),
            0x16 => Some(FrameKind::Refused),
            0x17 => Some(FrameKind::Lapse),
            _ => None,
        }
    }

    /// The number of the kind.
    pub fn byte(self) -> u8
        ensures { result ≡ kind_byte self }
    {
        match self {
            FrameKind::Hello => 0x01,
            FrameKind::Resume => 0x02,
            FrameKind::Ask => 0x03,
            FrameKind::Write => 0x04,
            FrameKind::Welcome => 0x11,
            FrameKind::Notice => 0x12,
            FrameKind::Rows => 0x13,
            FrameKind::Reply => 0x14,
            FrameKind::Written => 0x15,
            FrameKind::Refused => 0x16,
            FrameKind::Lapse => 0x17,
        }
    }
}
