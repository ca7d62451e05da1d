// Which frame the bytes of a line are.
ghost use Rattle.std.specs.Prelude.{◌≡◌};
ghost use Rattle.bench.specs.Frames.{frame_of};

// A frame. An event's data are the bytes from place 3 on, a wide event's those from place 4 on, an update's seed those from place 5 on.
// Kept: (d) no data in a frame: an update writes over its seed, so the bytes are lent again, by place.
#[derive(Clone, Copy)]
pub enum Frame {
    Event { source: u32, pool: u32 },
    Request { clock: u32, count: u16 },
    Update { clock: u32 },
    Write { clock: u32 },
    WideEvent { source: u32, pool: u32 },
}

// The frame that bytes make, if they make one: the first byte tells its kind. Numbers have the most significant byte first.
#[tactic(auto, unfolding(crate::proofs::Frames::parsing))]
pub fn parse(bytes: &[u8]) -> Option<Frame>
    ensures { result ≡ frame_of bytes.now }
{
    match *bytes {
        [1, source, pool, ..] => Some(Frame::Event {
            source: u32::from(source),
            pool: u32::from(pool),
        }),
        [2, a, b, c, d, m, n] => Some(Frame::Request {
            clock: u32::from_be_bytes([a, b, c, d]),
            count: u16::from_be_bytes([m, n]),
        }),
        [3, a, b, c, d, ..] => Some(Frame::Update {
            clock: u32::from_be_bytes([a, b, c, d]),
        }),
        [4, a, b, c, d] => Some(Frame::Write {
            clock: u32::from_be_bytes([a, b, c, d]),
        }),
        [5, high, low, pool, ..] => Some(Frame::WideEvent {
            source: u32::from(u16::from_be_bytes([high, low])),
            pool: u32::from(pool),
        }),
        _ => None,
    }
}
