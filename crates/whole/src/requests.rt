// A read's request.
ghost use Rattle.std.specs.Prelude.{◌≡◌, ◌<◌};
ghost use Rattle.continued.specs.Point3.{read_request};
ghost use Rattle.whole.specs.Whole.{is_sendable};

use crate::asked::Asked;
use cip::codes::READ_FRAGMENTED;

/// What is read: so many elements of a path's target.
#[derive(Clone, Copy)]
pub struct Read<'a> {
    pub path: &'a [u8],
    pub elements: u16,
    // What the type says, for a proof that has the read behind a reference.
    pub ghost small: { elements < 65536 },
}

impl<'a> Read<'a> {
    /// Whether a request can carry the path: whole words, at most 255 of them.
    pub fn is_sendable(&self) -> bool
        ensures { result ≡ is_sendable self.now.path.now }
    {
        self.path.len() % 2 == 0 && self.path.len() / 2 <= 255
    }
}

impl<'a> Asked for Read<'a> {
    ghost use Rattle.whole.specs.Short.{short_read};

    ghost sendable = { λ read. is_sendable read.path.now };

    ghost request = { λ read offset. read_request read.path.now read.elements offset };

    ghost short = { λ read offset can_send. short_read read.path.now read.elements offset can_send };

    #[tactic(auto, using(crate::specs::Short::request_length))]
    fn put(&self, message: &mut [u8], offset: u32) -> usize {
        let size = self.path.len();
        cip::put_u8(message, 0, READ_FRAGMENTED);
        cip::put_u8(message, 1, (size / 2) as u8);
        cip::copy_into(message, 2, self.path);
        cip::put_u16(message, 2 + size, self.elements);
        cip::put_u32(message, 4 + size, offset);
        8 + size
    }
}
