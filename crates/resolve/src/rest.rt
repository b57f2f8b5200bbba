// The rest of a path. It has a file of its own, since what names the struct in specs/ cannot be cited beside its ghost field.
ghost use Rattle.std.specs.Prelude.{◌≡◌, true};
ghost use Rattle.laws.specs.Pick.{is_some};
ghost use Rattle.definition.specs.Segment.{segments_from};

use path::{Object, Segment, Step};

/// The part of a path from a position on; its segments decode.
#[derive(Clone, Copy)]
pub struct Rest<'a> {
    pub path: &'a [u8],
    pub at: usize,
    pub ghost decodes: { is_some (segments_from path.now at) ≡ true },
}

impl<'a> Rest<'a> {
    ghost use Rattle.std.specs.Prelude.{Some};
    ghost use Rattle.laws.specs.Pick.{is_empty};
    ghost use Rattle.definition.specs.Segment.{segments};
    ghost use Rattle.resolve.specs.Paths.{left, FirstSegment, FirstElement, FirstObject};

    /// The whole of a path. No `Reader`, which moves and may stand anywhere.
    pub fn of(path: &'a [u8]) -> Rest<'a>
        requires { is_some (segments path.now) ≡ true }
        ensures { segments path.now ≡ Some (left result) }
    {
        Rest { path, at: 0 }
    }

    /// Whether the path ends here.
    pub fn is_empty(self) -> bool
        ensures { result ≡ is_empty (left self.entry) }
    {
        self.path.len() <= self.at
    }

    /// The first segment, and what follows it.
    pub fn segment(self) -> Option<(Segment<'a>, Rest<'a>)>
        ensures { FirstSegment (left self.entry) result }
    {
        let Rest { path, at } = self;
        let Step { segment, next: at } = path::segment_at(path, at)?;
        Some((segment, Rest { path, at }))
    }

    /// The value of the element that it starts with, and what follows it.
    pub fn element(self) -> Option<(u32, Rest<'a>)>
        ensures { FirstElement (left self.entry) result }
    {
        let (segment, next) = self.segment()?;
        match segment {
            Segment::Element(value) => Some((value, next)),
            _ => None,
        }
    }

    /// The class and instance that it starts with, and what follows them.
    pub fn object(self) -> Option<(Object, Rest<'a>)>
        ensures { FirstObject (left self.entry) result }
    {
        let Rest { path, at } = self;
        let object = path::object_at(path, at)?;
        let at = object.next;
        Some((object, Rest { path, at }))
    }
}
