// A request. It has a file of its own, since what names the struct in specs/ cannot be cited beside its ghost field.
ghost use Rattle.std.specs.Prelude.{◌≡◌, true};
ghost use Rattle.laws.specs.Pick.{is_some};
ghost use Rattle.definition.specs.Segment.{segments};

/// A request: its service, its path and the data behind it. A path that does not decode makes none.
#[derive(Clone, Copy)]
pub struct Request<'a> {
    pub service: u8,
    pub path: &'a [u8],
    pub body: &'a [u8],
    pub ghost decodes: { is_some (segments path.now) ≡ true },
}
