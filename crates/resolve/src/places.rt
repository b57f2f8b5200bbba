// A place on the way along a path: a target with the lengths of the array that is still open.
ghost use Rattle.std.specs.Prelude.{◌≡◌, List, ℕ, ◌+◌, ◌*◌, ◌≤◌, ◌<◌};
ghost use Rattle.definition.specs.Tables.{tag_elements};
ghost use Rattle.definition.specs.Types.{size_in};
ghost use Rattle.definition.specs.Resolve.{elements_from, index, member_target};
ghost use Rattle.model.specs.Tables.{tables_of};
ghost use Rattle.resolve.specs.Places.{place_of, moved_of, whole_row, Aims};
ghost use Rattle.resolve.specs.Runs.{Bounded, Holds, index_of};

use crate::elements::Run;
use cip::Status;
use model::columns::{
    MEMBER_ACCESS, MEMBER_BIT, MEMBER_LENGTH, MEMBER_OFFSET, MEMBER_TYPE, NO_BIT, TAG_ACCESS,
    TAG_ELEMENTS, TAG_OFFSET, TAG_TYPE,
};
use model::{Tables, Target, shapes};

/// The lengths stand first, zeros behind them; all are 0 for no array.
#[derive(Clone, Copy)]
pub struct Place {
    pub tag: usize,
    pub start: usize,
    pub ty: u32,
    pub count: usize,
    pub lengths: [u32; 3],
    pub bit: u32,
    pub access: u32,
}

impl Place {
    /// The whole of a tag.
    pub fn of_tag(tag: usize, row: &[u32; 12]) -> Place
        requires { 0 < tag_elements row.now }
        ensures { place_of result ≡ whole_row tag row.now }
    {
        let [_, lengths] = shapes::shapes(row);
        Place {
            tag,
            start: row[TAG_OFFSET] as usize,
            ty: row[TAG_TYPE],
            count: row[TAG_ELEMENTS] as usize,
            lengths,
            bit: NO_BIT,
            access: row[TAG_ACCESS],
        }
    }

    /// As a target, with the bytes of one element.
    pub fn target(self, t: &Tables) -> Target
        ensures { Aims t.now.structures.now self result }
    {
        Target {
            tag: self.tag,
            start: self.start,
            ty: self.ty,
            size: t.element_size(self.ty) as usize,
            count: self.count,
            bit: self.bit,
            access: self.access,
        }
    }

    /// The elements from a position on.
    #[tactic(auto, unfolding(definition::specs::Resolve::elements_from))]
    fn elements_from(self, t: &Tables, position: usize) -> Place
        requires { (position ≤ self.count)
            × (self.start + position * size_in t.now.structures.now self.ty ≤ 65536) }
        ensures { place_of result ≡ elements_from (tables_of t.now) (place_of self) position }
    {
        Place {
            start: self.start + position * t.element_size(self.ty) as usize,
            count: self.count - position,
            lengths: [0; 3],
            ..self
        }
    }

    /// An array is open, the number of indexes matches, each is below its length.
    pub fn index(self, t: &Tables, run: Run) -> Result<Place, Status>
        requires { Bounded t.now.structures.now self }
        ensures listed { (es : List ℕ) → Holds es run.entry → moved_of result ≡ index (tables_of t.now) es (place_of self) }
        ensures any_run { moved_of result ≡ index_of (tables_of t.now) self run.entry }
    {
        let dims = shapes::count_lengths(self.lengths);
        if dims == 0 || run.count != dims {
            return Err(Status::PathError);
        }
        if !run.is_inside(self.lengths) {
            return Err(Status::PathUnknown);
        }
        Ok(self.elements_from(t, run.position(self.lengths)))
    }

    // That a place starts at 65,536 or before is a clause here and in `members`, and no ghost field: `..self` makes places, which a struct with one does
    // not allow.

    /// A member; a bit member is one BOOL.
    #[tactic(auto, using(laws::proofs::Chain::tests), unfolding(definition::specs::Resolve::member_target))]
    pub fn member(self, row: &[u32; 9]) -> Place
        requires { self.start ≤ 65536 }
        ensures { place_of result ≡ member_target (place_of self) row.now }
    {
        let start = self.start + row[MEMBER_OFFSET] as usize;
        let access = self.access.max(row[MEMBER_ACCESS]);
        let (bit, length) = (row[MEMBER_BIT], row[MEMBER_LENGTH]);
        if bit != NO_BIT {
            return Place {
                start,
                ty: cip::codes::BOOL,
                count: 1,
                lengths: [0; 3],
                bit,
                access,
                ..self
            };
        }
        Place {
            start,
            ty: row[MEMBER_TYPE],
            count: length.max(1) as usize,
            lengths: [length, 0, 0],
            bit,
            access,
            ..self
        }
    }
}
