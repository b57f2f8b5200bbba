// The tables that a caller lends: what every answer is made from.
ghost use Rattle.std.specs.Prelude.{◌≡◌, ◌≤◌};
ghost use Rattle.definition.specs.Lookup.{program_named, tag_named, structure_with_template};
ghost use Rattle.definition.specs.Tables.{members_in};
ghost use Rattle.definition.specs.Types.{structure_in, size_in};
ghost use Rattle.model.specs.Tables.{tables_of};
ghost use Rattle.model.specs.Least.{next_in};

use crate::columns::{STRUCTURE_FIRST_MEMBER, STRUCTURE_MEMBERS};
use crate::least::{Bound, Next};
use crate::{least, lookup, types};

/// A table set as flat rows: structures, members, programs, tags and other symbols, the names of all but the tags, the names of the tags, and
/// the template store.
#[derive(Clone, Copy)]
pub struct Tables<'a> {
    pub structures: &'a [[u32; 10]],
    pub members: &'a [[u32; 9]],
    pub programs: &'a [[u32; 2]],
    pub tags: &'a [[u32; 12]],
    pub others: &'a [[u32; 5]],
    pub names: &'a [u8],
    pub tag_names: &'a [u8],
    pub templates: &'a [u8],
}

impl<'a> Tables<'a> {
    pub fn find_program(&self, name: &[u8]) -> Option<usize>
        ensures { result ≡ program_named (tables_of self.now) name.now }
    {
        self.programs
            .iter()
            .position(|row| lookup::program_is(row, self.names, name))
    }

    pub fn find_tag(&self, scope: u32, name: &[u8]) -> Option<usize>
        ensures { result ≡ tag_named (tables_of self.now) scope name.now }
    {
        self.tags
            .iter()
            .position(|row| lookup::tag_is(row, self.tag_names, scope, name))
    }

    pub fn find_template(&self, id: u32) -> Option<usize>
        ensures { result ≡ structure_with_template (tables_of self.now) id }
    {
        self.structures
            .iter()
            .position(|row| lookup::template_is(row, id))
    }

    /// The members of a structure type.
    pub fn members_of(&self, ty: u32) -> &'a [[u32; 9]]
        requires { 256 ≤ ty }
        ensures { result.now ≡ members_in self.now.members.now (structure_in self.now.structures.now ty) }
    {
        let first = types::structure_word(self.structures, ty, STRUCTURE_FIRST_MEMBER);
        let count = types::structure_word(self.structures, ty, STRUCTURE_MEMBERS);
        lookup::part_of(self.members, first, count)
    }

    /// The bytes of one element of a type.
    pub fn element_size(&self, ty: u32) -> u32
        ensures { result ≡ size_in self.now.structures.now ty }
    {
        types::element_size(self.structures, ty)
    }

    /// The symbol of the least ID not below a bound, among a scope's tags and other symbols.
    pub fn next_symbol(&self, from: Bound) -> Option<Next>
        ensures { result ≡ next_in self.now.tags.now self.now.others.now from.scope from.id }
    {
        least::next_symbol(self.tags, self.others, from)
    }
}
