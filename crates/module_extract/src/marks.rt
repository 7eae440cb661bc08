// Which names came in.
ghost use Rattle.std.specs.Prelude.{◌≡◌, ◌+◌, ◌&&◌, not, cond, nat_lt, false, true, count_by, length, IfOk};
ghost use Rattle.std.specs.Prelude.{slice_index_or};

use pinpointing_specs::Name;
use shq_terms::NoMemory;
use std::alloc::Global;

/// A mark for each class and each role that is listed, by number.
#[derive(Drop)]
pub(crate) struct Marks {
    classes: Vec<bool>,
    roles: Vec<bool>,
}

impl Marks {
    ghost use Rattle.std.specs.Prelude.{◌∷◌, []};
    ghost use Rattle.pinpointing_specs.specs.declared.module_laws.Name.TheVariants as variants;
    ghost use Rattle.module_extract.specs.Marks.{is_marked, has_place, unmarked, HasMarked, IsUnmarked};

    /// No marks, for so many classes and roles.
    pub(crate) fn new(alloc: Global, classes: u32, roles: u32) -> Result<Marks, NoMemory>
        ensures { IfOk result (IsUnmarked classes roles) }
    {
        let classes = vec![in alloc; false; classes as usize]?;
        let roles = vec![in alloc; false; roles as usize]?;
        Ok(Marks { classes, roles })
    }

    /// Whether the class came in.
    pub(crate) fn has_class(&self, class: u32) -> bool
        ensures { result ≡ is_marked self.now (variants.Class class) }
    {
        is_set(&self.classes, class)
    }

    /// Whether the role came in.
    pub(crate) fn has_role(&self, role: u32) -> bool
        ensures { result ≡ is_marked self.now (variants.Role role) }
    {
        is_set(&self.roles, role)
    }

    /// Marks the name, if it is listed and has no mark, and answers whether it did.
    pub(crate) fn mark(&mut self, name: Name) -> bool
        ensures marked { HasMarked self.old self.new (name ∷ []) }
        ensures fresh { result ≡ (has_place self.old name && not (is_marked self.old name)) }
        ensures count { unmarked self.new + cond result 1 0 ≡ unmarked self.old }
    {
        match name {
            Name::Class(class) => set_mark(&mut self.classes, class),
            Name::Role(role) => set_mark(&mut self.roles, role),
        }
    }
}

ghost use Rattle.module_extract.specs.Marks.{HasSet};

/// Whether the mark of the number is set.
fn is_set(marks: &[bool], number: u32) -> bool
    ensures { result ≡ slice_index_or marks.now number false }
{
    let place = number as usize;
    place < marks.len() && marks[place]
}

/// Sets the mark of the number, if there is one that is not set, and answers whether it did.
fn set_mark(marks: &mut [bool], number: u32) -> bool
    ensures set { HasSet marks.old marks.new number }
    ensures fresh { result ≡ (nat_lt number (length marks.old) && not (slice_index_or marks.old number false)) }
    ensures count { count_by not marks.new + cond result 1 0 ≡ count_by not marks.old }
{
    let place = number as usize;
    if place >= marks.len() || marks[place] {
        return false;
    }
    marks[place] = true;
    true
}
