// Queries of a view, answered from the interpretation that it holds.
ghost use Rattle.std.specs.Prelude.{◌≡◌, [], slice_index_or};
ghost use Rattle.models.specs.Views.{view_meaning};

use crate::view::View;

impl View {
    // The number of elements.
    pub fn size(&self) -> u8
        ensures { result ≡ (view_meaning self.now).size }
    {
        self.tables.size
    }

    // The set of a name; empty past the last.
    pub(crate) fn name(&self, a: u16) -> u32
        ensures { result ≡ (view_meaning self.now).names a }
    {
        self.tables.names.get(a as usize).copied().unwrap_or(0)
    }

    // For each element the set to which a role leads; no sets past the last role.
    pub(crate) fn row(&self, role: u16) -> &[u32]
        ensures { result.now ≡ slice_index_or self.now.tables.roles role [] }
    {
        match self.tables.roles.get(role as usize) {
            Some(row) => row,
            None => &[],
        }
    }

    // The elements to which a role leads from element x; none past the last role or element.
    pub(crate) fn successors(&self, role: u16, x: u8) -> u32
        ensures { result ≡ (view_meaning self.now).successors role x }
    {
        let row = self.tables.roles.get(role as usize);
        row.and_then(|row| row.get(x as usize))
            .copied()
            .unwrap_or(0)
    }

    // The element of an individual; 0 past the last.
    pub(crate) fn element(&self, individual: u16) -> u8
        ensures { result ≡ (view_meaning self.now).individual individual }
    {
        self.tables
            .individuals
            .get(individual as usize)
            .copied()
            .unwrap_or(0)
    }
}
