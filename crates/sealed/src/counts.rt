// The sizes of sealed records, in bytes, and the counts of the records.
ghost use Rattle.std.specs.Prelude.{◌≡◌};
ghost use Rattle.sealed.specs.Writing.{records_length};

// A node: its kind and two operands of 16 bits.
pub(crate) const NODE: usize = 5;

// An entry: its kind and three operands of 16 bits.
pub(crate) const ENTRY: usize = 7;

// The trailer: both counts, of 16 bits, and a distance of 32.
pub(crate) const TRAILER: usize = 8;

// Where the count of entries and the distance begin in the trailer, counted from the end of the bytes.
pub(crate) const ENTRY_COUNT: usize = 6;

pub(crate) const DISTANCE: usize = 4;

// Added to the kind of a struck entry.
pub(crate) const STRUCK: u8 = 16;

#[derive(Clone, Copy, Default)]
pub(crate) struct Counts {
    pub nodes: u16,
    pub entries: u16,
}

impl Counts {
    // How many bytes the records have.
    pub(crate) fn records_length(self) -> u32
        ensures { result ≡ records_length self.nodes self.entries }
    {
        NODE as u32 * self.nodes as u32 + ENTRY as u32 * self.entries as u32
    }
}
