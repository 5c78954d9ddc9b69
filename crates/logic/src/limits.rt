// The limits of books and tableaux.

// Nodes in a book.
pub const NODES: u16 = 512;

// Entries in a book, struck ones included.
pub const ENTRIES: u16 = 256;

// Concept names: they are numbered from 0 to 63.
pub const NAMES: u16 = 64;

// Roles: they are numbered from 0 to 15.
pub const ROLES: u16 = 16;

// Individuals: they are numbered from 0 to 31.
pub const INDIVIDUALS: u16 = 32;

// Steps in a tableau.
pub const STEPS: usize = 8192;

// Labels in a tableau: they are numbered from 0 to 255, and the first 32 are the individuals.
pub const LABELS: u16 = 256;
