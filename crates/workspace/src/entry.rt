// Entries of the shelf.
use super::Template;

// A template on the shelf, and how many replacements were made by it since it was shelved.
#[derive(Clone, Copy)]
pub struct Entry {
    pub(crate) template: Template,
    pub(crate) replacements: u16,
}
