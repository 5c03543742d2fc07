// What a workspace holds beside its policy.
use super::shelf::Shelf;

// A store of gates and a shelf of templates: what a search for occurrences looks at.
#[derive(Drop)]
pub struct Holdings<S> {
    pub(crate) store: S,
    pub(crate) shelf: Shelf,
}
